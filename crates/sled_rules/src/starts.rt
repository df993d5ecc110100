//! Over which token patterns start.
ghost use Rattle.std.specs.Prelude.{◌≡◌};
ghost use Rattle.sled_rules.specs.Meanings.{named};
ghost use Rattle.sled_rules.specs.Starts.{meaning_start, part_start, item_start, sequence_start, pattern_start};

use crate::facts::{Facts, start_of};
use crate::meaning::{Meaning, Start};
use crate::names::Names;
use sled_syntax::{Part, SledItem, SledPattern};

/// The token of a field, or that which a pattern or a type starts with.
fn name_start(names: &Names, facts: &[Facts], name: &[u8]) -> Start
    ensures { result ≡ meaning_start facts.now (named names.now name.now) }
{
    match names.named(name) {
        Some(Meaning::Field(field)) => Start::One(field.token),
        Some(Meaning::Pattern(pattern)) => pattern.start,
        Some(Meaning::Type(kind)) => start_of(facts, *kind),
        _ => Start::Nothing,
    }
}

fn part_start(names: &Names, facts: &[Facts], part: &Part) -> Start
    ensures { result ≡ part_start names.now facts.now part.now }
{
    match part {
        Part::Equal(name, _) | Part::Differs(name, _) | Part::Lone(name) => {
            name_start(names, facts, name.as_slice())
        },
    }
}

/// The token that all parts of an item start with.
pub fn item_start(names: &Names, facts: &[Facts], item: &SledItem) -> Start
    ensures { result ≡ item_start names.now facts.now item.now }
{
    let mut start = Start::Nothing;
    for part in item.parts.as_slice() {
        start = start.join(part_start(names, facts, part));
    }
    match &item.rest {
        None => start,
        Some(rest) => start.join(name_start(names, facts, rest.as_slice())),
    }
}

/// A sequence starts with its first item.
fn sequence_start(names: &Names, facts: &[Facts], items: &[SledItem]) -> Start
    ensures { result ≡ sequence_start names.now facts.now items.now }
{
    match items.split_first() {
        None => Start::Nothing,
        Some((first, _)) => item_start(names, facts, first),
    }
}

/// The token that all alternatives of a pattern start with.
pub fn pattern_start(names: &Names, facts: &[Facts], pattern: &SledPattern) -> Start
    ensures { result ≡ pattern_start names.now facts.now pattern.now }
{
    let mut start = Start::Nothing;
    for items in pattern.alternatives.as_slice() {
        start = start.join(sequence_start(names, facts, items.as_slice()));
    }
    start
}
