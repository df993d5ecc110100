//! How many alternatives a pattern stands for, counted before any is made. Counts stand still behind the limit.
ghost use Rattle.std.specs.Prelude.{◌≡◌, ◌*◌, ℕ, Bool, List, min, length, nat_lt};
ghost use Rattle.sled_rules.specs.Meanings.{named};
ghost use Rattle.sled_rules.specs.Alternatives.{alternatives, item_choices, lone_choices, part_choices, sequence_choices, test_choices};

use crate::meaning::Meaning;
use crate::names::Names;
use sled_syntax::{Part, SledItem, SledPattern};

/// One more than the most alternatives that a pattern may have.
const OVER: usize = 257;

fn test_count(names: &Names, name: &[u8]) -> usize
    ensures { (equal : Bool) (value : ℕ) → result ≡ length (test_choices equal value (named names.now name.now)) }
{
    match names.named(name) {
        Some(Meaning::Field(_)) => 1,
        _ => 0,
    }
}

fn name_count(names: &Names, name: &[u8]) -> usize
    ensures { (k : ℕ) → result ≡ length (lone_choices k (named names.now name.now)) }
{
    match names.named(name) {
        Some(Meaning::Field(_)) => 1,
        Some(Meaning::Pattern(pattern)) => pattern.alternatives.len(),
        Some(Meaning::Type(_)) => 1,
        _ => 0,
    }
}

fn part_count(names: &Names, part: &Part) -> usize
    ensures { (ops : List (List ℕ)) → result ≡ length (part_choices names.now ops part.now) }
{
    match part {
        Part::Equal(name, _) => test_count(names, name.as_slice()),
        Part::Differs(name, _) => test_count(names, name.as_slice()),
        Part::Lone(name) => name_count(names, name.as_slice()),
    }
}

/// A product that stands still behind the limit.
fn times(count: usize, more: usize) -> usize
    ensures { result ≡ min (min count OVER * min more OVER) OVER }
{
    (count.min(OVER) * more.min(OVER)).min(OVER)
}

fn item_count(names: &Names, item: &SledItem) -> usize
    ensures { (ops : List (List ℕ)) → result ≡ min (length (item_choices names.now ops item.now)) 257 }
{
    let mut count = 1;
    for part in item.parts.as_slice() {
        count = times(count, part_count(names, part));
    }
    match &item.rest {
        None => count,
        Some(rest) => times(count, name_count(names, rest.as_slice())),
    }
}

fn sequence_count(names: &Names, items: &[SledItem]) -> usize
    ensures { (ops : List (List ℕ)) → result ≡ min (length (sequence_choices names.now ops items.now)) 257 }
{
    let mut count = 1;
    for item in items {
        count = times(count, item_count(names, item));
    }
    count
}

/// The pattern stands for more than 256 alternatives.
pub fn has_many(names: &Names, pattern: &SledPattern) -> bool
    ensures { (ops : List (List ℕ)) → result ≡ nat_lt 256 (length (alternatives names.now ops pattern.now)) }
{
    let mut count = 0;
    for items in pattern.alternatives.as_slice() {
        count = (count + sequence_count(names, items.as_slice())).min(OVER);
    }
    count > 256
}
