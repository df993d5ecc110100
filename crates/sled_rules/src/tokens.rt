//! Parts that can't stand over one token.
ghost use Rattle.std.specs.Prelude.{◌≡◌, ◌==◌, not, length};
ghost use Rattle.std.specs.List.{list_any};
ghost use Rattle.sled_rules.specs.Meanings.{named};
ghost use Rattle.sled_rules.specs.Faults.{is_longer, is_longer_part, is_mixed, is_whole, some_mixed};

use crate::facts::Facts;
use crate::meaning::Meaning;
use crate::names::Names;
use crate::starts::item_start;
use rtl_core::Item;
use sled_syntax::{Part, SledItem, SledPattern};
use sqlite_items::Items;

/// One part and nothing else, which may stand for a sequence or a typed operand.
fn is_whole(item: &SledItem) -> bool
    ensures { result ≡ is_whole item.now }
{
    item.parts.len() == 1 && item.rest.is_none()
}

/// An alternative has not just one item.
fn is_sequence(items: &Items<Item>) -> bool
    ensures { result ≡ not (length items.now == 1) }
{
    items.len() != 1
}

fn has_sequence(alternatives: &[Items<Item>]) -> bool
    ensures { result ≡ list_any (λ items. not (length items == 1)) alternatives.now }
{
    alternatives.iter().any(|items| is_sequence(items))
}

/// A type, or a pattern with a sequence.
fn is_longer(names: &Names, name: &[u8]) -> bool
    ensures { result ≡ is_longer (named names.now name.now) }
{
    match names.named(name) {
        Some(Meaning::Pattern(pattern)) => has_sequence(pattern.alternatives.as_slice()),
        Some(Meaning::Type(_)) => true,
        _ => false,
    }
}

fn is_longer_part(names: &Names, part: &Part) -> bool
    ensures { result ≡ is_longer_part names.now part.now }
{
    match part {
        Part::Equal(..) | Part::Differs(..) => false,
        Part::Lone(name) => is_longer(names, name.as_slice()),
    }
}

fn is_some_longer(names: &Names, parts: &[Part]) -> bool
    ensures { result ≡ list_any (is_longer_part names.now) parts.now }
{
    parts.iter().any(|part| is_longer_part(names, part))
}

/// Parts over two tokens, or some that can't stand over one.
fn is_mixed(names: &Names, facts: &[Facts], item: &SledItem) -> bool
    ensures { result ≡ is_mixed names.now facts.now item.now }
{
    !is_whole(item)
        && (is_some_longer(names, item.parts.as_slice())
            || item_start(names, facts, item).is_several())
}

fn is_mixed_sequence(names: &Names, facts: &[Facts], items: &[SledItem]) -> bool
    ensures { result ≡ list_any (is_mixed names.now facts.now) items.now }
{
    items.iter().any(|item| is_mixed(names, facts, item))
}

/// Some item of a pattern is over two tokens.
pub fn is_mixed_pattern(names: &Names, facts: &[Facts], pattern: &SledPattern) -> bool
    ensures { result ≡ some_mixed names.now facts.now pattern.now }
{
    pattern
        .alternatives
        .as_slice()
        .iter()
        .any(|items| is_mixed_sequence(names, facts, items.as_slice()))
}
