//! How much a constructor or a pattern can take. Sums stand still behind their limit.
ghost use Rattle.std.specs.Prelude.{◌≡◌, min, length, nat_lt};
ghost use Rattle.std.specs.List.{list_any};
ghost use Rattle.rtl_core.specs.SoundEncodings.{kind_size, list_size, item_size};
ghost use Rattle.sled_rules.specs.Sizes.{most_of, longest_of, bytes_of, is_long, longest};

use crate::facts::{Facts, longest_of, most_of};
use rtl_core::{Item, OperandKind};
use sqlite_items::Items;

/// The most numbers of an operand, but 9 at most.
fn kind_size(facts: &[Facts], kind: OperandKind) -> usize
    ensures { result ≡ min (kind_size (most_of facts.now) kind) 9 }
{
    match kind {
        OperandKind::Field(_) => 1,
        OperandKind::Typed(kind) => most_of(facts, kind).min(8) + 1,
    }
}

/// The most numbers of an operand list, but 9 at most.
pub fn list_size(facts: &[Facts], kinds: &[OperandKind]) -> usize
    ensures { result ≡ min (list_size (most_of facts.now) kinds.now) 9 }
{
    let mut size = 0;
    for kind in kinds {
        size = (size + kind_size(facts, *kind)).min(9);
    }
    size
}

/// The most bytes of an item, but 33 at most.
fn item_size(facts: &[Facts], item: &Item) -> usize
    ensures { result ≡ min (item_size (longest_of facts.now) item.now) 33 }
{
    match item.typed {
        None => usize::from(item.bits / 8).min(33),
        Some(typed) => longest_of(facts, typed.kind).min(33),
    }
}

/// The most bytes of an alternative, but 33 at most.
fn bytes_of(facts: &[Facts], items: &[Item]) -> usize
    ensures { result ≡ min (bytes_of facts.now items.now) 33 }
{
    let mut bytes = 0;
    for item in items {
        bytes = (bytes + item_size(facts, item)).min(33);
    }
    bytes
}

/// Over 16 items or over 32 bytes.
fn is_long(facts: &[Facts], items: &[Item]) -> bool
    ensures { result ≡ is_long facts.now items.now }
{
    items.len() > 16 || bytes_of(facts, items) > 32
}

/// Some alternative is over 16 items or over 32 bytes.
pub fn is_some_long(facts: &[Facts], all: &[Items<Item>]) -> bool
    ensures { result ≡ list_any (is_long facts.now) all.now }
{
    all.iter().any(|items| is_long(facts, items.as_slice()))
}

/// The most bytes of some alternatives.
pub fn longest(facts: &[Facts], all: &[Items<Item>]) -> usize
    ensures { result ≡ min (longest facts.now all.now) 33 }
{
    let mut most = 0usize;
    for items in all {
        most = most.max(bytes_of(facts, items.as_slice()));
    }
    most
}
