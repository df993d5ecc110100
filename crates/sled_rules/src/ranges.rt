//! Bits outside their token, and numbers that do not fit their field.
ghost use Rattle.std.specs.Prelude.{◌≡◌};
ghost use Rattle.std.specs.List.{list_any};
ghost use Rattle.sled_rules.specs.Meanings.{named};
ghost use Rattle.sled_rules.specs.Faults.{is_outside, is_over, is_over_part, is_token_width, some_outside, some_over};

use crate::meaning::Meaning;
use crate::names::Names;
use sled_syntax::{FieldDef, Part, SledItem, SledPattern};

/// Tokens have 8, 16 or 32 bits.
fn is_token_width(width: u64) -> bool
    ensures { result ≡ is_token_width width }
{
    width == 8 || width == 16 || width == 32
}

/// The bits are none, or not all bits of a token of this width.
fn is_outside(width: u64, field: &FieldDef) -> bool
    ensures { result ≡ is_outside width field.now }
{
    field.hi < field.lo || width <= field.hi
}

fn is_some_outside(width: u64, fields: &[FieldDef]) -> bool
    ensures { result ≡ list_any (is_outside width) fields.now }
{
    fields.iter().any(|field| is_outside(width, field))
}

/// The width is none of a token, or a field lies outside.
pub fn are_outside(width: u64, fields: &[FieldDef]) -> bool
    ensures { result ≡ some_outside width fields.now }
{
    !is_token_width(width) || is_some_outside(width, fields)
}

/// The number does not fit the field of this name.
fn is_over(names: &Names, name: &[u8], value: u64) -> bool
    ensures { result ≡ is_over value (named names.now name.now) }
{
    match names.named(name) {
        Some(Meaning::Field(field)) => value >= 1u64 << (field.hi + 1 - field.lo),
        _ => false,
    }
}

fn is_over_part(names: &Names, part: &Part) -> bool
    ensures { result ≡ is_over_part names.now part.now }
{
    match part {
        Part::Equal(name, value) | Part::Differs(name, value) => {
            is_over(names, name.as_slice(), *value)
        },
        Part::Lone(_) => false,
    }
}

fn is_over_item(names: &Names, item: &SledItem) -> bool
    ensures { result ≡ list_any (is_over_part names.now) item.now.parts }
{
    item.parts
        .as_slice()
        .iter()
        .any(|part| is_over_part(names, part))
}

fn is_over_sequence(names: &Names, items: &[SledItem]) -> bool
    ensures { result ≡ list_any (λ it. list_any (is_over_part names.now) it.parts) items.now }
{
    items.iter().any(|item| is_over_item(names, item))
}

/// Some number of a pattern does not fit its field.
pub fn is_over_pattern(names: &Names, pattern: &SledPattern) -> bool
    ensures { result ≡ some_over names.now pattern.now }
{
    pattern
        .alternatives
        .as_slice()
        .iter()
        .any(|items| is_over_sequence(names, items.as_slice()))
}
