//! The parts of views.
ghost use Rattle.std.specs.Prelude.{◌≡◌};
ghost use Rattle.ssl_rules.specs.Views.{part_bits, are_parts_in_range, parts_differ};
ghost use Rattle.ssl_rules.specs.Widths.{first_differing, asked};

use crate::measures::{asked, or};
use crate::named_widths::{cell_bits, cell_slice};
use crate::ranges::is_width;
use ssl_rules::{Mismatch, Tables};
use ssl_syntax::ViewPart;

/// The width of a part; none where a number is out of range.
fn part_bits(tables: &Tables, part: &ViewPart) -> Option<u8>
    ensures { result ≡ part_bits tables.now part.now }
{
    match part {
        ViewPart::Whole(cell) => cell_bits(tables, cell),
        ViewPart::Bits(cell, lo, hi) => cell_slice(tables, cell, *lo, *hi),
    }
}

/// Whether the numbers of all parts are in range.
pub fn are_parts_in_range(tables: &Tables, parts: &[ViewPart]) -> bool
    ensures { result ≡ are_parts_in_range tables.now parts.now }
{
    for part in parts {
        if part_bits(tables, part).is_none() {
            return false;
        }
    }
    true
}

/// The first part that has another width than its view, where that is in range.
pub fn parts_differ(tables: &Tables, width: u64, parts: &[ViewPart]) -> Option<Mismatch>
    ensures { result ≡ parts_differ tables.now width parts.now }
{
    if is_width(width) {
        first_other(tables, width as u8, parts)
    } else {
        None
    }
}

/// The first part that has another width.
fn first_other(tables: &Tables, width: u8, parts: &[ViewPart]) -> Option<Mismatch>
    ensures { result ≡ first_differing (λ p. asked width (part_bits tables.now p)) parts.now }
{
    let mut differs = None;
    for part in parts {
        differs = or(differs, asked(width, part_bits(tables, part)));
    }
    differs
}
