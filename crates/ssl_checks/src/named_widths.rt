//! The widths of what names stand for; none where a number is out of range.
ghost use Rattle.std.specs.Prelude.{◌≡◌, ◌^◌, nat_le, length, option_and_then};
ghost use Rattle.rtl_core.specs.SoundTemplates.{part_width, file_width};
ghost use Rattle.ssl_rules.specs.LineScope.{scope};
ghost use Rattle.ssl_rules.specs.Names.{lone_named};
ghost use Rattle.ssl_rules.specs.Widths.{in_width, cell_bits, cell_slice, lone_width, at_width, at_op_width, indexed_width};

use crate::ranges::{in_width, slice_width};
use rtl_core::CellPart;
use ssl_rules::{LineNames, Lone, Own, Tables};
use ssl_syntax::CellName;

/// The width of a cell by its name.
pub fn cell_bits(tables: &Tables, cell: &CellName) -> Option<u8>
    ensures { result ≡ cell_bits tables.now cell.now }
{
    let number = tables.cell_number(cell)?;
    Some(tables.cell_width(usize::from(number)))
}

/// The width of bits of a cell by its name.
pub fn cell_slice(tables: &Tables, cell: &CellName, lo: u64, hi: u64) -> Option<u8>
    ensures { result ≡ cell_slice tables.now cell.now lo hi }
{
    slice_width(lo, hi, cell_bits(tables, cell)?)
}

/// The width of what a name without brackets stands for.
fn lone_width(tables: &Tables, lone: Lone) -> Option<u8>
    ensures { result ≡ lone_width tables.now lone }
{
    match lone {
        Lone::Cell(cell) => Some(tables.cell_width(usize::from(cell))),
        Lone::Own(Own::Field { operand: _, width }) => Some(width),
        Lone::Own(Own::Typed { operand: _, stands }) => Some(stands.width),
        Lone::Own(Own::Param { place: _, width }) => in_width(width),
    }
}

/// The width of what a name without brackets stands for.
pub fn named_width(names: &LineNames, name: &[u8]) -> Option<u8>
    ensures { result ≡ option_and_then (lone_width names.now.tables.now) (lone_named (scope names.now) name.now) }
{
    lone_width(names.tables, names.lone(name)?)
}

/// The width of a part of a file.
fn part_width(part: CellPart) -> Option<u8>
    ensures { result ≡ in_width (part_width part) }
{
    in_width((u64::from(part.hi) + 1).saturating_sub(u64::from(part.lo)))
}

/// The width of the part of a file at a number.
pub fn at_width(tables: &Tables, name: &[u8], index: u64) -> Option<u8>
    ensures { result ≡ at_width tables.now name.now index }
{
    part_width(tables.part(name, index)?)
}

/// The width of a file: that of its first part.
fn file_width(parts: &[CellPart]) -> Option<u8>
    ensures { result ≡ in_width (file_width (Some parts.now)) }
{
    match parts.first() {
        Some(part) => part_width(*part),
        None => in_width(0),
    }
}

/// Whether each number of so many bits is an index of so many parts.
fn reaches(width: u8, count: usize) -> bool
    ensures { result ≡ nat_le (2 ^ width) count }
{
    if width >= 64 {
        return false;
    }
    1u64 << width <= count as u64
}

/// The width of a part of these at the index that a field gives.
fn indexed_width(parts: &[CellPart], field: (u8, u8)) -> Option<u8>
    ensures { result ≡ indexed_width parts.now field }
{
    if reaches(field.1, parts.len()) {
        file_width(parts)
    } else {
        None
    }
}

/// The width of a part of a file at the index that a field operand gives.
pub fn at_op_width(names: &LineNames, name: &[u8], op: &[u8]) -> Option<u8>
    ensures { result ≡ at_op_width (scope names.now) name.now op.now }
{
    let parts = names.tables.parts(name)?;
    indexed_width(parts, names.field(op)?)
}
