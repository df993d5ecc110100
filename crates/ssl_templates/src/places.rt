//! What transfers assign, and their expressions.
ghost use Rattle.std.specs.Prelude.{◌≡◌, IfOk, true, is_some, option_map, unwrap_or};
ghost use Rattle.ssl_rules.specs.LineScope.{scope};
ghost use Rattle.ssl_rules.specs.Widths.{measured, place_measured, cell_slice};
ghost use Rattle.ssl_rules.specs.Names.{cell_number};
ghost use Rattle.ssl_rules.specs.Formulas.{chosen_part};
ghost use Rattle.ssl_rules.specs.Templates.{expr_value, lone_place, part_place, place_of, no_place};

use crate::expressions::expand;
use crate::names::chosen_part;
use crate::values::value_of;
use rtl_core::{CellPart, TExpr, TPlace};
use ssl_rules::{LineNames, Lone, Own, Tables};
use ssl_syntax::{CellName, SslExpr, SslPlace};
use std::alloc::{AllocError, Global};

/// An expression of a template.
pub fn expr_value(alloc: Global, names: &LineNames, e: &SslExpr) -> Result<TExpr, AllocError>
    requires ranged { is_some (measured (scope names.now) e.now).width ≡ true }
    ensures { IfOk result (λ t. t ≡ expr_value (scope names.now) e.now) }
{
    value_of(alloc, &expand(alloc, names, e)?)
}

/// What an act assigns.
pub fn place_of(alloc: Global, names: &LineNames, place: &SslPlace) -> Result<TPlace, AllocError>
    requires ranged { is_some (place_measured (scope names.now) place.now).width ≡ true }
    ensures { IfOk result (λ p. p ≡ place_of (scope names.now) place.now) }
{
    match place {
        SslPlace::Named(name) => Ok(lone_place(names.lone(name.as_slice()))),
        SslPlace::At(name, index) => {
            Ok(part_place(names.tables, names.tables.part(name.as_slice(), *index)))
        }
        SslPlace::AtOp(name, op) => Ok(chosen_place(names, name.as_slice(), op.as_slice())),
        SslPlace::Bits(cell, lo, hi) => Ok(bits_place(names.tables, cell, *lo, *hi)),
        SslPlace::Load(bits, address) => {
            Ok(TPlace::Memory(*bits / 8, expr_value(alloc, names, address)?))
        }
    }
}

/// What stands where nothing is known.
fn no_place() -> TPlace
    ensures { result ≡ no_place }
{
    TPlace::Cell(0)
}

/// What a name without brackets stands for as a place.
fn lone_place(lone: Option<Lone>) -> TPlace
    ensures { result ≡ unwrap_or (option_map lone_place lone) no_place }
{
    match lone {
        Some(Lone::Cell(cell)) => TPlace::Cell(cell),
        Some(Lone::Own(Own::Field { operand, width: _ })) => TPlace::Operand(operand),
        Some(Lone::Own(Own::Typed { operand, stands: _ })) => TPlace::Operand(operand),
        _ => no_place(),
    }
}

/// A part of a file as a place: a cell where it is a whole one.
fn part_place(tables: &Tables, part: Option<CellPart>) -> TPlace
    ensures { result ≡ unwrap_or (option_map (part_place tables.now) part) no_place }
{
    match part {
        Some(part) => {
            if tables.is_whole(part) {
                TPlace::Cell(part.cell)
            } else {
                TPlace::Slice(part.cell, part.lo, part.hi)
            }
        }
        None => no_place(),
    }
}

/// The part of a file that a field operand chooses, as a place.
fn chosen_place(names: &LineNames, name: &[u8], op: &[u8]) -> TPlace
    ensures { result ≡ unwrap_or (option_map (λ p. TPlace.FileAt p.0 p.1) (chosen_part (scope names.now) name.now op.now)) no_place }
{
    match chosen_part(names, name, op) {
        Some((file, operand)) => TPlace::FileAt(file, operand),
        None => no_place(),
    }
}

/// Bits of a cell as a place.
fn bits_place(tables: &Tables, cell: &CellName, lo: u64, hi: u64) -> TPlace
    requires ranged { is_some (cell_slice tables.now cell.now lo hi) ≡ true }
    ensures { result ≡ unwrap_or (option_map (λ c. TPlace.Slice c lo hi) (cell_number tables.now cell.now)) no_place }
{
    match tables.cell_number(cell) {
        Some(cell) => {
            if hi < u64::from(tables.cell_width(usize::from(cell))) && lo <= hi {
                TPlace::Slice(cell, lo as u8, hi as u8)
            } else {
                no_place()
            }
        }
        None => no_place(),
    }
}
