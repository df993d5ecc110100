//! Where an instruction stands, while its template is put in: its operands and its addresses.
ghost use Rattle.std.specs.Prelude.{◌≡◌, ◌+◌, ◌==◌, IfOk, option_and_then, slice_get, slice_index};
ghost use Rattle.rtl_core.specs.Grounding.{place_value, argument_value, argument_place, argument_index, argument_at, part_place, file_place};
ghost use Rattle.rtl_core.specs.GroundData.{place_of, argument_of, site_of};

use crate::expr::Expr;
use crate::expr_copies::copy_expr;
use crate::machine::{CellPart, Machine};
use crate::width::Width;
use sqlite_items::{Boxed, Items};
use std::alloc::{AllocError, Global};

/// A place that can be assigned, with all numbers put in.
#[derive(Debug, Drop)]
pub enum Place {
    Whole(u8),
    Bits(u8, u8, u8),
    Bytes(u8, Expr),
}

/// What an operand stands for: a field's number, a value, or a place.
#[derive(Debug, Drop)]
pub enum Argument {
    Number(Width, u32),
    Value(Expr),
    At(Place),
}

/// An instruction's operands, its address, and the address behind it.
#[derive(Debug, Drop)]
pub struct Site {
    pub arguments: Items<Argument>,
    pub pc: u32,
    pub next: u32,
}

fn copy_place(alloc: Global, place: &Place) -> Result<Place, AllocError>
    ensures { IfOk result (λ copy. copy ≡ place.now) }
{
    match place {
        Place::Whole(c) => Ok(Place::Whole(*c)),
        Place::Bits(c, lo, hi) => Ok(Place::Bits(*c, *lo, *hi)),
        Place::Bytes(n, a) => Ok(Place::Bytes(*n, copy_expr(alloc, a)?)),
    }
}

/// What a place holds.
pub fn value_at(alloc: Global, place: Place) -> Result<Expr, AllocError>
    ensures { IfOk result (λ e. e ≡ place_value (place_of place)) }
{
    match place {
        Place::Whole(c) => Ok(Expr::Cell(c)),
        Place::Bits(c, lo, hi) => Ok(Expr::Slice(Boxed::new(alloc, Expr::Cell(c))?, lo, hi)),
        Place::Bytes(n, a) => Ok(Expr::Load(n, Boxed::new(alloc, a)?)),
    }
}

/// An operand as a value.
fn value_of(alloc: Global, argument: &Argument) -> Result<Expr, AllocError>
    ensures { IfOk result (λ e. e ≡ argument_value (argument_of argument.now)) }
{
    match argument {
        Argument::Number(w, n) => Ok(Expr::Const(*w, *n as u64)),
        Argument::Value(e) => copy_expr(alloc, e),
        Argument::At(place) => value_at(alloc, copy_place(alloc, place)?),
    }
}

impl Site {
    /// The operand at a place of the operand list, as a value.
    pub fn value(&self, alloc: Global, k: u8) -> Result<Expr, AllocError>
        ensures { IfOk result (λ e. e ≡ argument_value (argument_at (site_of self.now) k)) }
    {
        match self.arguments.get(k as usize) {
            Some(argument) => value_of(alloc, argument),
            None => Ok(Expr::Const(Width::FLAG, 0)),
        }
    }

    /// The operand at a place of the operand list, as a place.
    pub fn place(&self, alloc: Global, k: u8) -> Result<Place, AllocError>
        ensures { IfOk result (λ p. place_of p ≡ argument_place (argument_at (site_of self.now) k)) }
    {
        match self.arguments.get(k as usize) {
            Some(Argument::At(place)) => copy_place(alloc, place),
            _ => Ok(Place::Whole(0)),
        }
    }

    /// The operand at a place of the operand list, as an index of a file.
    fn index(&self, k: u8) -> u32
        ensures { result ≡ argument_index (argument_at (site_of self.now) k) }
    {
        match self.arguments.get(k as usize) {
            Some(Argument::Number(_, n)) => *n,
            _ => 0,
        }
    }

    /// The part of a file at the index that an operand gives.
    pub fn file_place(&self, machine: &Machine, file: u16, k: u8) -> Place
        ensures { place_of result ≡ file_place machine.now (site_of self.now) file k }
    {
        let part = file_part(machine, file, self.index(k)).unwrap_or(CellPart {
            cell: 0,
            lo: 0,
            hi: 0,
        });
        place_in(machine, part)
    }
}

fn file_part(machine: &Machine, file: u16, index: u32) -> Option<CellPart>
    ensures { result ≡ option_and_then (λ parts. slice_get parts index) (slice_get machine.now.files file) }
{
    machine
        .files
        .get(file as usize)?
        .get(index as usize)
        .copied()
}

/// A part that is its whole cell is that cell.
fn place_in(machine: &Machine, part: CellPart) -> Place
    ensures { place_of result ≡ part_place machine.now part }
{
    if part.lo == 0 && is_last(machine, part.cell, part.hi) {
        Place::Whole(part.cell)
    } else {
        Place::Bits(part.cell, part.lo, part.hi)
    }
}

/// Whether a bit is the last of a cell.
fn is_last(machine: &Machine, cell: u8, bit: u8) -> bool
    ensures { result ≡ (bit + 1 == slice_index machine.now.widths cell) }
{
    match machine.widths.get(cell as usize) {
        Some(w) => bit as u16 + 1 == w.bits() as u16,
        None => false,
    }
}
