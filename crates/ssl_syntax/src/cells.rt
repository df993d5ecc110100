//! Readers of what names cells.
ghost use Rattle.std.specs.Prelude.{◌≡◌};
ghost use Rattle.line_reading.specs.Readings.{Told};
ghost use Rattle.ssl_syntax.specs.TransferReaders.{read_cell, read_limits};

use super::line::CellName;
use line_reading::signs::{CLOSE_BRACKET, CLOSE_PAREN, COMMA, OPEN_BRACKET};
use line_reading::{Cursor, Stop};
use std::alloc::Global;

/// The first and the last of some bits.
#[derive(Clone, Copy, Debug)]
pub struct Limits {
    pub lo: u64,
    pub hi: u64,
}

/// `NAME` or `NAME [ NUMBER ]`.
#[tactic(auto, using(line_reading::proofs::Stops::stop_laws), unfolding(crate::specs::TransferReaders::read_cell))]
pub fn read_cell(alloc: Global, cursor: &mut Cursor<'_>) -> Result<CellName, Stop>
    ensures { Told result cursor.new.rest.now (read_cell cursor.old.rest.now) }
{
    let name = cursor.any_name(alloc)?;
    if cursor.take_sign(OPEN_BRACKET) {
        let index = cursor.number()?;
        cursor.sign(CLOSE_BRACKET)?;
        return Ok(CellName {
            name,
            index: Some(index),
        });
    }
    Ok(CellName { name, index: None })
}

/// `, LO , HI )`.
#[tactic(auto, using(line_reading::proofs::Stops::stop_laws), unfolding(crate::specs::TransferReaders::read_limits))]
pub fn read_limits(cursor: &mut Cursor<'_>) -> Result<Limits, Stop>
    ensures { Told result cursor.new.rest.now (read_limits cursor.old.rest.now) }
{
    cursor.sign(COMMA)?;
    let lo = cursor.number()?;
    cursor.sign(COMMA)?;
    let hi = cursor.number()?;
    cursor.sign(CLOSE_PAREN)?;
    Ok(Limits { lo, hi })
}
