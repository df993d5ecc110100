//! Readers of what a line lists.
ghost use Rattle.std.specs.Prelude.{◌≡◌};
ghost use Rattle.line_reading.specs.Signs.{comma, semicolon};
ghost use Rattle.line_reading.specs.Readings.{Told, in_parens, items};
ghost use Rattle.ssl_syntax.specs.TransferReaders.{read_transfer};
ghost use Rattle.ssl_syntax.specs.LineReaders.{begins_bits, without_bits, read_bits_part, read_param, read_transfers, read_view_part};

use super::cells::{read_cell, read_limits};
use super::line::{Param, SslTransfer, ViewPart};
use super::transfers::read_transfer;
use line_reading::signs::{CLOSE_PAREN, COLON, COMMA, OPEN_PAREN, SEMICOLON};
use line_reading::{Cursor, Stop};
use sqlite_items::Items;
use std::alloc::Global;

/// Goes past `bits (`, where these are the next tokens.
fn take_bits(cursor: &mut Cursor<'_>) -> bool
    ensures found { result ≡ begins_bits cursor.old.rest.now }
    ensures rest { cursor.new.rest.now ≡ without_bits cursor.old.rest.now }
{
    let mut ahead = Cursor { rest: cursor.rest };
    if ahead.take_name(b"bits") && ahead.take_sign(OPEN_PAREN) {
        cursor.rest = ahead.rest;
        return true;
    }
    false
}

/// `CELL , LO , HI )` behind `bits (`.
#[tactic(auto, using(line_reading::proofs::Stops::stop_laws), unfolding(crate::specs::LineReaders::read_bits_part))]
fn read_bits_part(alloc: Global, cursor: &mut Cursor<'_>) -> Result<ViewPart, Stop>
    ensures { Told result cursor.new.rest.now (read_bits_part cursor.old.rest.now) }
{
    let cell = read_cell(alloc, cursor)?;
    let limits = read_limits(cursor)?;
    Ok(ViewPart::Bits(cell, limits.lo, limits.hi))
}

/// `CELL` or `bits ( CELL , LO , HI )`. A cell may be named `bits`.
#[tactic(auto, using(line_reading::proofs::Stops::stop_laws), unfolding(crate::specs::LineReaders::read_view_part))]
fn read_view_part(alloc: Global, cursor: &mut Cursor<'_>) -> Result<ViewPart, Stop>
    ensures { Told result cursor.new.rest.now (read_view_part cursor.old.rest.now) }
{
    if take_bits(cursor) {
        return read_bits_part(alloc, cursor);
    }
    let cell = read_cell(alloc, cursor)?;
    Ok(ViewPart::Whole(cell))
}

/// `REF {, REF}`.
#[tactic(auto, using(crate::proofs::ListLoops::part_laws))]
pub fn read_view_parts(alloc: Global, cursor: &mut Cursor<'_>) -> Result<Items<ViewPart>, Stop>
    ensures { Told result cursor.new.rest.now (items comma read_view_part cursor.old.rest.now) }
{
    let mut parts = Items::new(alloc);
    let first = read_view_part(alloc, cursor)?;
    parts.push(first)?;
    'more: while cursor.take_sign(COMMA) {
        let next = read_view_part(alloc, cursor)?;
        parts.push(next)?;
    }
    Ok(parts)
}

/// `P : W`.
#[tactic(auto, using(line_reading::proofs::Stops::stop_laws), unfolding(crate::specs::LineReaders::read_param))]
fn read_param(alloc: Global, cursor: &mut Cursor<'_>) -> Result<Param, Stop>
    ensures { Told result cursor.new.rest.now (read_param cursor.old.rest.now) }
{
    let name = cursor.any_name(alloc)?;
    cursor.sign(COLON)?;
    let width = cursor.number()?;
    Ok(Param { name, width })
}

/// `P : W {, P : W}`.
#[tactic(auto, using(crate::proofs::ListLoops::param_laws))]
fn read_some_params(alloc: Global, cursor: &mut Cursor<'_>) -> Result<Items<Param>, Stop>
    ensures { Told result cursor.new.rest.now (items comma read_param cursor.old.rest.now) }
{
    let mut params = Items::new(alloc);
    let first = read_param(alloc, cursor)?;
    params.push(first)?;
    'more: while cursor.take_sign(COMMA) {
        let next = read_param(alloc, cursor)?;
        params.push(next)?;
    }
    Ok(params)
}

/// `PS? )` behind `(`.
#[tactic(auto, using(line_reading::proofs::Stops::stop_laws), unfolding(line_reading::specs::Readings::in_parens))]
pub fn read_params(alloc: Global, cursor: &mut Cursor<'_>) -> Result<Items<Param>, Stop>
    ensures { Told result cursor.new.rest.now (in_parens read_param cursor.old.rest.now) }
{
    if cursor.take_sign(CLOSE_PAREN) {
        return Ok(Items::new(alloc));
    }
    let params = read_some_params(alloc, cursor)?;
    cursor.sign(CLOSE_PAREN)?;
    Ok(params)
}

/// `T {; T}`.
#[tactic(auto, using(crate::proofs::ListLoops::transfer_laws))]
fn read_some_transfers(alloc: Global, cursor: &mut Cursor<'_>) -> Result<Items<SslTransfer>, Stop>
    ensures { Told result cursor.new.rest.now (items semicolon read_transfer cursor.old.rest.now) }
{
    let mut transfers = Items::new(alloc);
    let first = read_transfer(alloc, cursor)?;
    transfers.push(first)?;
    'more: while cursor.take_sign(SEMICOLON) {
        let next = read_transfer(alloc, cursor)?;
        transfers.push(next)?;
    }
    Ok(transfers)
}

/// `none` or `T {; T}`.
#[tactic(auto, using(line_reading::proofs::Stops::stop_laws), unfolding(crate::specs::LineReaders::read_transfers))]
pub fn read_transfers(alloc: Global, cursor: &mut Cursor<'_>) -> Result<Items<SslTransfer>, Stop>
    ensures { Told result cursor.new.rest.now (read_transfers cursor.old.rest.now) }
{
    if cursor.take_name(b"none") {
        return Ok(Items::new(alloc));
    }
    let transfers = read_some_transfers(alloc, cursor)?;
    Ok(transfers)
}
