//! Readers of transfers.
ghost use Rattle.std.specs.Prelude.{◌≡◌};
ghost use Rattle.ssl_syntax.specs.Words.{word_of};
ghost use Rattle.line_reading.specs.Readings.{Told};
ghost use Rattle.ssl_syntax.specs.TransferReaders.{begins_act, is_act_word, place_part, read_act, read_act_behind, read_assignment, read_cell_bits, read_guarded, read_part, read_place, read_place_behind, read_store, read_transfer, read_whole};

use super::cells::{read_cell, read_limits};
use super::exprs::read_expr;
use super::index::{Index, read_index};
use super::line::{SslAct, SslExpr, SslPlace, SslTransfer};
use super::words::{Word, is_free, word_of};
use line_reading::signs::{BECOMES, CLOSE_BRACKET, GUARDS, OPEN_BRACKET, OPEN_PAREN, STAR};
use line_reading::{Cursor, Stop};
use sqlite_items::Items;
use std::alloc::Global;
use text_lex::Token;

/// An expression by itself: its parts stand inside at most 2,000 others.
#[tactic(auto, unfolding(crate::specs::TransferReaders::read_whole))]
pub fn read_whole(alloc: Global, cursor: &mut Cursor<'_>) -> Result<SslExpr, Stop>
    ensures { Told result cursor.new.rest.now (read_whole cursor.old.rest.now) }
{
    read_expr(alloc, 2001, cursor)
}

/// The part of a file that a name and an index give.
fn place_part(name: Items<u8>, index: Index) -> SslPlace
    ensures { result ≡ place_part name index }
{
    match index {
        Index::Number(value) => SslPlace::At(name, value),
        Index::Op(op) => SslPlace::AtOp(name, op),
    }
}

/// `[ E ]` behind the name of a load.
#[tactic(auto, using(line_reading::proofs::Stops::stop_laws), unfolding(crate::specs::TransferReaders::read_store))]
fn read_store(alloc: Global, bits: u8, cursor: &mut Cursor<'_>) -> Result<SslPlace, Stop>
    ensures { Told result cursor.new.rest.now (read_store bits cursor.old.rest.now) }
{
    cursor.sign(OPEN_BRACKET)?;
    let address = read_whole(alloc, cursor)?;
    cursor.sign(CLOSE_BRACKET)?;
    Ok(SslPlace::Load(bits, address))
}

/// `( CELL , LO , HI )` behind `bits`.
#[tactic(auto, using(line_reading::proofs::Stops::stop_laws), unfolding(crate::specs::TransferReaders::read_cell_bits))]
fn read_cell_bits(alloc: Global, cursor: &mut Cursor<'_>) -> Result<SslPlace, Stop>
    ensures { Told result cursor.new.rest.now (read_cell_bits cursor.old.rest.now) }
{
    cursor.sign(OPEN_PAREN)?;
    let cell = read_cell(alloc, cursor)?;
    if !is_free(cell.name.as_slice()) {
        return Err(Stop::Malformed);
    }
    let limits = read_limits(cursor)?;
    Ok(SslPlace::Bits(cell, limits.lo, limits.hi))
}

/// `[ NUMBER ]`, `[ OP ]` or nothing behind the name of a place.
#[tactic(auto, using(line_reading::proofs::Stops::stop_laws), unfolding(crate::specs::TransferReaders::read_part))]
fn read_part(alloc: Global, name: &[u8], cursor: &mut Cursor<'_>) -> Result<SslPlace, Stop>
    ensures { Told result cursor.new.rest.now (read_part name.now cursor.old.rest.now) }
{
    let name = Items::from_slice(alloc, name)?;
    if cursor.take_sign(OPEN_BRACKET) {
        let index = read_index(alloc, cursor)?;
        return Ok(place_part(name, index));
    }
    Ok(SslPlace::Named(name))
}

/// What stands behind the name with which a place begins.
#[tactic(auto, unfolding(crate::specs::TransferReaders::read_place_behind))]
fn read_place_behind(alloc: Global, name: &[u8], cursor: &mut Cursor<'_>) -> Result<SslPlace, Stop>
    ensures { Told result cursor.new.rest.now (read_place_behind name.now (word_of name.now) cursor.old.rest.now) }
{
    match word_of(name) {
        Word::Load(bits) => read_store(alloc, bits, cursor),
        Word::Bits => read_cell_bits(alloc, cursor),
        Word::Plain => read_part(alloc, name, cursor),
        _ => Err(Stop::Malformed),
    }
}

/// What an act can assign.
#[tactic(auto, unfolding(crate::specs::TransferReaders::read_place))]
fn read_place(alloc: Global, cursor: &mut Cursor<'_>) -> Result<SslPlace, Stop>
    ensures { Told result cursor.new.rest.now (read_place cursor.old.rest.now) }
{
    match cursor.rest.split_first() {
        Some((Token::Name(letters), rest)) => {
            cursor.rest = rest;
            read_place_behind(alloc, letters.as_slice(), cursor)
        },
        _ => Err(Stop::Malformed),
    }
}

/// `W * PLACE := E` behind `*`.
#[tactic(auto, using(line_reading::proofs::Stops::stop_laws), unfolding(crate::specs::TransferReaders::read_assignment))]
fn read_assignment(alloc: Global, cursor: &mut Cursor<'_>) -> Result<SslAct, Stop>
    ensures { Told result cursor.new.rest.now (read_assignment cursor.old.rest.now) }
{
    let width = cursor.number()?;
    cursor.sign(STAR)?;
    let place = read_place(alloc, cursor)?;
    cursor.sign(BECOMES)?;
    let value = read_whole(alloc, cursor)?;
    Ok(SslAct::Assign(width, place, value))
}

/// What stands behind the word with which an act begins.
#[tactic(auto, using(line_reading::proofs::Stops::stop_laws), unfolding(crate::specs::TransferReaders::read_act_behind))]
fn read_act_behind(alloc: Global, word: Word, cursor: &mut Cursor<'_>) -> Result<SslAct, Stop>
    ensures { Told result cursor.new.rest.now (read_act_behind word cursor.old.rest.now) }
{
    match word {
        Word::Jump => {
            let target = read_whole(alloc, cursor)?;
            Ok(SslAct::Jump(target))
        },
        Word::Trap => {
            let number = read_whole(alloc, cursor)?;
            Ok(SslAct::Trap(number))
        },
        Word::Annul => Ok(SslAct::Annul),
        Word::Service => Ok(SslAct::Service),
        Word::WinSave => Ok(SslAct::WinSave),
        Word::WinRestore => Ok(SslAct::WinRestore),
        _ => Err(Stop::Malformed),
    }
}

/// What a transfer does.
#[tactic(auto, unfolding(crate::specs::TransferReaders::read_act))]
fn read_act(alloc: Global, cursor: &mut Cursor<'_>) -> Result<SslAct, Stop>
    ensures { Told result cursor.new.rest.now (read_act cursor.old.rest.now) }
{
    match cursor.rest.split_first() {
        Some((Token::Name(letters), rest)) => {
            cursor.rest = rest;
            read_act_behind(alloc, word_of(letters.as_slice()), cursor)
        },
        Some((Token::Sign(index), rest)) if *index == STAR => {
            cursor.rest = rest;
            read_assignment(alloc, cursor)
        },
        _ => Err(Stop::Malformed),
    }
}

/// A word with which an act begins.
fn is_act_word(word: Word) -> bool
    ensures { result ≡ is_act_word word }
{
    match word {
        Word::Jump | Word::Annul | Word::Trap => true,
        Word::Service | Word::WinSave | Word::WinRestore => true,
        _ => false,
    }
}

/// No guard stands here.
#[tactic(auto, unfolding(crate::specs::TransferReaders::begins_act))]
fn begins_act(tokens: &[Token]) -> bool
    ensures { result ≡ begins_act tokens.now }
{
    match tokens.split_first() {
        Some((Token::Name(letters), _)) => is_act_word(word_of(letters.as_slice())),
        Some((Token::Sign(index), _)) => *index == STAR,
        _ => false,
    }
}

/// `E => ACT`.
#[tactic(auto, using(line_reading::proofs::Stops::stop_laws), unfolding(crate::specs::TransferReaders::read_guarded))]
fn read_guarded(alloc: Global, cursor: &mut Cursor<'_>) -> Result<SslTransfer, Stop>
    ensures { Told result cursor.new.rest.now (read_guarded cursor.old.rest.now) }
{
    let guard = read_whole(alloc, cursor)?;
    cursor.sign(GUARDS)?;
    let act = read_act(alloc, cursor)?;
    Ok(SslTransfer {
        guard: Some(guard),
        act,
    })
}

/// `ACT` or `E => ACT`.
#[tactic(auto, using(line_reading::proofs::Stops::stop_laws), unfolding(crate::specs::TransferReaders::read_transfer))]
pub fn read_transfer(alloc: Global, cursor: &mut Cursor<'_>) -> Result<SslTransfer, Stop>
    ensures { Told result cursor.new.rest.now (read_transfer cursor.old.rest.now) }
{
    if begins_act(cursor.rest) {
        let act = read_act(alloc, cursor)?;
        return Ok(SslTransfer { guard: None, act });
    }
    read_guarded(alloc, cursor)
}
