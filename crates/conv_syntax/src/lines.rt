//! Readers of lines by their first words.
ghost use Rattle.std.specs.Prelude.{◌≡◌};
ghost use Rattle.line_reading.specs.Readings.{Told};
ghost use Rattle.conv_syntax.specs.Lines.{is_negative};
ghost use Rattle.conv_syntax.specs.LineReaders.{error_of, read_behind, read_body, read_cell, read_errors, read_heap, read_line_only, read_service, read_stack};

use super::line::{ConvBody, ConvCell, ServiceLine, StackLine};
use super::words::{LineWord, line_word};
use line_reading::signs::{CLOSE_BRACKET, OPEN_BRACKET};
use line_reading::{Cursor, Stop};
use std::alloc::Global;
use text_lex::Token;

/// `NAME` or `NAME [ NUMBER ]`.
#[tactic(auto, using(line_reading::proofs::Stops::stop_laws), unfolding(crate::specs::LineReaders::read_cell))]
fn read_cell(alloc: Global, cursor: &mut Cursor<'_>) -> Result<ConvCell, Stop>
    ensures { Told result cursor.new.rest.now (read_cell cursor.old.rest.now) }
{
    let name = cursor.any_name(alloc)?;
    if cursor.take_sign(OPEN_BRACKET) {
        let index = cursor.number()?;
        cursor.sign(CLOSE_BRACKET)?;
        return Ok(ConvCell {
            name,
            index: Some(index),
        });
    }
    Ok(ConvCell { name, index: None })
}

/// The name is `negative`, without an index.
fn is_negative(cell: &ConvCell) -> bool
    ensures { result ≡ is_negative cell.now }
{
    cell.index.is_none() && cell.name.as_slice() == b"negative".as_slice()
}

/// The error cell, which is none where it is `negative`.
fn error_of(cell: ConvCell) -> Option<ConvCell>
    ensures { result ≡ error_of cell }
{
    if is_negative(&cell) {
        return None;
    }
    Some(cell)
}

/// `CELL BASE SIZE ROOM` behind `stack`.
#[tactic(auto, using(line_reading::proofs::Stops::stop_laws), unfolding(crate::specs::LineReaders::read_stack))]
fn read_stack(alloc: Global, cursor: &mut Cursor<'_>) -> Result<ConvBody, Stop>
    ensures { Told result cursor.new.rest.now (read_stack cursor.old.rest.now) }
{
    let cell = read_cell(alloc, cursor)?;
    let base = cursor.number()?;
    let size = cursor.number()?;
    let room = cursor.number()?;
    Ok(ConvBody::Stack(StackLine {
        cell,
        base,
        size,
        room,
    }))
}

/// `BASE SIZE` behind `heap`.
#[tactic(auto, using(line_reading::proofs::Stops::stop_laws), unfolding(crate::specs::LineReaders::read_heap))]
fn read_heap(cursor: &mut Cursor<'_>) -> Result<ConvBody, Stop>
    ensures { Told result cursor.new.rest.now (read_heap cursor.old.rest.now) }
{
    let base = cursor.number()?;
    let size = cursor.number()?;
    Ok(ConvBody::Heap { base, size })
}

/// `CELL args CELL CELL CELL result CELL error CELL` behind `service`.
#[tactic(auto, using(line_reading::proofs::Stops::stop_laws), unfolding(crate::specs::LineReaders::read_service))]
fn read_service(alloc: Global, cursor: &mut Cursor<'_>) -> Result<ConvBody, Stop>
    ensures { Told result cursor.new.rest.now (read_service cursor.old.rest.now) }
{
    let number = read_cell(alloc, cursor)?;
    cursor.this_name(b"args")?;
    let arg_x = read_cell(alloc, cursor)?;
    let arg_y = read_cell(alloc, cursor)?;
    let arg_z = read_cell(alloc, cursor)?;
    cursor.this_name(b"result")?;
    let answer = read_cell(alloc, cursor)?;
    cursor.this_name(b"error")?;
    let error = read_cell(alloc, cursor)?;
    Ok(ConvBody::Service(ServiceLine {
        number,
        arg_x,
        arg_y,
        arg_z,
        result: answer,
        error: error_of(error),
    }))
}

/// `fault N descriptor N unknown N` behind `errors`.
#[tactic(auto, using(line_reading::proofs::Stops::stop_laws), unfolding(crate::specs::LineReaders::read_errors))]
fn read_errors(cursor: &mut Cursor<'_>) -> Result<ConvBody, Stop>
    ensures { Told result cursor.new.rest.now (read_errors cursor.old.rest.now) }
{
    cursor.this_name(b"fault")?;
    let fault = cursor.number()?;
    cursor.this_name(b"descriptor")?;
    let descriptor = cursor.number()?;
    cursor.this_name(b"unknown")?;
    let unknown = cursor.number()?;
    Ok(ConvBody::Errors {
        fault,
        descriptor,
        unknown,
    })
}

/// What stands behind the first word of a line.
#[tactic(auto, using(line_reading::proofs::Stops::stop_laws), unfolding(crate::specs::LineReaders::read_behind))]
fn read_behind(alloc: Global, word: LineWord, cursor: &mut Cursor<'_>) -> Result<ConvBody, Stop>
    ensures { Told result cursor.new.rest.now (read_behind word cursor.old.rest.now) }
{
    match word {
        LineWord::Elf => Ok(ConvBody::Elf(cursor.number()?)),
        LineWord::Stack => read_stack(alloc, cursor),
        LineWord::Heap => read_heap(cursor),
        LineWord::Service => read_service(alloc, cursor),
        LineWord::Exit => Ok(ConvBody::Exit(cursor.number()?)),
        LineWord::Read => Ok(ConvBody::Read(cursor.number()?)),
        LineWord::Write => Ok(ConvBody::Write(cursor.number()?)),
        LineWord::Brk => Ok(ConvBody::Brk(cursor.number()?)),
        LineWord::Errors => read_errors(cursor),
        LineWord::Link => Ok(ConvBody::Link(read_cell(alloc, cursor)?)),
        LineWord::Call => Ok(ConvBody::Call(cursor.any_name(alloc)?)),
        LineWord::Return => Ok(ConvBody::Return(cursor.any_name(alloc)?)),
        LineWord::Entry => Ok(ConvBody::Entry(cursor.number()?)),
        LineWord::Whole => Ok(ConvBody::Whole(cursor.number()?)),
        LineWord::Pad => Ok(ConvBody::Pad(cursor.any_name(alloc)?)),
        LineWord::Args => Ok(ConvBody::Args(cursor.number()?)),
        LineWord::Other => Err(Stop::Malformed),
    }
}

/// What a line says.
#[tactic(auto, unfolding(crate::specs::LineReaders::read_body))]
fn read_body(alloc: Global, cursor: &mut Cursor<'_>) -> Result<ConvBody, Stop>
    ensures { Told result cursor.new.rest.now (read_body cursor.old.rest.now) }
{
    match cursor.rest.split_first() {
        Some((Token::Name(letters), rest)) => {
            cursor.rest = rest;
            read_behind(alloc, line_word(letters.as_slice()), cursor)
        },
        _ => Err(Stop::Malformed),
    }
}

/// What a line says, and nothing behind it.
#[tactic(auto, using(line_reading::proofs::Stops::stop_laws), unfolding(line_reading::specs::Readings::whole_line))]
pub fn read_line_only(alloc: Global, cursor: &mut Cursor<'_>) -> Result<ConvBody, Stop>
    ensures { Told result cursor.new.rest.now (read_line_only cursor.old.rest.now) }
{
    let body = read_body(alloc, cursor)?;
    cursor.end()?;
    Ok(body)
}
