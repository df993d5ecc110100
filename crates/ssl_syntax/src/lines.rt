//! Readers of lines by their first words.
ghost use Rattle.std.specs.Prelude.{◌≡◌};
ghost use Rattle.ssl_syntax.specs.Words.{line_word};
ghost use Rattle.line_reading.specs.Readings.{Told};
ghost use Rattle.ssl_syntax.specs.LineReaders.{read_align, read_body, read_cells, read_delay, read_function, read_instruction, read_line, read_operand, read_single, read_view, read_windows, read_zero};

use super::cells::read_cell;
use super::files::read_file_head;
use super::line::SslBody;
use super::lists::{read_params, read_transfers, read_view_parts};
use super::transfers::read_whole;
use super::words::{LineWord, line_word};
use line_reading::signs::{BECOMES, OPEN_PAREN};
use line_reading::{Cursor, Stop, read_names_in_parens};
use std::alloc::Global;
use text_lex::Token;

/// `yes` or `no` behind `align`.
#[tactic(auto, using(line_reading::proofs::Stops::stop_laws), unfolding(crate::specs::LineReaders::read_align))]
fn read_align(cursor: &mut Cursor<'_>) -> Result<SslBody, Stop>
    ensures { Told result cursor.new.rest.now (read_align cursor.old.rest.now) }
{
    if cursor.take_name(b"yes") {
        return Ok(SslBody::Align { yes: true });
    }
    cursor.this_name(b"no")?;
    Ok(SslBody::Align { yes: false })
}

/// `no` or `L` behind `delay`.
#[tactic(auto, using(line_reading::proofs::Stops::stop_laws), unfolding(crate::specs::LineReaders::read_delay))]
fn read_delay(cursor: &mut Cursor<'_>) -> Result<SslBody, Stop>
    ensures { Told result cursor.new.rest.now (read_delay cursor.old.rest.now) }
{
    if cursor.take_name(b"no") {
        return Ok(SslBody::Delay { bytes: None });
    }
    let bytes = cursor.number()?;
    Ok(SslBody::Delay { bytes: Some(bytes) })
}

/// `NAME W` behind `cell`.
#[tactic(auto, using(line_reading::proofs::Stops::stop_laws), unfolding(crate::specs::LineReaders::read_single))]
fn read_single(alloc: Global, cursor: &mut Cursor<'_>) -> Result<SslBody, Stop>
    ensures { Told result cursor.new.rest.now (read_single cursor.old.rest.now) }
{
    let name = cursor.any_name(alloc)?;
    let width = cursor.number()?;
    Ok(SslBody::Cell { name, width })
}

/// `NAME [ N ] W` behind `cells`.
#[tactic(auto, using(line_reading::proofs::Stops::stop_laws), unfolding(crate::specs::LineReaders::read_cells))]
fn read_cells(alloc: Global, cursor: &mut Cursor<'_>) -> Result<SslBody, Stop>
    ensures { Told result cursor.new.rest.now (read_cells cursor.old.rest.now) }
{
    let head = read_file_head(alloc, cursor)?;
    Ok(SslBody::Cells {
        name: head.name,
        count: head.count,
        width: head.width,
    })
}

/// `NAME [ N ] W is REF {, REF}` behind `view`.
#[tactic(auto, using(line_reading::proofs::Stops::stop_laws), unfolding(crate::specs::LineReaders::read_view))]
fn read_view(alloc: Global, cursor: &mut Cursor<'_>) -> Result<SslBody, Stop>
    ensures { Told result cursor.new.rest.now (read_view cursor.old.rest.now) }
{
    let head = read_file_head(alloc, cursor)?;
    cursor.this_name(b"is")?;
    let parts = read_view_parts(alloc, cursor)?;
    Ok(SslBody::View {
        name: head.name,
        count: head.count,
        width: head.width,
        parts,
    })
}

/// `CELL` behind `zero`.
#[tactic(auto, using(line_reading::proofs::Stops::stop_laws), unfolding(crate::specs::LineReaders::read_zero))]
fn read_zero(alloc: Global, cursor: &mut Cursor<'_>) -> Result<SslBody, Stop>
    ensures { Told result cursor.new.rest.now (read_zero cursor.old.rest.now) }
{
    let cell = read_cell(alloc, cursor)?;
    Ok(SslBody::Zero { cell })
}

/// `CELL CELL CELL N` behind `windows`.
#[tactic(auto, using(line_reading::proofs::Stops::stop_laws), unfolding(crate::specs::LineReaders::read_windows))]
fn read_windows(alloc: Global, cursor: &mut Cursor<'_>) -> Result<SslBody, Stop>
    ensures { Told result cursor.new.rest.now (read_windows cursor.old.rest.now) }
{
    let out_first = read_cell(alloc, cursor)?;
    let local_first = read_cell(alloc, cursor)?;
    let in_first = read_cell(alloc, cursor)?;
    let count = cursor.number()?;
    Ok(SslBody::Windows {
        out_first,
        local_first,
        in_first,
        count,
    })
}

/// `NAME ( PS? ) := E` behind `function`.
#[tactic(auto, using(line_reading::proofs::Stops::stop_laws), unfolding(crate::specs::LineReaders::read_function))]
fn read_function(alloc: Global, cursor: &mut Cursor<'_>) -> Result<SslBody, Stop>
    ensures { Told result cursor.new.rest.now (read_function cursor.old.rest.now) }
{
    let name = cursor.any_name(alloc)?;
    cursor.sign(OPEN_PAREN)?;
    let params = read_params(alloc, cursor)?;
    cursor.sign(BECOMES)?;
    let body = read_whole(alloc, cursor)?;
    Ok(SslBody::Function { name, params, body })
}

/// `NAME ( OPS? ) := E` behind `operand`.
#[tactic(auto, using(line_reading::proofs::Stops::stop_laws), unfolding(crate::specs::LineReaders::read_operand))]
fn read_operand(alloc: Global, cursor: &mut Cursor<'_>) -> Result<SslBody, Stop>
    ensures { Told result cursor.new.rest.now (read_operand cursor.old.rest.now) }
{
    let name = cursor.any_name(alloc)?;
    cursor.sign(OPEN_PAREN)?;
    let ops = read_names_in_parens(alloc, cursor)?;
    cursor.sign(BECOMES)?;
    let body = read_whole(alloc, cursor)?;
    Ok(SslBody::Operand { name, ops, body })
}

/// `NAME ( OPS? ) := TS` behind `instruction`.
#[tactic(auto, using(line_reading::proofs::Stops::stop_laws), unfolding(crate::specs::LineReaders::read_instruction))]
fn read_instruction(alloc: Global, cursor: &mut Cursor<'_>) -> Result<SslBody, Stop>
    ensures { Told result cursor.new.rest.now (read_instruction cursor.old.rest.now) }
{
    let name = cursor.any_name(alloc)?;
    cursor.sign(OPEN_PAREN)?;
    let ops = read_names_in_parens(alloc, cursor)?;
    cursor.sign(BECOMES)?;
    let transfers = read_transfers(alloc, cursor)?;
    Ok(SslBody::Instruction {
        name,
        ops,
        transfers,
    })
}

/// What stands behind the first word of a line.
#[tactic(auto, unfolding(crate::specs::LineReaders::read_line))]
fn read_line(alloc: Global, word: LineWord, cursor: &mut Cursor<'_>) -> Result<SslBody, Stop>
    ensures { Told result cursor.new.rest.now (read_line word cursor.old.rest.now) }
{
    match word {
        LineWord::Align => read_align(cursor),
        LineWord::Delay => read_delay(cursor),
        LineWord::Cell => read_single(alloc, cursor),
        LineWord::Cells => read_cells(alloc, cursor),
        LineWord::View => read_view(alloc, cursor),
        LineWord::Zero => read_zero(alloc, cursor),
        LineWord::Windows => read_windows(alloc, cursor),
        LineWord::Function => read_function(alloc, cursor),
        LineWord::Operand => read_operand(alloc, cursor),
        LineWord::Instruction => read_instruction(alloc, cursor),
        LineWord::Other => Err(Stop::Malformed),
    }
}

/// What a line says, from its first token on.
#[tactic(auto, unfolding(crate::specs::LineReaders::read_body))]
pub fn read_body(alloc: Global, cursor: &mut Cursor<'_>) -> Result<SslBody, Stop>
    ensures { Told result cursor.new.rest.now (read_body cursor.old.rest.now) }
{
    match cursor.rest.split_first() {
        Some((Token::Name(letters), rest)) => {
            cursor.rest = rest;
            read_line(alloc, line_word(letters.as_slice()), cursor)
        },
        _ => Err(Stop::Malformed),
    }
}
