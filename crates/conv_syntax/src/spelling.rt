//! Line values as their tokens.
ghost use Rattle.std.specs.Prelude.{◌≡◌, [], ◌∷◌, ◌++◌, IfOk, OnOk};
ghost use Rattle.text_lex.specs.declared.token.Token.TheVariants as token;
ghost use Rattle.conv_syntax.specs.Lines.{body_toks, cell_toks, error_toks, errors_toks, first_word, index_toks, rest_toks, service_toks, stack_toks};

use super::line::{ConvBody, ConvCell, ServiceLine, StackLine};
use super::words::{LineWord, word_bytes};
use line_reading::signs::{CLOSE_BRACKET, OPEN_BRACKET};
use line_reading::{put_name, put_number, put_sign};
use sqlite_items::Items;
use std::alloc::{AllocError, Global};
use text_lex::Token;

/// `[ NUMBER ]`, or nothing.
fn put_index(out: &mut Items<Token>, index: Option<u64>) -> Result<(), AllocError>
    ensures { OnOk result (out.new ≡ out.old ++ index_toks index) }
{
    let Some(index) = index else {
        return Ok(());
    };
    put_sign(out, OPEN_BRACKET)?;
    put_number(out, index)?;
    put_sign(out, CLOSE_BRACKET)
}

/// `NAME` or `NAME [ NUMBER ]`.
fn put_cell(alloc: Global, out: &mut Items<Token>, cell: &ConvCell) -> Result<(), AllocError>
    ensures { OnOk result (out.new ≡ out.old ++ cell_toks cell.now) }
{
    put_name(alloc, out, cell.name.as_slice())?;
    put_index(out, cell.index)
}

/// `CELL` or `negative`.
fn put_error(
    alloc: Global,
    out: &mut Items<Token>,
    cell: &Option<ConvCell>,
) -> Result<(), AllocError>
    ensures { OnOk result (out.new ≡ out.old ++ error_toks cell.now) }
{
    match cell {
        None => put_name(alloc, out, b"negative"),
        Some(cell) => put_cell(alloc, out, cell),
    }
}

/// `CELL BASE SIZE ROOM`.
fn put_stack(alloc: Global, out: &mut Items<Token>, line: &StackLine) -> Result<(), AllocError>
    ensures { OnOk result (out.new ≡ out.old ++ stack_toks line.now) }
{
    put_cell(alloc, out, &line.cell)?;
    put_number(out, line.base)?;
    put_number(out, line.size)?;
    put_number(out, line.room)
}

/// `BASE SIZE`.
fn put_heap(out: &mut Items<Token>, base: u64, size: u64) -> Result<(), AllocError>
    ensures { OnOk result (out.new ≡ out.old ++ token.Number base ∷ token.Number size ∷ []) }
{
    put_number(out, base)?;
    put_number(out, size)
}

/// `CELL args CELL CELL CELL result CELL error CELL`.
fn put_service(alloc: Global, out: &mut Items<Token>, line: &ServiceLine) -> Result<(), AllocError>
    ensures { OnOk result (out.new ≡ out.old ++ service_toks line.now) }
{
    put_cell(alloc, out, &line.number)?;
    put_name(alloc, out, b"args")?;
    put_cell(alloc, out, &line.arg_x)?;
    put_cell(alloc, out, &line.arg_y)?;
    put_cell(alloc, out, &line.arg_z)?;
    put_name(alloc, out, b"result")?;
    put_cell(alloc, out, &line.result)?;
    put_name(alloc, out, b"error")?;
    put_error(alloc, out, &line.error)
}

/// A word and a number.
fn put_numbered(
    alloc: Global,
    out: &mut Items<Token>,
    word: &[u8],
    number: u64,
) -> Result<(), AllocError>
    ensures { OnOk result (out.new ≡ out.old ++ token.Name word.now ∷ token.Number number ∷ []) }
{
    put_name(alloc, out, word)?;
    put_number(out, number)
}

/// `fault N descriptor N unknown N`.
fn put_errors(
    alloc: Global,
    out: &mut Items<Token>,
    fault: u64,
    descriptor: u64,
    unknown: u64,
) -> Result<(), AllocError>
    ensures { OnOk result (out.new ≡ out.old ++ errors_toks fault descriptor unknown) }
{
    put_numbered(alloc, out, b"fault", fault)?;
    put_numbered(alloc, out, b"descriptor", descriptor)?;
    put_numbered(alloc, out, b"unknown", unknown)
}

/// The word with which a line begins.
fn first_word(body: &ConvBody) -> LineWord
    ensures { result ≡ first_word body.now }
{
    match body {
        ConvBody::Elf(_) => LineWord::Elf,
        ConvBody::Stack(_) => LineWord::Stack,
        ConvBody::Heap { .. } => LineWord::Heap,
        ConvBody::Service(_) => LineWord::Service,
        ConvBody::Exit(_) => LineWord::Exit,
        ConvBody::Read(_) => LineWord::Read,
        ConvBody::Write(_) => LineWord::Write,
        ConvBody::Brk(_) => LineWord::Brk,
        ConvBody::Errors { .. } => LineWord::Errors,
        ConvBody::Link(_) => LineWord::Link,
        ConvBody::Call(_) => LineWord::Call,
        ConvBody::Return(_) => LineWord::Return,
        ConvBody::Entry(_) => LineWord::Entry,
        ConvBody::Whole(_) => LineWord::Whole,
        ConvBody::Pad(_) => LineWord::Pad,
        ConvBody::Args(_) => LineWord::Args,
    }
}

/// What stands behind the first word of a line.
fn put_rest(alloc: Global, out: &mut Items<Token>, body: &ConvBody) -> Result<(), AllocError>
    ensures { OnOk result (out.new ≡ out.old ++ rest_toks body.now) }
{
    match body {
        ConvBody::Elf(number)
        | ConvBody::Exit(number)
        | ConvBody::Read(number)
        | ConvBody::Write(number)
        | ConvBody::Brk(number)
        | ConvBody::Entry(number)
        | ConvBody::Whole(number)
        | ConvBody::Args(number) => put_number(out, *number),
        ConvBody::Stack(line) => put_stack(alloc, out, line),
        ConvBody::Heap { base, size } => put_heap(out, *base, *size),
        ConvBody::Service(line) => put_service(alloc, out, line),
        ConvBody::Errors {
            fault,
            descriptor,
            unknown,
        } => put_errors(alloc, out, *fault, *descriptor, *unknown),
        ConvBody::Link(cell) => put_cell(alloc, out, cell),
        ConvBody::Call(name) | ConvBody::Return(name) | ConvBody::Pad(name) => {
            put_name(alloc, out, name.as_slice())
        },
    }
}

/// The tokens that spell what a line says; a text of these tokens, of a line value, is read as it again.
pub fn spell(alloc: Global, body: &ConvBody) -> Result<Items<Token>, AllocError>
    ensures { IfOk result (λ tokens. tokens ≡ body_toks body.now) }
{
    let mut out = Items::new(alloc);
    put_name(alloc, &mut out, word_bytes(first_word(body)))?;
    put_rest(alloc, &mut out, body)?;
    Ok(out)
}
