//! Readers of expressions. Each level of the tree takes one from the number of levels that may still come.
ghost use Rattle.std.specs.Prelude.{◌≡◌};
ghost use Rattle.line_reading.specs.Signs.{comma};
ghost use Rattle.ssl_syntax.specs.Words.{word_of};
ghost use Rattle.line_reading.specs.Readings.{Told, items, whole_line};
ghost use Rattle.ssl_syntax.specs.ExprReaders.{operator, part_of, read_before, read_behind, read_binary, read_choice, read_constant, read_expr, read_named, read_range, read_signed, read_width};

use super::index::{Index, read_index};
use super::line::SslExpr;
use super::operators::is_binary;
use super::words::{Word, word_of};
use line_reading::signs::{
    CLOSE_BRACKET, CLOSE_PAREN, COLON, COMMA, MINUS, NEXT, OPEN_BRACKET, OPEN_PAREN, PC, TILDE,
};
use line_reading::{Cursor, Stop};
use sqlite_items::{Boxed, Items};
use std::alloc::Global;
use text_lex::Token;

/// Goes past a binary operator.
fn read_operator(cursor: &mut Cursor<'_>) -> Result<u8, Stop>
    ensures { Told result cursor.new.rest.now (operator cursor.old.rest.now) }
{
    match cursor.rest.split_first() {
        Some((Token::Sign(found), rest)) if is_binary(*found) => {
            cursor.rest = rest;
            Ok(*found)
        },
        _ => Err(Stop::Malformed),
    }
}

/// `: W` behind a number.
#[tactic(auto, using(line_reading::proofs::Stops::stop_laws), unfolding(crate::specs::ExprReaders::read_constant))]
fn read_constant(value: u64, cursor: &mut Cursor<'_>) -> Result<SslExpr, Stop>
    ensures { Told result cursor.new.rest.now (read_constant value cursor.old.rest.now) }
{
    cursor.sign(COLON)?;
    let width = cursor.number()?;
    Ok(SslExpr::Number(value, width))
}

/// `, LO , HI )` behind an expression.
#[tactic(auto, using(line_reading::proofs::Stops::stop_laws), unfolding(crate::specs::ExprReaders::read_range))]
fn read_range(alloc: Global, expr: SslExpr, cursor: &mut Cursor<'_>) -> Result<SslExpr, Stop>
    ensures { Told result cursor.new.rest.now (read_range expr cursor.old.rest.now) }
{
    cursor.sign(COMMA)?;
    let lo = cursor.number()?;
    cursor.sign(COMMA)?;
    let hi = cursor.number()?;
    cursor.sign(CLOSE_PAREN)?;
    Ok(SslExpr::Bits(Boxed::new(alloc, expr)?, lo, hi))
}

/// `( W ,`.
#[tactic(auto, using(line_reading::proofs::Stops::stop_laws), unfolding(crate::specs::ExprReaders::read_width))]
fn read_width(cursor: &mut Cursor<'_>) -> Result<u64, Stop>
    ensures { Told result cursor.new.rest.now (read_width cursor.old.rest.now) }
{
    cursor.sign(OPEN_PAREN)?;
    let width = cursor.number()?;
    cursor.sign(COMMA)?;
    Ok(width)
}

/// An expression by itself and nothing behind it: its parts stand inside at most 2,000 others.
#[tactic(auto, using(line_reading::proofs::Stops::stop_laws), unfolding(line_reading::specs::Readings::whole_line))]
pub fn read_only(alloc: Global, cursor: &mut Cursor<'_>) -> Result<SslExpr, Stop>
    ensures { Told result cursor.new.rest.now (whole_line (read_expr 2001) cursor.old.rest.now) }
{
    let expr = read_expr(alloc, 2001, cursor)?;
    cursor.end()?;
    Ok(expr)
}

/// The part of a file that a name and an index give.
fn part_of(name: Items<u8>, index: Index) -> SslExpr
    ensures { result ≡ part_of name index }
{
    match index {
        Index::Number(value) => SslExpr::At(name, value),
        Index::Op(op) => SslExpr::AtOp(name, op),
    }
}

/// An expression that nests less than `levels` deep.
#[cycle(reading)]
#[tactic(auto, using(line_reading::proofs::Stops::stop_laws, crate::proofs::ExprReads::expr_laws), unfolding(crate::specs::ExprReaders::read_form))]
pub fn read_expr(alloc: Global, levels: u32, cursor: &mut Cursor<'_>) -> Result<SslExpr, Stop>
    ensures { Told result cursor.new.rest.now (read_expr levels cursor.old.rest.now) }
{
    if levels == 0 {
        return Err(Stop::Malformed);
    }
    match cursor.rest.split_first() {
        Some((Token::Number(value), rest)) => {
            cursor.rest = rest;
            read_constant(*value, cursor)
        },
        Some((Token::Name(letters), rest)) => {
            cursor.rest = rest;
            read_named(alloc, levels - 1, letters.as_slice(), cursor)
        },
        Some((Token::Sign(index), rest)) => {
            cursor.rest = rest;
            read_signed(alloc, levels - 1, *index, cursor)
        },
        _ => Err(Stop::Malformed),
    }
}

/// What stands behind a name.
#[cycle(reading)]
#[tactic(auto, using(line_reading::proofs::Stops::stop_laws), unfolding(crate::specs::ExprReaders::read_named, crate::specs::ExprReaders::read_load, crate::specs::ExprReaders::read_bits, crate::specs::ExprReaders::read_extension))]
fn read_named(
    alloc: Global,
    inside: u32,
    name: &[u8],
    cursor: &mut Cursor<'_>,
) -> Result<SslExpr, Stop>
    ensures { Told result cursor.new.rest.now (read_named (read_expr inside) name.now (word_of name.now) cursor.old.rest.now) }
{
    match word_of(name) {
        Word::Load(bits) => {
            cursor.sign(OPEN_BRACKET)?;
            let address = read_before(alloc, inside, CLOSE_BRACKET, cursor)?;
            Ok(SslExpr::Load(bits, address))
        },
        Word::Bits => {
            cursor.sign(OPEN_PAREN)?;
            let expr = read_expr(alloc, inside, cursor)?;
            read_range(alloc, expr, cursor)
        },
        Word::Zext => {
            let width = read_width(cursor)?;
            let expr = read_before(alloc, inside, CLOSE_PAREN, cursor)?;
            Ok(SslExpr::Zext(width, expr))
        },
        Word::Sext => {
            let width = read_width(cursor)?;
            let expr = read_before(alloc, inside, CLOSE_PAREN, cursor)?;
            Ok(SslExpr::Sext(width, expr))
        },
        Word::If => read_choice(alloc, inside, cursor),
        Word::Plain => read_behind(alloc, inside, name, cursor),
        _ => Err(Stop::Malformed),
    }
}

/// What stands behind a sign.
#[cycle(reading)]
#[tactic(auto, using(line_reading::proofs::Stops::stop_laws), unfolding(crate::specs::ExprReaders::read_signed))]
fn read_signed(
    alloc: Global,
    inside: u32,
    index: u8,
    cursor: &mut Cursor<'_>,
) -> Result<SslExpr, Stop>
    ensures { Told result cursor.new.rest.now (read_signed (read_expr inside) index cursor.old.rest.now) }
{
    if index == TILDE {
        let expr = read_boxed(alloc, inside, cursor)?;
        return Ok(SslExpr::Not(expr));
    }
    if index == MINUS {
        let expr = read_boxed(alloc, inside, cursor)?;
        return Ok(SslExpr::Neg(expr));
    }
    if index == OPEN_PAREN {
        return read_binary(alloc, inside, cursor);
    }
    if index == PC {
        return Ok(SslExpr::Pc);
    }
    if index == NEXT {
        return Ok(SslExpr::Next);
    }
    Err(Stop::Malformed)
}

/// An expression in a box.
#[cycle(reading)]
fn read_boxed(alloc: Global, inside: u32, cursor: &mut Cursor<'_>) -> Result<Boxed<SslExpr>, Stop>
    ensures { Told result cursor.new.rest.now (read_expr inside cursor.old.rest.now) }
{
    let expr = read_expr(alloc, inside, cursor)?;
    Ok(Boxed::new(alloc, expr)?)
}

/// An expression in a box, and this sign behind it.
#[cycle(reading)]
#[tactic(auto, using(line_reading::proofs::Stops::stop_laws), unfolding(crate::specs::ExprReaders::read_before))]
fn read_before(
    alloc: Global,
    inside: u32,
    index: u8,
    cursor: &mut Cursor<'_>,
) -> Result<Boxed<SslExpr>, Stop>
    ensures { Told result cursor.new.rest.now (read_before (read_expr inside) index cursor.old.rest.now) }
{
    let expr = read_boxed(alloc, inside, cursor)?;
    cursor.sign(index)?;
    Ok(expr)
}

/// `( E , E , E )` behind `if`.
#[cycle(reading)]
#[tactic(auto, using(line_reading::proofs::Stops::stop_laws), unfolding(crate::specs::ExprReaders::read_choice))]
fn read_choice(alloc: Global, inside: u32, cursor: &mut Cursor<'_>) -> Result<SslExpr, Stop>
    ensures { Told result cursor.new.rest.now (read_choice (read_expr inside) cursor.old.rest.now) }
{
    cursor.sign(OPEN_PAREN)?;
    let test = read_before(alloc, inside, COMMA, cursor)?;
    let first = read_before(alloc, inside, COMMA, cursor)?;
    let second = read_before(alloc, inside, CLOSE_PAREN, cursor)?;
    Ok(SslExpr::If(test, first, second))
}

/// `E BIN E )` behind `(`.
#[cycle(reading)]
#[tactic(auto, using(line_reading::proofs::Stops::stop_laws), unfolding(crate::specs::ExprReaders::read_binary))]
fn read_binary(alloc: Global, inside: u32, cursor: &mut Cursor<'_>) -> Result<SslExpr, Stop>
    ensures { Told result cursor.new.rest.now (read_binary (read_expr inside) cursor.old.rest.now) }
{
    let left = read_boxed(alloc, inside, cursor)?;
    let op = read_operator(cursor)?;
    let right = read_before(alloc, inside, CLOSE_PAREN, cursor)?;
    Ok(SslExpr::Bin(op, left, right))
}

/// `[ NUMBER ]`, `[ OP ]`, `( ARGS? )` or nothing behind a name.
#[cycle(reading)]
#[tactic(auto, using(line_reading::proofs::Stops::stop_laws), unfolding(crate::specs::ExprReaders::read_behind, line_reading::specs::Readings::in_parens))]
fn read_behind(
    alloc: Global,
    inside: u32,
    name: &[u8],
    cursor: &mut Cursor<'_>,
) -> Result<SslExpr, Stop>
    ensures { Told result cursor.new.rest.now (read_behind (read_expr inside) name.now cursor.old.rest.now) }
{
    let name = Items::from_slice(alloc, name)?;
    if cursor.take_sign(OPEN_BRACKET) {
        let index = read_index(alloc, cursor)?;
        return Ok(part_of(name, index));
    }
    if cursor.take_sign(OPEN_PAREN) {
        if cursor.take_sign(CLOSE_PAREN) {
            return Ok(SslExpr::Call(name, Items::new(alloc)));
        }
        let args = read_several(alloc, inside, cursor)?;
        cursor.sign(CLOSE_PAREN)?;
        return Ok(SslExpr::Call(name, args));
    }
    Ok(SslExpr::Named(name))
}

/// `E {, E}`.
#[cycle(reading)]
#[tactic(auto, using(crate::proofs::ExprLoops::loop_laws))]
fn read_several(alloc: Global, inside: u32, cursor: &mut Cursor<'_>) -> Result<Items<SslExpr>, Stop>
    ensures { Told result cursor.new.rest.now (items comma (read_expr inside) cursor.old.rest.now) }
{
    let mut args = Items::new(alloc);
    let first = read_expr(alloc, inside, cursor)?;
    args.push(first)?;
    'more: while cursor.take_sign(COMMA) {
        let next = read_expr(alloc, inside, cursor)?;
        args.push(next)?;
    }
    Ok(args)
}
