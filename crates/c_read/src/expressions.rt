//! Readers of expressions; each level of the tree takes one from the number of those that may still come.
ghost use Rattle.std.specs.Prelude.{◌≡◌};
ghost use Rattle.c_scan.specs.Readings.{Tells};
ghost use Rattle.c_read.specs.Expressions.{expr, read_behind_first, read_expr};

use c_lang::CExpr;
use c_scan::{Cursor, Stop};
use sqlite_items::Boxed;
use std::alloc::Global;

/// How many levels an expression may have: it stands inside at most 2,000 others.
const LEVELS: u32 = 2001;

/// An expression of at most so many levels.
#[cycle(reading)]
#[tactic(auto, using(crate::proofs::Exits::early_exits, crate::proofs::ExprLevels::expr_levels), unfolding(crate::specs::Expressions::read_by_first))]
fn read_expr(alloc: Global, levels: u32, cursor: &mut Cursor<'_>) -> Result<CExpr, Stop>
    ensures { Tells result cursor.new (read_expr levels cursor.old) }
{
    if levels == 0 {
        return Err(Stop::Malformed);
    }
    if cursor.at_sign(b"(") {
        cursor.sign(b"(")?;
        let first = read_expr(alloc, levels - 1, cursor)?;
        return read_behind_first(alloc, levels - 1, first, cursor);
    }
    if cursor.at_name() {
        let variable = cursor.variable()?;
        return Ok(CExpr::Of(variable));
    }
    let value = cursor.long()?;
    Ok(CExpr::Num(value))
}

/// The rest of an expression in parentheses, by its first part.
#[cycle(reading)]
#[tactic(auto, using(crate::proofs::Exits::early_exits), unfolding(crate::specs::Expressions::read_behind_first))]
fn read_behind_first(
    alloc: Global,
    inside: u32,
    first: CExpr,
    cursor: &mut Cursor<'_>,
) -> Result<CExpr, Stop>
    ensures { Tells result cursor.new (read_behind_first (read_expr inside) first cursor.old) }
{
    let first = Boxed::new(alloc, first)?;
    if cursor.at_sign(b"?") {
        cursor.sign(b"?")?;
        let second = read_in_box(alloc, inside, cursor)?;
        cursor.sign(b":")?;
        let third = read_in_box(alloc, inside, cursor)?;
        cursor.sign(b")")?;
        return Ok(CExpr::Choose(first, second, third));
    }
    let operator = cursor.operator()?;
    let second = read_in_box(alloc, inside, cursor)?;
    cursor.sign(b")")?;
    Ok(CExpr::Bin(operator, first, second))
}

/// A part of an expression.
#[cycle(reading)]
fn read_in_box(alloc: Global, inside: u32, cursor: &mut Cursor<'_>) -> Result<Boxed<CExpr>, Stop>
    ensures { Tells result cursor.new (read_expr inside cursor.old) }
{
    let expr = read_expr(alloc, inside, cursor)?;
    Ok(Boxed::new(alloc, expr)?)
}

/// An expression that stands inside at most 2,000 others.
pub fn expression(alloc: Global, cursor: &mut Cursor<'_>) -> Result<CExpr, Stop>
    ensures { Tells result cursor.new (expr.read cursor.old) }
{
    read_expr(alloc, LEVELS, cursor)
}
