//! Readers of statements; each `if` takes one from the number of levels that may still come.
ghost use Rattle.std.specs.Prelude.{◌≡◌};
ghost use Rattle.c_scan.specs.Readings.{Tells};
ghost use Rattle.c_read.specs.Combined.{before, comma_list, comma_rest};
ghost use Rattle.c_read.specs.Expressions.{expr};
ghost use Rattle.c_text.specs.Tokens.{mark};
ghost use Rattle.c_read.specs.Statements.{closing, number_and_value, in_braces, condition, stmts_within, read_called, read_by_first, read_guarded, read_loaded, read_word_put, read_service, read_assigned, read_statement, read_stopped, read_stored, read_right_side, read_word_taken};

use super::expressions::expression;
use c_lang::{CExpr, Stmt, Var};
use c_scan::{Cursor, Stop};
use sqlite_items::Items;
use std::alloc::Global;

/// How many levels a statement may have: it stands inside at most 200 `if`s.
pub const IFS: u32 = 201;

/// `E );`
#[tactic(auto, using(crate::proofs::Exits::early_exits))]
fn read_closing(alloc: Global, cursor: &mut Cursor<'_>) -> Result<CExpr, Stop>
    ensures { Tells result cursor.new (closing.read cursor.old) }
{
    let value = expression(alloc, cursor)?;
    cursor.sign(b")")?;
    cursor.sign(b";")?;
    Ok(value)
}

/// `(N, E);`
#[tactic(auto, using(crate::proofs::Exits::early_exits))]
pub fn read_number_and_value(alloc: Global, cursor: &mut Cursor<'_>) -> Result<(u64, CExpr), Stop>
    ensures { Tells result cursor.new (number_and_value.read cursor.old) }
{
    cursor.sign(b"(")?;
    let number = cursor.plain()?;
    cursor.sign(b",")?;
    let value = read_closing(alloc, cursor)?;
    Ok((number, value))
}

/// `V = E;` behind its `=`.
#[tactic(auto, using(crate::proofs::Exits::early_exits), unfolding(crate::specs::Statements::read_assigned))]
fn read_assigned(alloc: Global, variable: Var, cursor: &mut Cursor<'_>) -> Result<Stmt, Stop>
    ensures { Tells result cursor.new (read_assigned variable cursor.old) }
{
    let value = expression(alloc, cursor)?;
    cursor.sign(b";")?;
    Ok(Stmt::Set(variable, value))
}

/// `V = uq_load(N, E);` behind its `=`.
#[tactic(auto, using(crate::proofs::Exits::early_exits), unfolding(crate::specs::Statements::read_loaded))]
fn read_loaded(alloc: Global, variable: Var, cursor: &mut Cursor<'_>) -> Result<Stmt, Stop>
    ensures { Tells result cursor.new (read_loaded variable cursor.old) }
{
    cursor.word(b"uq_load")?;
    let (size, address) = read_number_and_value(alloc, cursor)?;
    Ok(Stmt::Load(variable, size, address))
}

/// `V = uq_w[E];` behind its `=`.
#[tactic(auto, using(crate::proofs::Exits::early_exits), unfolding(crate::specs::Statements::read_word_taken))]
fn read_word_taken(alloc: Global, variable: Var, cursor: &mut Cursor<'_>) -> Result<Stmt, Stop>
    ensures { Tells result cursor.new (read_word_taken variable cursor.old) }
{
    cursor.word(b"uq_w")?;
    cursor.sign(b"[")?;
    let place = expression(alloc, cursor)?;
    cursor.sign(b"]")?;
    cursor.sign(b";")?;
    Ok(Stmt::TakeW(variable, place))
}

/// `uq_store(N, E, E);`
#[tactic(auto, using(crate::proofs::Exits::early_exits), unfolding(crate::specs::Statements::read_stored))]
fn read_stored(alloc: Global, cursor: &mut Cursor<'_>) -> Result<Stmt, Stop>
    ensures { Tells result cursor.new (read_stored cursor.old) }
{
    cursor.word(b"uq_store")?;
    cursor.sign(b"(")?;
    let size = cursor.plain()?;
    cursor.sign(b",")?;
    let address = expression(alloc, cursor)?;
    cursor.sign(b",")?;
    let value = read_closing(alloc, cursor)?;
    Ok(Stmt::Store(size, address, value))
}

/// `uq_w[E] = E;`
#[tactic(auto, using(crate::proofs::Exits::early_exits), unfolding(crate::specs::Statements::read_word_put))]
fn read_word_put(alloc: Global, cursor: &mut Cursor<'_>) -> Result<Stmt, Stop>
    ensures { Tells result cursor.new (read_word_put cursor.old) }
{
    cursor.word(b"uq_w")?;
    cursor.sign(b"[")?;
    let place = expression(alloc, cursor)?;
    cursor.sign(b"]")?;
    cursor.sign(b"=")?;
    let value = expression(alloc, cursor)?;
    cursor.sign(b";")?;
    Ok(Stmt::PutW(place, value))
}

/// `uq_serve(E, E, E, E);`
#[tactic(auto, using(crate::proofs::Exits::early_exits), unfolding(crate::specs::Statements::read_service))]
fn read_service(alloc: Global, cursor: &mut Cursor<'_>) -> Result<Stmt, Stop>
    ensures { Tells result cursor.new (read_service cursor.old) }
{
    cursor.word(b"uq_serve")?;
    cursor.sign(b"(")?;
    let number = expression(alloc, cursor)?;
    cursor.sign(b",")?;
    let first = expression(alloc, cursor)?;
    cursor.sign(b",")?;
    let second = expression(alloc, cursor)?;
    cursor.sign(b",")?;
    let third = read_closing(alloc, cursor)?;
    Ok(Stmt::Serve(number, first, second, third))
}

/// `uq_stop(N, E);`
#[tactic(auto, using(crate::proofs::Exits::early_exits), unfolding(crate::specs::Statements::read_stopped))]
fn read_stopped(alloc: Global, cursor: &mut Cursor<'_>) -> Result<Stmt, Stop>
    ensures { Tells result cursor.new (read_stopped cursor.old) }
{
    cursor.word(b"uq_stop")?;
    let (number, value) = read_number_and_value(alloc, cursor)?;
    Ok(Stmt::Stop(number, value))
}

/// One argument more.
#[tactic(auto, using(crate::proofs::Exits::early_exits))]
fn read_next_argument(alloc: Global, cursor: &mut Cursor<'_>) -> Result<CExpr, Stop>
    ensures { Tells result cursor.new ((before (mark ",") expr).read cursor.old) }
{
    cursor.sign(b",")?;
    expression(alloc, cursor)
}

/// The arguments behind the first one, and `)`.
#[tactic(auto, using(crate::proofs::Exits::early_exits))]
fn read_more_arguments(alloc: Global, cursor: &mut Cursor<'_>) -> Result<Items<CExpr>, Stop>
    ensures { Tells result cursor.new ((comma_rest expr (mark ")")).read cursor.old) }
{
    let mut arguments = Items::new(alloc);
    'more: while cursor.at_sign(b",") {
        let next = read_next_argument(alloc, cursor)?;
        arguments.push(next)?;
    }
    cursor.sign(b")")?;
    Ok(arguments)
}

/// All arguments of a call, and `)`.
#[tactic(auto, using(crate::proofs::Exits::early_exits))]
fn read_arguments(alloc: Global, cursor: &mut Cursor<'_>) -> Result<Items<CExpr>, Stop>
    ensures { Tells result cursor.new ((comma_list (mark ")") expr).read cursor.old) }
{
    if cursor.at_sign(b")") {
        cursor.sign(b")")?;
        return Ok(Items::new(alloc));
    }
    let first = expression(alloc, cursor)?;
    let others = read_more_arguments(alloc, cursor)?;
    let mut arguments = Items::new(alloc);
    arguments.push(first)?;
    arguments.append(others)?;
    Ok(arguments)
}

/// `f_X(E, ..);`
#[tactic(auto, using(crate::proofs::Exits::early_exits), unfolding(crate::specs::Statements::read_called))]
fn read_called(alloc: Global, cursor: &mut Cursor<'_>) -> Result<Stmt, Stop>
    ensures { Tells result cursor.new (read_called cursor.old) }
{
    let entry = cursor.function()?;
    cursor.sign(b"(")?;
    let arguments = read_arguments(alloc, cursor)?;
    cursor.sign(b";")?;
    Ok(Stmt::Call(entry, arguments))
}

/// An assignment, by what follows `V =`.
#[tactic(auto, unfolding(crate::specs::Statements::read_right_side))]
fn read_right_side(alloc: Global, variable: Var, cursor: &mut Cursor<'_>) -> Result<Stmt, Stop>
    ensures { Tells result cursor.new (read_right_side variable cursor.old) }
{
    if cursor.at_word(b"uq_load") {
        return read_loaded(alloc, variable, cursor);
    }
    if cursor.at_word(b"uq_w") {
        return read_word_taken(alloc, variable, cursor);
    }
    read_assigned(alloc, variable, cursor)
}

/// A statement of at most so many levels.
#[cycle(nesting)]
#[tactic(auto, using(crate::proofs::Exits::early_exits, crate::proofs::StmtLevels::stmt_levels), unfolding(crate::specs::Statements::read_by_first))]
pub fn read_statement(alloc: Global, levels: u32, cursor: &mut Cursor<'_>) -> Result<Stmt, Stop>
    ensures { Tells result cursor.new (read_statement levels cursor.old) }
{
    if levels == 0 {
        return Err(Stop::Malformed);
    }
    if cursor.at_word(b"uq_store") {
        return read_stored(alloc, cursor);
    }
    if cursor.at_word(b"uq_w") {
        return read_word_put(alloc, cursor);
    }
    if cursor.at_word(b"uq_serve") {
        return read_service(alloc, cursor);
    }
    if cursor.at_word(b"uq_stop") {
        return read_stopped(alloc, cursor);
    }
    if cursor.at_word(b"if") {
        return read_guarded(alloc, levels - 1, cursor);
    }
    if cursor.at_function() {
        return read_called(alloc, cursor);
    }
    let variable = cursor.variable()?;
    cursor.sign(b"=")?;
    read_right_side(alloc, variable, cursor)
}

/// An `if` with its body.
#[cycle(nesting)]
#[tactic(auto, using(crate::proofs::Exits::early_exits), unfolding(crate::specs::Statements::read_guarded))]
fn read_guarded(alloc: Global, inside: u32, cursor: &mut Cursor<'_>) -> Result<Stmt, Stop>
    ensures { Tells result cursor.new (read_guarded (read_statement inside) cursor.old) }
{
    let condition = read_condition(alloc, cursor)?;
    let inner = read_in_braces(alloc, inside, cursor)?;
    Ok(Stmt::If(condition, inner))
}

/// A body in braces.
#[cycle(nesting)]
#[tactic(auto, using(crate::proofs::Exits::early_exits))]
fn read_in_braces(alloc: Global, inside: u32, cursor: &mut Cursor<'_>) -> Result<Items<Stmt>, Stop>
    ensures { Tells result cursor.new ((in_braces (read_statement inside)).read cursor.old) }
{
    cursor.sign(b"{")?;
    read_stmts_within(alloc, inside, cursor)
}

/// The statements of a body, and `}`.
#[cycle(nesting)]
#[tactic(auto, using(crate::proofs::Exits::early_exits))]
fn read_stmts_within(
    alloc: Global,
    inside: u32,
    cursor: &mut Cursor<'_>,
) -> Result<Items<Stmt>, Stop>
    ensures { Tells result cursor.new ((stmts_within (read_statement inside)).read cursor.old) }
{
    let mut stmts = Items::new(alloc);
    'more: while !cursor.at_sign(b"}") {
        let stmt = read_statement(alloc, inside, cursor)?;
        stmts.push(stmt)?;
    }
    cursor.sign(b"}")?;
    Ok(stmts)
}

/// `{ statements }` behind the condition of an `if` that stands inside none.
pub fn read_outermost(alloc: Global, cursor: &mut Cursor<'_>) -> Result<Items<Stmt>, Stop>
    ensures { Tells result cursor.new ((in_braces (read_statement 200)).read cursor.old) }
{
    read_in_braces(alloc, IFS - 1, cursor)
}

/// A condition: `if (E)`.
#[tactic(auto, using(crate::proofs::Exits::early_exits))]
pub fn read_condition(alloc: Global, cursor: &mut Cursor<'_>) -> Result<CExpr, Stop>
    ensures { Tells result cursor.new (condition.read cursor.old) }
{
    cursor.word(b"if")?;
    cursor.sign(b"(")?;
    let condition = expression(alloc, cursor)?;
    cursor.sign(b")")?;
    Ok(condition)
}
