//! Readers of blocks and their ends.
ghost use Rattle.std.specs.Prelude.{◌≡◌, suc, length};
ghost use Rattle.c_scan.specs.Readings.{Tells};
ghost use Rattle.c_read.specs.Blocks.{cases, default, finish, goto, read_behind_condition, read_block, read_branching, read_choice, read_ending, read_jump, read_return, read_block_part, read_block_parts, read_switch};

use super::expressions::expression;
use super::statements::{
    IFS, read_condition, read_number_and_value, read_outermost, read_statement,
};
use c_lang::{CBlock, CExpr, Case, End, Point, Stmt};
use c_scan::{Cursor, Stop};
use sqlite_items::Items;
use std::alloc::Global;

/// A part of a block's text.
#[derive(Debug, Drop)]
pub enum BlockPart {
    Inner(Stmt),
    Final(End),
}

/// `goto L;`
#[tactic(auto, using(crate::proofs::Exits::early_exits))]
fn read_jump_target(cursor: &mut Cursor<'_>) -> Result<Point, Stop>
    ensures { Tells result cursor.new (goto.read cursor.old) }
{
    cursor.word(b"goto")?;
    let to = cursor.label()?;
    cursor.sign(b";")?;
    Ok(to)
}

/// A block that ends with a jump.
#[tactic(auto, using(crate::proofs::Exits::early_exits), unfolding(crate::specs::Blocks::read_jump))]
fn read_jump(cursor: &mut Cursor<'_>) -> Result<End, Stop>
    ensures { Tells result cursor.new (read_jump cursor.old) }
{
    let to = read_jump_target(cursor)?;
    Ok(End::Goto(to))
}

/// Both jumps of `if (E) goto L; goto L;`.
#[tactic(auto, using(crate::proofs::Exits::early_exits), unfolding(crate::specs::Blocks::read_branching))]
fn read_branching(condition: CExpr, cursor: &mut Cursor<'_>) -> Result<End, Stop>
    ensures { Tells result cursor.new (read_branching condition cursor.old) }
{
    let to = read_jump_target(cursor)?;
    let or_to = read_jump_target(cursor)?;
    Ok(End::Branch(condition, to, or_to))
}

/// `return;`
#[tactic(auto, using(crate::proofs::Exits::early_exits), unfolding(crate::specs::Blocks::read_return))]
fn read_return(cursor: &mut Cursor<'_>) -> Result<End, Stop>
    ensures { Tells result cursor.new (read_return cursor.old) }
{
    cursor.word(b"return")?;
    cursor.sign(b";")?;
    Ok(End::Return)
}

/// `uq_end(N, E);` by its number and its expression.
#[tactic(auto, using(crate::proofs::Exits::early_exits))]
fn read_end_call(alloc: Global, cursor: &mut Cursor<'_>) -> Result<(u64, CExpr), Stop>
    ensures { Tells result cursor.new (finish.read cursor.old) }
{
    cursor.word(b"uq_end")?;
    read_number_and_value(alloc, cursor)
}

/// The same as an end.
#[tactic(auto, using(crate::proofs::Exits::early_exits), unfolding(crate::specs::Blocks::read_ending))]
fn read_ending(alloc: Global, cursor: &mut Cursor<'_>) -> Result<End, Stop>
    ensures { Tells result cursor.new (read_ending cursor.old) }
{
    let (number, value) = read_end_call(alloc, cursor)?;
    Ok(End::Finish(number, value))
}

/// `case Null: goto L;`
#[tactic(auto, using(crate::proofs::Exits::early_exits), unfolding(crate::specs::Blocks::read_choice))]
fn read_choice(cursor: &mut Cursor<'_>) -> Result<Case, Stop>
    ensures { Tells result cursor.new (read_choice cursor.old) }
{
    cursor.word(b"case")?;
    let value = cursor.long()?;
    cursor.sign(b":")?;
    let to = read_jump_target(cursor)?;
    Ok(Case { value, to })
}

/// A statement where `{` follows a condition, else the two jumps of an end.
#[tactic(auto, using(crate::proofs::Exits::early_exits), unfolding(crate::specs::Blocks::read_behind_condition))]
fn read_behind_condition(
    alloc: Global,
    condition: CExpr,
    cursor: &mut Cursor<'_>,
) -> Result<BlockPart, Stop>
    ensures { Tells result cursor.new (read_behind_condition condition cursor.old) }
{
    if cursor.at_sign(b"{") {
        let inner = read_outermost(alloc, cursor)?;
        return Ok(BlockPart::Inner(Stmt::If(condition, inner)));
    }
    let end = read_branching(condition, cursor)?;
    Ok(BlockPart::Final(end))
}

/// A part of a block's text.
#[tactic(auto, using(crate::proofs::Exits::early_exits), unfolding(crate::specs::Blocks::read_block_part))]
fn read_block_part(alloc: Global, cursor: &mut Cursor<'_>) -> Result<BlockPart, Stop>
    ensures { Tells result cursor.new (read_block_part cursor.old) }
{
    if cursor.at_word(b"goto") {
        let end = read_jump(cursor)?;
        return Ok(BlockPart::Final(end));
    }
    if cursor.at_word(b"switch") {
        let end = read_switch(alloc, cursor)?;
        return Ok(BlockPart::Final(end));
    }
    if cursor.at_word(b"return") {
        let end = read_return(cursor)?;
        return Ok(BlockPart::Final(end));
    }
    if cursor.at_word(b"uq_end") {
        let end = read_ending(alloc, cursor)?;
        return Ok(BlockPart::Final(end));
    }
    if cursor.at_word(b"if") {
        let condition = read_condition(alloc, cursor)?;
        return read_behind_condition(alloc, condition, cursor);
    }
    let stmt = read_statement(alloc, IFS, cursor)?;
    Ok(BlockPart::Inner(stmt))
}

/// `default: uq_end(N, E); }`
#[tactic(auto, using(crate::proofs::Exits::early_exits))]
fn read_otherwise(alloc: Global, cursor: &mut Cursor<'_>) -> Result<(u64, CExpr), Stop>
    ensures { Tells result cursor.new (default.read cursor.old) }
{
    cursor.word(b"default")?;
    cursor.sign(b":")?;
    let (number, value) = read_end_call(alloc, cursor)?;
    cursor.sign(b"}")?;
    Ok((number, value))
}

/// All cases of a switch, and its default with the closing brace.
#[tactic(auto, using(crate::proofs::Exits::early_exits))]
fn read_choices(alloc: Global, cursor: &mut Cursor<'_>) -> Result<(Items<Case>, (u64, CExpr)), Stop>
    ensures { Tells result cursor.new (cases.read cursor.old) }
{
    let mut cases = Items::new(alloc);
    'more: while cursor.at_word(b"case") {
        let case = read_choice(cursor)?;
        cases.push(case)?;
    }
    let default = read_otherwise(alloc, cursor)?;
    Ok((cases, default))
}

/// `switch (E) { case Null: goto L; .. default: uq_end(N, E); }`
#[tactic(auto, using(crate::proofs::Exits::early_exits), unfolding(crate::specs::Blocks::read_switch))]
fn read_switch(alloc: Global, cursor: &mut Cursor<'_>) -> Result<End, Stop>
    ensures { Tells result cursor.new (read_switch cursor.old) }
{
    cursor.word(b"switch")?;
    cursor.sign(b"(")?;
    let chosen = expression(alloc, cursor)?;
    cursor.sign(b")")?;
    cursor.sign(b"{")?;
    let (cases, (number, value)) = read_choices(alloc, cursor)?;
    Ok(End::Switch(chosen, cases, number, value))
}

/// All parts of a block behind its label.
#[tactic(auto, using(crate::proofs::Exits::early_exits, crate::proofs::LineLoops::part_loop))]
fn read_block_parts(alloc: Global, cursor: &mut Cursor<'_>) -> Result<(Items<Stmt>, End), Stop>
    ensures { Tells result cursor.new (read_block_parts (suc (length cursor.old)) cursor.old) }
{
    let mut stmts = Items::new(alloc);
    'more: loop {
        match read_block_part(alloc, cursor)? {
            BlockPart::Inner(stmt) => stmts.push(stmt)?,
            BlockPart::Final(end) => return Ok((stmts, end)),
        }
    }
}

/// A block: its label, its statements, and its end.
#[tactic(auto, using(crate::proofs::Exits::early_exits), unfolding(crate::specs::Blocks::read_block))]
pub fn read_block(alloc: Global, cursor: &mut Cursor<'_>) -> Result<CBlock, Stop>
    ensures { Tells result cursor.new (read_block cursor.old) }
{
    let label = cursor.label()?;
    cursor.sign(b":")?;
    cursor.sign(b";")?;
    let (stmts, end) = read_block_parts(alloc, cursor)?;
    Ok(CBlock { label, stmts, end })
}
