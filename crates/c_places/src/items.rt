//! Statements as items, from the last to the first: each knows the place behind it, an `if` the place where its body begins, and a
//! call the function that it calls.
ghost use Rattle.std.specs.Prelude.{◌≡◌, ◌≤◌, ◌++◌, ◌∷◌, [], length, List, IfOk, IfSome, IfNone};
ghost use Rattle.c_lang.specs.declared.tree.Function.{Function};
ghost use Rattle.c_lang.specs.Step.{function_from};
ghost use Rattle.c_places.specs.Rest.{rest_at, found, AllPlaced, Grown, Bodied, IsCallee, IsItem};

use c_lang::{Function, Stmt};
use sqlite_items::Items;
use std::alloc::AllocError;

/// A statement, the place behind it, the place where its body begins, and the number of the function that it calls. The place 0 is the
/// end of a block, and the place `k + 1` is the item `k`.
#[derive(Clone, Copy)]
pub struct Item<'a> {
    pub stmt: &'a Stmt,
    pub next: usize,
    pub body: usize,
    pub callee: usize,
}

/// Adds the items of statements in front of the place `next`, and answers the place where they begin.
#[cycle(placing)]
pub fn add<'a>(
    items: &mut Items<Item<'a>>,
    functions: &[Function],
    stmts: &'a [Stmt],
    next: usize,
) -> Result<usize, AllocError>
    requires { next ≤ length items.old }
    ensures { IfOk result (λ at. Grown functions.now items.old items.new at (stmts.now ++ rest_at items.old next)) }
{
    let mut at = next;
    let count = stmts.len();
    for i in 0..count {
        let stmt = &stmts[count - 1 - i];
        at = add_one(items, functions, stmt, at)?;
    }
    Ok(at)
}

/// Adds the item of a statement, and those of its body.
#[cycle(placing)]
fn add_one<'a>(
    items: &mut Items<Item<'a>>,
    functions: &[Function],
    stmt: &'a Stmt,
    next: usize,
) -> Result<usize, AllocError>
    requires { next ≤ length items.old }
    ensures { IfOk result (λ at. Grown functions.now items.old items.new at (stmt.now ∷ rest_at items.old next)) }
{
    let callee = callee_of(functions, stmt);
    let body = add_body(items, functions, stmt, next)?;
    items.push(Item {
        stmt,
        next,
        body,
        callee,
    })?;
    Ok(items.len())
}

/// Adds the items of the body of an `if`, and answers where it begins; of another statement it adds none.
#[cycle(placing)]
fn add_body<'a>(
    items: &mut Items<Item<'a>>,
    functions: &[Function],
    stmt: &'a Stmt,
    next: usize,
) -> Result<usize, AllocError>
    requires { next ≤ length items.old }
    ensures { IfOk result (λ at. Bodied functions.now items.old items.new at stmt.now next) }
{
    match stmt {
        Stmt::If(_, body) => add(items, functions, body.as_slice(), next),
        _ => Ok(next),
    }
}

/// The number of the function that a statement calls; it is that of no function where none has the address.
fn callee_of(functions: &[Function], stmt: &Stmt) -> usize
    ensures { IsCallee functions.now stmt.now result }
{
    match stmt {
        Stmt::Call(entry, _) => function_of(functions, *entry),
        _ => 0,
    }
}

/// The number of the first function of an address; it is that of no function where none has it.
fn function_of(functions: &[Function], entry: u32) -> usize
    ensures { found functions.now result ≡ function_from 0 functions.now entry }
{
    for (i, f) in functions.iter().enumerate() {
        if f.entry == entry {
            return i;
        }
    }
    functions.len()
}

/// The item at a place; none where no statement is left, as at the place 0.
#[inline(always)]
pub fn item_at<'a>(items: &[Item<'a>], place: usize) -> Option<Item<'a>>
    ensures none { IfNone result (rest_at items.now place ≡ []) }
    ensures some { IfSome result (λ x. (fs : List Function) → AllPlaced fs items.now → IsItem fs items.now place x) }
{
    if place == 0 {
        return None;
    }
    if place > items.len() {
        return None;
    }
    Some(items[place - 1])
}
