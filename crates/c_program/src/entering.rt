//! The statements that enter a procedure: the one that is given, or any that a computed target names.
ghost use Rattle.std.specs.Prelude.{◌≡◌, ℕ, ◌+◌, ◌*◌, ◌^◌, ◌<◌, ◌≤◌, ◌++◌, List, [], ◌∷◌, length, IfOk, OnOk};
ghost use Rattle.std.specs.List.{All};
ghost use Rattle.c_lang.specs.declared.tree.Stmt.{Stmt};
ghost use Rattle.c_control.specs.Choice.{choose_c, is_low, is_high};
ghost use Rattle.c_control.specs.Plans.{pad_by};
ghost use Rattle.c_control.specs.Pieces.{leaf_c};
ghost use Rattle.c_program.specs.Entered.{entered_c, given_c, passed_c, IsEntered};
ghost use Rattle.c_program.specs.Shown.{entries_of};
ghost use Rattle.c_program.specs.Trees.{tree_by};

use crate::expressions::{NEAR, arguments, binary, with_number};
use crate::pieces::{
    UNDISCOVERED, push_deeper, push_give_without, push_shallower, push_stop_if, push_take,
};
use c_lang::{CExpr, COp, Stmt, Var};
use points::Summary;
use sqlite_items::Items;
use std::alloc::{AllocError, Global};

/// How many conditions stand inside one another at most: they tell 131,072 procedures apart.
pub(crate) const MOST_LEVELS: u8 = 17;

/// How a procedure is entered.
#[derive(Clone, Copy)]
pub(crate) enum Manner<'a> {
    /// By a call, which passes this number in `ra`.
    Call(u64),
    /// By a jump from a procedure that hands these cells back.
    Jump(&'a [u8]),
}

/// The bytes from a return address to its second return point, 0 without one.
fn bytes_between(back: u32, far: Option<u32>) -> u32
    ensures { result ≡ pad_by back far }
{
    match far {
        None => 0,
        Some(far) => far.wrapping_sub(back),
    }
}

/// A return address as a call passes it in `ra`: with the bytes to its second return point.
pub(crate) fn return_address(back: u32, far: Option<u32>) -> u64
    requires { pad_by back far < 2 ^ 31 }
    ensures { result ≡ back + 2 ^ 33 * pad_by back far }
{
    u64::from(back) + NEAR * u64::from(bytes_between(back, far))
}

/// Pushes that a procedure is entered.
pub(crate) fn push_entered(
    alloc: Global,
    out: &mut Items<Stmt>,
    manner: Manner,
    callee: &Summary,
) -> Result<(), AllocError>
    ensures { OnOk result (out.new ≡ out.old ++ entered_c manner.entry callee.now []) }
{
    push_deeper(alloc, out)?;
    let passed = arguments(alloc, passed_address(manner), callee.refs.as_slice())?;
    out.push(Stmt::Call(callee.entry, passed))?;
    push_shallower(alloc, out)?;
    push_given(out, manner, callee.mods.as_slice())
}

/// What `ra` is for the procedure that is entered.
fn passed_address(manner: Manner) -> CExpr
    ensures { result ≡ passed_c manner.entry }
{
    match manner {
        Manner::Call(ra) => CExpr::Num(ra),
        Manner::Jump(_) => CExpr::Of(Var::Ra),
    }
}

/// Pushes what is done with the cells that a procedure handed back: a call takes them, a jump hands back the others.
fn push_given(out: &mut Items<Stmt>, manner: Manner, cells: &[u8]) -> Result<(), AllocError>
    ensures { OnOk result (out.new ≡ out.old ++ given_c manner.entry cells.now []) }
{
    match manner {
        Manner::Call(_) => push_take(out, cells),
        Manner::Jump(mods) => push_give_without(out, mods, cells),
    }
}

/// Pushes that a procedure is entered, where the target is its entry; any other target stops.
fn push_leaf(
    alloc: Global,
    out: &mut Items<Stmt>,
    manner: Manner,
    callee: &Summary,
) -> Result<(), AllocError>
    ensures { (code : ℕ → List Stmt → List Stmt) → IsEntered code manner.entry callee.now → OnOk result (out.new ≡ out.old ++ leaf_c code callee.now.entry []) }
{
    let other = with_number(alloc, COp::Ne, Var::Pt, u64::from(callee.entry))?;
    push_stop_if(alloc, out, other, UNDISCOVERED, CExpr::Of(Var::Pt))?;
    push_entered(alloc, out, manner, callee)
}

/// Pushes the choice among some procedures by the target, with at most so many conditions in one another.
pub(crate) fn push_choice(
    alloc: Global,
    out: &mut Items<Stmt>,
    manner: Manner,
    procedures: &[Summary],
    levels: u8,
) -> Result<(), AllocError>
    requires { 1 ≤ length procedures.now }
    ensures { (code : ℕ → List Stmt → List Stmt) → All (IsEntered code manner.entry) procedures.now → OnOk result (out.new ≡ out.old ++ choose_c (leaf_c code) (tree_by levels (entries_of procedures.now)) []) }
{
    if levels == 0 || procedures.len() < 2 {
        return push_leaf(alloc, out, manner, &procedures[0]);
    }
    let (low, high) = procedures.split_at(procedures.len() / 2);
    let middle = high[0].entry;
    let mut lower = Items::new(alloc);
    push_choice(alloc, &mut lower, manner, low, levels - 1)?;
    let mut upper = Items::new(alloc);
    push_choice(alloc, &mut upper, manner, high, levels - 1)?;
    push_halves(alloc, out, middle, lower, upper)
}

/// Pushes one of two lists of statements, by whether the target is below an address.
fn push_halves(
    alloc: Global,
    out: &mut Items<Stmt>,
    middle: u32,
    lower: Items<Stmt>,
    upper: Items<Stmt>,
) -> Result<(), AllocError>
    ensures { OnOk result (out.new ≡ out.old ++ Stmt.If (is_low middle) lower ∷ Stmt.If (is_high middle) upper ∷ []) }
{
    let middle = u64::from(middle);
    let below = with_number(alloc, COp::Lt, Var::Pt, middle)?;
    out.push(Stmt::If(below, lower))?;
    let from_middle = binary(alloc, COp::Le, CExpr::Num(middle), CExpr::Of(Var::Pt))?;
    out.push(Stmt::If(from_middle, upper))
}
