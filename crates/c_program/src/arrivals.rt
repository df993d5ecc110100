//! What an arrival does: it goes on, jumps by a table, enters a procedure or returns.
ghost use Rattle.std.specs.Prelude.{◌≡◌, ◌<◌, ◌^◌, ◌++◌, [], map, IfOk, OnOk};
ghost use Rattle.std.specs.List.{Contains};
ghost use Rattle.std.specs.List.Sorted.{IsNonDecreasingBy};
ghost use Rattle.points.specs.Kinds.{second};
ghost use Rattle.c_control.specs.Choice.{choose_c};
ghost use Rattle.c_control.specs.Plans.{Plan, pad_by, ra_of};
ghost use Rattle.c_control.specs.Pieces.{call_c, tail_c, leaf_c};
ghost use Rattle.c_control.specs.Blocks.{arrival_code, behind_call, jump_code};
ghost use Rattle.c_program.specs.Shown.{Shows, IsKnown, HasPads, entries_of};

use crate::ends::{behind_call, go_on_at, never, push_table_cases};
use crate::entering::{MOST_LEVELS, Manner, push_choice, push_entered, return_address};
use crate::pieces::{UNDISCOVERED, push_return};
use crate::sources::{Sources, find_pad, find_summary, find_table};
use c_lang::{CExpr, End, Stmt, Var};
use points::Slot;
use sqlite_items::Items;
use std::alloc::{AllocError, Global};

/// The second return point of a return address, where it has one.
pub(crate) fn far_of(on: &Sources, back: u32) -> Option<u32>
    ghost plan: { Plan }
    requires shows { Shows plan on.now }
    requires pads { HasPads plan on.now back }
    ensures far { second plan.flow.setting back ≡ result }
    ensures near { pad_by back result < 2 ^ 31 }
{
    match find_pad(on.pads, back) {
        None => None,
        Some(pad) => Some(pad.second),
    }
}

/// The targets of the computed jump at an address.
pub(crate) fn targets_of<'a>(on: &Sources<'a>, a: u32) -> &'a [u32]
    requires rise { IsNonDecreasingBy (λ t. t.at) on.now.tables.now }
    requires known { Contains (map (λ t. t.at) on.now.tables.now) a }
    ensures { (plan : Plan) → Shows plan on.now → plan.flow.table a ≡ result.now }
{
    match find_table(on.tables, a) {
        None => &[],
        Some(table) => table.targets.as_slice(),
    }
}

/// Pushes a call of the procedure at `t` that comes back to `back`.
pub(crate) fn push_call(
    alloc: Global,
    out: &mut Items<Stmt>,
    on: &Sources,
    t: u32,
    back: u32,
) -> Result<(), AllocError>
    ghost plan: { Plan }
    requires shows { Shows plan on.now }
    requires callee { Contains (entries_of on.now.sums.now) t }
    requires pads { HasPads plan on.now back }
    ensures { OnOk result (out.new ≡ out.old ++ call_c plan back t []) }
{
    let manner = Manner::Call(return_address(back, far_of(on, back)));
    match find_summary(on.sums, t) {
        None => Ok(()),
        Some(callee) => push_entered(alloc, out, manner, callee),
    }
}

/// Pushes a call of any procedure, by the target, that comes back to `back`.
pub(crate) fn push_any_call(
    alloc: Global,
    out: &mut Items<Stmt>,
    on: &Sources,
    back: u32,
) -> Result<(), AllocError>
    ghost plan: { Plan }
    requires shows { Shows plan on.now }
    requires pads { HasPads plan on.now back }
    ensures { OnOk result (out.new ≡ out.old ++ choose_c (leaf_c (call_c plan back)) plan.tree []) }
{
    let manner = Manner::Call(return_address(back, far_of(on, back)));
    push_choice(alloc, out, manner, on.sums, MOST_LEVELS)
}

/// Pushes a jump out of the procedure into any procedure, by the target.
fn push_any_jump(alloc: Global, out: &mut Items<Stmt>, on: &Sources) -> Result<(), AllocError>
    ghost plan: { Plan }
    requires shows { Shows plan on.now }
    ensures { OnOk result (out.new ≡ out.old ++ choose_c (leaf_c (tail_c plan on.now.own.now.entry)) plan.tree []) }
{
    let manner = Manner::Jump(on.own.mods.as_slice());
    push_choice(alloc, out, manner, on.sums, MOST_LEVELS)
}

/// Pushes the computed jump at `a`, and answers the end behind it: by its table, or into a procedure.
fn push_jump(alloc: Global, out: &mut Items<Stmt>, on: &Sources, a: u32) -> Result<End, AllocError>
    ghost plan: { Plan }
    requires shows { Shows plan on.now }
    requires known { Contains (map (λ t. t.at) on.now.tables.now) a }
    ensures stmts { OnOk result (out.new ≡ out.old ++ (jump_code plan on.now.own.now.entry (plan.flow.table a)).stmts) }
    ensures end { IfOk result (λ e. e ≡ (jump_code plan on.now.own.now.entry (plan.flow.table a)).end) }
{
    let targets = targets_of(on, a);
    if targets.is_empty() {
        push_any_jump(alloc, out, on)?;
        return Ok(End::Return);
    }
    let mut cases = Items::new(alloc);
    push_table_cases(&mut cases, 0, targets)?;
    Ok(End::Switch(CExpr::Of(Var::Pt), cases, UNDISCOVERED, CExpr::Of(Var::Pt)))
}

/// The end behind a call that comes back to `back`.
fn end_behind(alloc: Global, on: &Sources, back: u32) -> Result<End, AllocError>
    ghost plan: { Plan }
    requires shows { Shows plan on.now }
    requires pads { HasPads plan on.now back }
    ensures { IfOk result (λ e. e ≡ behind_call plan back) }
{
    behind_call(alloc, back, far_of(on, back))
}

/// Pushes what an arrival does in the procedure, and answers the end behind it.
pub(crate) fn push_arrival(
    alloc: Global,
    out: &mut Items<Stmt>,
    on: &Sources,
    slot: Slot,
) -> Result<End, AllocError>
    ghost plan: { Plan }
    requires shows { Shows plan on.now }
    requires known { IsKnown plan on.now slot }
    ensures stmts { OnOk result (out.new ≡ out.old ++ (arrival_code plan on.now.own.now.entry slot).stmts) }
    ensures end { IfOk result (λ e. e ≡ (arrival_code plan on.now.own.now.entry slot).end) }
{
    match slot {
        Slot::Seq => Ok(never()),
        Slot::To(t) => Ok(go_on_at(t)),
        Slot::Dyn(a) => push_jump(alloc, out, on, a),
        Slot::CallTo(t, back) => {
            push_call(alloc, out, on, t, back)?;
            end_behind(alloc, on, back)
        }
        Slot::CallDyn(back) => {
            push_any_call(alloc, out, on, back)?;
            end_behind(alloc, on, back)
        }
        Slot::Ret => {
            push_return(alloc, out, on.own.mods.as_slice())?;
            Ok(End::Return)
        }
    }
}
