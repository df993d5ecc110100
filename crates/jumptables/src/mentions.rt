//! Which cells an instruction mentions.
ghost use Rattle.std.specs.Prelude.{◌≡◌, IfOk, length, replicate, slice_set, false, true};
ghost use Rattle.rtl_core.specs.Terms.{term_of};
ghost use Rattle.jumptables.specs.Mentions.{marks, marks_guard, marks_act, marks_all, mentioned_of};

use rtl_core::{Act, Expr, GroundInst, Machine, Transfer};
use sqlite_items::Items;
use std::alloc::{AllocError, Global};

/// For each cell whether an instruction mentions it, as far as a partial run looks into it: stores and traps do not count.
pub fn mentioned(
    alloc: Global,
    machine: &Machine,
    inst: &GroundInst,
) -> Result<Items<bool>, AllocError>
    ensures { IfOk result (λ flags. flags ≡ mentioned_of (length machine.now.widths) inst.now) }
{
    let mut flags = unset(alloc, machine.widths.len())?;
    mark_all(&mut flags, inst.transfers.as_slice());
    Ok(flags)
}

/// So many flags, none of them set.
fn unset(alloc: Global, count: usize) -> Result<Items<bool>, AllocError>
    ensures { IfOk result (λ flags. flags ≡ replicate count false) }
{
    let mut flags = Items::new(alloc);
    for k in 0..count {
        flags.push(false)?;
    }
    Ok(flags)
}

fn mark_all(flags: &mut Items<bool>, transfers: &[Transfer])
    ensures { flags.new ≡ marks_all transfers.now flags.old }
{
    for transfer in transfers {
        mark_guard(flags, &transfer.guard);
        mark_act(flags, &transfer.act);
    }
}

fn mark_guard(flags: &mut Items<bool>, guard: &Option<Expr>)
    ensures { flags.new ≡ marks_guard guard.now flags.old }
{
    if let Some(e) = guard {
        mark(flags, e);
    }
}

fn mark_act(flags: &mut Items<bool>, act: &Act)
    ensures { flags.new ≡ marks_act act.now flags.old }
{
    match act {
        Act::SetCell(cell, e) | Act::SetSlice(cell, _, _, e) => {
            set(flags, *cell);
            mark(flags, e);
        }
        Act::Jump(e) => mark(flags, e),
        Act::Store(_, _, _)
        | Act::Annul
        | Act::Trap(_)
        | Act::Service
        | Act::WinSave
        | Act::WinRestore => {}
    }
}

/// Sets the flag of each cell of an expression.
#[tactic(auto, using(rtl_core::proofs::TermLaws::term_laws))]
fn mark(flags: &mut Items<bool>, e: &Expr)
    ensures { flags.new ≡ marks (term_of e.now) flags.old }
{
    match e {
        Expr::Const(_, _) => {}
        Expr::Cell(cell) => set(flags, *cell),
        Expr::Load(_, a)
        | Expr::Un(_, a)
        | Expr::Slice(a, _, _)
        | Expr::Zext(_, a)
        | Expr::Sext(_, a) => mark(flags, a.get()),
        Expr::Bin(_, a, b) => {
            mark(flags, a.get());
            mark(flags, b.get());
        }
        Expr::If(c, a, b) => {
            mark(flags, c.get());
            mark(flags, a.get());
            mark(flags, b.get());
        }
    }
}

/// Sets the flag of a cell, where it has one.
pub fn set(flags: &mut Items<bool>, cell: u8)
    ensures { flags.new ≡ slice_set flags.old cell true }
{
    let at = usize::from(cell);
    if at < flags.len() {
        flags.set(at, true);
    }
}
