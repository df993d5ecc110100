//! The statements of an instruction's acts and transfers.
ghost use Rattle.std.specs.Prelude.{◌≡◌, ◌≤◌, ◌++◌, [], ◌∷◌, length, OnOk, IfOk};
ghost use Rattle.rtl_core.specs.SoundTerms.{AreSoundTransfers};
ghost use Rattle.c_lower.specs.Accounts.{lowered_need};
ghost use Rattle.c_lower.specs.Cells.{set_c};
ghost use Rattle.c_lower.specs.Lowerable.{HasByteCells, CanLowerAct, CanLowerTransfer, most_temporaries};
ghost use Rattle.c_lower.specs.Lowered.{save_code, restore_code, act_code, transfer_code, lowered};
ghost use Rattle.c_lower.specs.Theorem.{IsLowerable};

use crate::expression::lower_expr;
use crate::formulas::{temporary, with_bits};
use crate::window_moves::{push_restore, push_save};
use c_lang::{CExpr, Stmt, Var};
use rtl_core::{Act, GroundInst, Machine, Transfer};
use sqlite_items::Items;
use std::alloc::{AllocError, Global};

/// The statements of the instruction at `pc`: `t0` to `t3` are set to 0, and then each transfer is done in its
/// order. A jump leaves its target in `t0` and 1 in `t1`, an annulled delay slot 1 in `t2`, a service 1 in `t3`.
/// They take as many temporaries as `temporaries` says. An error is a want of memory.
pub fn lower(
    alloc: Global,
    machine: &Machine,
    inst: &GroundInst,
    pc: u32,
) -> Result<Items<Stmt>, AllocError>
    requires machine { IsLowerable machine.now }
    requires cells { length machine.now.widths ≤ 256 }
    requires transfers { AreSoundTransfers machine.now inst.now.transfers }
    requires temporaries { lowered_need inst.now.transfers ≤ most_temporaries }
    ensures { IfOk result (λ out. out ≡ lowered machine.now pc inst.now.transfers []) }
{
    let mut out = no_answers(alloc)?;
    for transfer in inst.transfers.as_slice() {
        lower_transfer(alloc, &mut out, machine, pc, transfer)?;
    }
    Ok(out)
}

/// Sets the temporaries that tell a jump, an annulled slot and a service to 0.
fn no_answers(alloc: Global) -> Result<Items<Stmt>, AllocError>
    ensures { IfOk result (λ out. out ≡ Stmt.Set (Var.Temp 0) (CExpr.Num 0) ∷ Stmt.Set (Var.Temp 1) (CExpr.Num 0) ∷ Stmt.Set (Var.Temp 2) (CExpr.Num 0) ∷ Stmt.Set (Var.Temp 3) (CExpr.Num 0) ∷ []) }
{
    let mut out = Items::new(alloc);
    out.push(Stmt::Set(Var::Temp(0), CExpr::Num(0)))?;
    out.push(Stmt::Set(Var::Temp(1), CExpr::Num(0)))?;
    out.push(Stmt::Set(Var::Temp(2), CExpr::Num(0)))?;
    out.push(Stmt::Set(Var::Temp(3), CExpr::Num(0)))?;
    Ok(out)
}

/// Pushes a transfer: a guard is computed, and then the act stands in an `if`.
#[tactic(auto, using(crate::proofs::ActLaws::guard_laws))]
fn lower_transfer(
    alloc: Global,
    out: &mut Items<Stmt>,
    machine: &Machine,
    pc: u32,
    transfer: &Transfer,
) -> Result<(), AllocError>
    requires { CanLowerTransfer machine.now transfer.now }
    ensures { OnOk result (out.new ≡ out.old ++ transfer_code machine.now pc transfer.now.guard transfer.now.act []) }
{
    match &transfer.guard {
        None => lower_act(alloc, out, machine, pc, &transfer.act),
        Some(guard) => {
            lower_expr(alloc, out, machine, pc, guard, 4)?;
            let mut guarded = Items::new(alloc);
            lower_act(alloc, &mut guarded, machine, pc, &transfer.act)?;
            out.push(Stmt::If(temporary(4), guarded))
        }
    }
}

/// Pushes what an act does.
#[tactic(auto, using(crate::proofs::ActLaws::act_laws))]
fn lower_act(
    alloc: Global,
    out: &mut Items<Stmt>,
    machine: &Machine,
    pc: u32,
    act: &Act,
) -> Result<(), AllocError>
    requires { CanLowerAct machine.now act.now }
    ensures { OnOk result (out.new ≡ out.old ++ act_code machine.now pc act.now []) }
{
    match act {
        Act::SetCell(c, e) => {
            lower_expr(alloc, out, machine, pc, e, 4)?;
            set_cell(out, machine, *c, temporary(4))
        }
        Act::SetSlice(c, lo, hi, e) => {
            lower_expr(alloc, out, machine, pc, e, 4)?;
            let value = with_bits(alloc, *c, *lo, *hi, 4)?;
            set_cell(out, machine, *c, value)
        }
        Act::Store(n, a, e) => {
            lower_expr(alloc, out, machine, pc, a, 4)?;
            lower_expr(alloc, out, machine, pc, e, 5)?;
            out.push(Stmt::Store(u64::from(*n), temporary(4), temporary(5)))
        }
        Act::Jump(e) => {
            lower_expr(alloc, out, machine, pc, e, 4)?;
            out.push(Stmt::Set(Var::Temp(0), temporary(4)))?;
            out.push(Stmt::Set(Var::Temp(1), CExpr::Num(1)))
        }
        Act::Annul => out.push(Stmt::Set(Var::Temp(2), CExpr::Num(1))),
        Act::Trap(e) => {
            lower_expr(alloc, out, machine, pc, e, 4)?;
            out.push(Stmt::Stop(5, temporary(4)))
        }
        Act::Service => out.push(Stmt::Set(Var::Temp(3), CExpr::Num(1))),
        Act::WinSave => lower_save(alloc, out, machine),
        Act::WinRestore => lower_restore(alloc, out, machine),
    }
}

/// Pushes an assignment of a cell; the zero cell is never assigned.
pub fn set_cell(
    out: &mut Items<Stmt>,
    machine: &Machine,
    c: u8,
    value: CExpr,
) -> Result<(), AllocError>
    ensures { OnOk result (out.new ≡ out.old ++ set_c machine.now.zero c value []) }
{
    match machine.zero {
        Some(zero) => {
            if c == zero {
                Ok(())
            } else {
                out.push(Stmt::Set(Var::Cell(c), value))
            }
        }
        None => out.push(Stmt::Set(Var::Cell(c), value)),
    }
}

#[tactic(auto, using(crate::proofs::ActLaws::is_byte_shape))]
fn lower_save(alloc: Global, out: &mut Items<Stmt>, machine: &Machine) -> Result<(), AllocError>
    requires { HasByteCells machine.now }
    ensures { OnOk result (out.new ≡ out.old ++ save_code machine.now.windows []) }
{
    let windows = machine.windows;
    match windows {
        Some(windows) => push_save(alloc, out, windows),
        None => Ok(()),
    }
}

#[tactic(auto, using(crate::proofs::ActLaws::is_byte_shape))]
fn lower_restore(alloc: Global, out: &mut Items<Stmt>, machine: &Machine) -> Result<(), AllocError>
    requires { HasByteCells machine.now }
    ensures { OnOk result (out.new ≡ out.old ++ restore_code machine.now.windows []) }
{
    let windows = machine.windows;
    match windows {
        Some(windows) => push_restore(alloc, out, windows),
        None => Ok(()),
    }
}
