//! The statements that compute an expression.
ghost use Rattle.std.specs.Prelude.{◌≡◌, ℕ, ◌+◌, ◌++◌, [], OnOk};
ghost use Rattle.rtl_core.specs.Arithmetic.{is_division};
ghost use Rattle.rtl_core.specs.Terms.{term_of, width_of};
ghost use Rattle.c_lower.specs.Cells.{cell_c};
ghost use Rattle.c_lower.specs.Code.{code, guarded};
ghost use Rattle.c_lower.specs.Lowerable.{CanLower};

use crate::formulas::{binary, bits, choose, sign_extended, temporary};
use crate::operations::{binary_operator, unary_operator};
use c_lang::{CExpr, COp, Stmt, Var};
use rtl_core::{Bin, Expr, Machine};
use sqlite_items::Items;
use std::alloc::{AllocError, Global};

/// Pushes the statements that leave an expression's value in the temporary `k`. They take no temporaries
/// below `k`.
#[tactic(auto, using(crate::proofs::Parts::can_laws, crate::proofs::CodeLaws::code_laws))]
pub(crate) fn lower_expr(
    alloc: Global,
    out: &mut Items<Stmt>,
    machine: &Machine,
    pc: u32,
    e: &Expr,
    k: u16,
) -> Result<(), AllocError>
    requires { CanLower machine.now e.now k }
    ensures { OnOk result (out.new ≡ out.old ++ code machine.now pc (term_of e.now) k []) }
{
    match e {
        Expr::Const(_, n) => out.push(Stmt::Set(Var::Temp(k), CExpr::Num(*n))),
        Expr::Cell(c) => out.push(Stmt::Set(Var::Temp(k), cell(machine, *c))),
        Expr::Load(b, a) => {
            lower_expr(alloc, out, machine, pc, a.get(), k)?;
            out.push(Stmt::Load(Var::Temp(k), u64::from(*b), temporary(k)))
        }
        Expr::Un(op, a) => {
            lower_expr(alloc, out, machine, pc, a.get(), k)?;
            let value = unary_operator(alloc, *op, width(machine, a.get()), k)?;
            out.push(Stmt::Set(Var::Temp(k), value))
        }
        Expr::Bin(op, a, b) => {
            lower_expr(alloc, out, machine, pc, a.get(), k)?;
            lower_expr(alloc, out, machine, pc, b.get(), k + 1)?;
            guard_division(alloc, out, *op, pc, k + 1)?;
            let value = binary_operator(alloc, *op, width(machine, a.get()), k)?;
            out.push(Stmt::Set(Var::Temp(k), value))
        }
        Expr::Slice(a, lo, hi) => {
            lower_expr(alloc, out, machine, pc, a.get(), k)?;
            let value = bits(alloc, *lo, *hi, temporary(k))?;
            out.push(Stmt::Set(Var::Temp(k), value))
        }
        Expr::Zext(_, a) => lower_expr(alloc, out, machine, pc, a.get(), k),
        Expr::Sext(w, a) => {
            lower_expr(alloc, out, machine, pc, a.get(), k)?;
            let value = sign_extended(alloc, width(machine, a.get()), w.bits(), k)?;
            out.push(Stmt::Set(Var::Temp(k), value))
        }
        Expr::If(c, a, b) => {
            lower_expr(alloc, out, machine, pc, c.get(), k)?;
            lower_expr(alloc, out, machine, pc, a.get(), k + 1)?;
            lower_expr(alloc, out, machine, pc, b.get(), k + 2)?;
            let value = choose(alloc, temporary(k), temporary(k + 1), temporary(k + 2))?;
            out.push(Stmt::Set(Var::Temp(k), value))
        }
    }
}

/// The width of an expression's value.
#[tactic(auto, using(crate::proofs::Parts::can_laws))]
fn width(machine: &Machine, e: &Expr) -> u8
    requires { CanLower machine.now e.now 0 }
    ensures { result ≡ width_of machine.now.widths (term_of e.now) }
{
    match e {
        Expr::Const(w, _) => w.bits(),
        Expr::Cell(c) => machine.widths.as_slice()[*c as usize].bits(),
        Expr::Load(b, _) => 8 * *b,
        Expr::Un(_, a) => width(machine, a.get()),
        Expr::Bin(op, a, _) => op.width_of_result(width(machine, a.get())),
        Expr::Slice(_, lo, hi) => *hi + 1 - *lo,
        Expr::Zext(w, _) => w.bits(),
        Expr::Sext(w, _) => w.bits(),
        Expr::If(_, a, _) => width(machine, a.get()),
    }
}

/// A cell as it is read: the zero cell is the number 0.
pub fn cell(machine: &Machine, c: u8) -> CExpr
    ensures { result ≡ cell_c machine.now.zero c }
{
    match machine.zero {
        None => CExpr::Of(Var::Cell(c)),
        Some(zero) => if c == zero {
            CExpr::Num(0)
        } else {
            CExpr::Of(Var::Cell(c))
        },
    }
}

/// Pushes the stop of a division by 0, for an operator that divides by the temporary `k`.
fn guard_division(
    alloc: Global,
    out: &mut Items<Stmt>,
    op: Bin,
    pc: u32,
    k: u16,
) -> Result<(), AllocError>
    ensures { OnOk result (out.new ≡ out.old ++ guarded (is_division op) pc k []) }
{
    if op.divides() {
        let mut stop = Items::new(alloc);
        stop.push(Stmt::Stop(4, CExpr::Num(u64::from(pc))))?;
        let test = binary(alloc, COp::Eq, temporary(k), CExpr::Num(0))?;
        out.push(Stmt::If(test, stop))
    } else {
        Ok(())
    }
}
