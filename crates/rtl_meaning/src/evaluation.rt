//! The value and the width of an expression.
ghost use Rattle.std.specs.Prelude.{◌≡◌, ◌<◌, ◌^◌, ◌==◌, ◌&&◌, if◌then◌else◌, Ok, Err};
ghost use Rattle.rtl_core.specs.Arithmetic.{binary, is_division};
ghost use Rattle.rtl_core.specs.Terms.{term_of, width_of};
ghost use Rattle.rtl_core.specs.Value.{value_of};
ghost use Rattle.rtl_core.specs.SoundTerms.{IsWidth, Fit};
ghost use Rattle.rtl_meaning.specs.Sound.{IsSoundExpr};

use crate::arithmetic::{apply, apply_un, bits, sign_extend};
use rtl_core::{Bin, Cells, Expr, Machine, Memory, Trap, load};

/// The value of a well formed expression over a machine's cells and memory, below 2 to its width.
///
/// All parts are evaluated, from left to right; the first trap is the answer where there is one: a load that is misaligned or not
/// mapped, as `load` tells it, or a division or remainder by 0.
#[tactic(auto, using(crate::proofs::Values::value_laws))]
pub fn eval<M: Memory>(machine: &Machine, e: &Expr, cells: &Cells, mem: &M) -> Result<u64, Trap>
    requires whole { M.whole mem.now }
    requires sound { IsSoundExpr machine.now.widths e.now }
    requires fit { Fit machine.now cells.now.values }
    ensures { result ≡ value_of machine.now cells.now.values (M.contents mem.now) (term_of e.now) }
{
    match e {
        Expr::Const(_, n) => Ok(*n),
        Expr::Cell(c) => Ok(cells.values.as_slice()[*c as usize]),
        Expr::Load(n, a) => {
            let at = eval(machine, a.get(), cells, mem)?;
            load(mem, machine.order, machine.align, *n, at)
        }
        Expr::Un(op, a) => {
            let x = eval(machine, a.get(), cells, mem)?;
            Ok(apply_un(*op, width_of_expr(machine, a.get()), x))
        }
        Expr::Bin(op, a, b) => {
            let x = eval(machine, a.get(), cells, mem)?;
            let y = eval(machine, b.get(), cells, mem)?;
            combine(*op, width_of_expr(machine, a.get()), x, y)
        }
        Expr::Slice(a, lo, hi) => {
            let x = eval(machine, a.get(), cells, mem)?;
            Ok(bits(*lo, *hi, x))
        }
        Expr::Zext(_, a) => eval(machine, a.get(), cells, mem),
        Expr::Sext(w, a) => {
            let x = eval(machine, a.get(), cells, mem)?;
            Ok(sign_extend(width_of_expr(machine, a.get()), w.bits(), x))
        }
        Expr::If(c, a, b) => {
            let test = eval(machine, c.get(), cells, mem)?;
            let x = eval(machine, a.get(), cells, mem)?;
            let y = eval(machine, b.get(), cells, mem)?;
            Ok(if test != 0 { x } else { y })
        }
    }
}

/// The width of a well formed expression's value, from 1 to 64.
#[tactic(auto, using(crate::proofs::Values::value_laws))]
pub fn width_of_expr(machine: &Machine, e: &Expr) -> u8
    requires { IsSoundExpr machine.now.widths e.now }
    ensures { result ≡ width_of machine.now.widths (term_of e.now) }
{
    match e {
        Expr::Const(w, _) | Expr::Zext(w, _) | Expr::Sext(w, _) => w.bits(),
        Expr::Cell(c) => machine.widths.as_slice()[*c as usize].bits(),
        Expr::Load(n, _) => 8 * *n,
        Expr::Un(_, a) | Expr::If(_, a, _) => width_of_expr(machine, a.get()),
        Expr::Bin(op, a, _) => op.width_of_result(width_of_expr(machine, a.get())),
        Expr::Slice(_, lo, hi) => *hi + 1 - *lo,
    }
}

/// What an operator makes of two numbers of `w` bits, or the trap of a division by 0.
fn combine(op: Bin, w: u8, x: u64, y: u64) -> Result<u64, Trap>
    requires width { IsWidth w }
    requires left { x < 2 ^ w }
    requires right { y < 2 ^ w }
    ensures { result ≡ (if is_division op && (y == 0) then Err Trap.Divide else Ok (binary op w x y)) }
{
    if op.divides() && y == 0 {
        return Err(Trap::Divide);
    }
    Ok(apply(op, w, x, y))
}
