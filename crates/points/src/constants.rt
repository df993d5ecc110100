//! Targets that are known without running: expressions that have the same value at each moment.
ghost use Rattle.std.specs.Prelude.{◌≡◌, IfOk};
ghost use Rattle.rtl_core.specs.SoundMachine.{IsSoundMachine};
ghost use Rattle.rtl_core.specs.SoundTerms.{Fit, HasWidth};
ghost use Rattle.rtl_core.specs.Terms.{term_of};
ghost use Rattle.points.specs.Kinds.{is_constant, constant_target};

use rtl_core::{Cells, Expr, Machine, Memory};
use rtl_meaning::eval;
use sqlite_items::Items;
use std::alloc::{AllocError, Global};

/// A memory that maps no address.
struct Unmapped;

impl Memory for Unmapped {
    ghost use Rattle.std.specs.Prelude.{None};

    ghost contents = { λ m a. None };

    ghost whole = { λ m. Unit {0} };

    ghost ready = { λ m. Unit {0} };

    ghost follows = { λ m n. Unit {0} };

    fn load8(&self, _a: u32) -> Option<u8> {
        None
    }

    fn writable8(&self, _a: u32) -> bool {
        false
    }

    fn store8(&mut self, _a: u32, _v: u8) -> bool {
        false
    }

    ghost follows_itself = { λ m. tt };

    ghost follows_on = { λ a b c p q. tt };
}

/// The target of a jump, where it is constant; `None` exactly where it is not. The error is want of memory.
pub fn constant_target(
    alloc: Global,
    machine: &Machine,
    target: &Expr,
) -> Result<Option<u32>, AllocError>
    requires machine { IsSoundMachine machine.now }
    requires width { HasWidth machine.now.widths target.now 32 }
    ensures { IfOk result (λ t. t ≡ constant_target machine.now target.now) }
{
    if !is_constant(target) {
        return Ok(None);
    }
    let cells = zero_cells(alloc, machine)?;
    match eval(machine, target, &cells, &Unmapped) {
        Ok(value) => Ok(Some(value as u32)),
        Err(_) => unreachable!(),
    }
}

/// Whether an expression has the same value at each moment: it has no cell, no load and no division.
#[tactic(auto, using(rtl_core::proofs::TermLaws::term_laws))]
fn is_constant(e: &Expr) -> bool
    ensures { result ≡ is_constant (term_of e.now) }
{
    match e {
        Expr::Const(_, _) => true,
        Expr::Cell(_) | Expr::Load(_, _) => false,
        Expr::Un(_, a) | Expr::Slice(a, _, _) | Expr::Zext(_, a) | Expr::Sext(_, a) => {
            is_constant(a.get())
        }
        Expr::Bin(op, a, b) => { !op.divides() && is_constant(a.get()) && is_constant(b.get()) }
        Expr::If(c, a, b) => {
            is_constant(c.get()) && is_constant(a.get()) && is_constant(b.get())
        }
    }
}

/// Cells that are all 0.
fn zero_cells(alloc: Global, machine: &Machine) -> Result<Cells, AllocError>
    requires { IsSoundMachine machine.now }
    ensures { IfOk result (λ cells. Fit machine.now cells.values) }
{
    let values = vec![in alloc; 0; machine.widths.len()]?;
    Ok(Cells {
        values: Items::from_vec(values),
    })
}
