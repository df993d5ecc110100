//! Expanded expressions as expressions of templates.
ghost use Rattle.std.specs.Prelude.{◌≡◌, IfOk};
ghost use Rattle.ssl_rules.specs.Formulas.{value, leaf_value};

use rtl_core::{TExpr, Width};
use sqlite_items::Boxed;
use ssl_rules::{Formula, Leaf};
use std::alloc::{AllocError, Global};

/// An expanded expression as an expression of a template. The error is want of memory.
#[cycle(value)]
#[tactic(auto, using(crate::proofs::ValueLaws::value_laws))]
pub fn value_of(alloc: Global, f: &Formula) -> Result<TExpr, AllocError>
    ensures { IfOk result (λ t. t ≡ value f.now) }
{
    match f {
        Formula::Param(_) => Ok(TExpr::Const(Width::FLAG, 0)),
        Formula::Leaf(leaf) => leaf_value(alloc, *leaf),
        Formula::Load(n, a) => Ok(TExpr::Load(*n, boxed_value(alloc, a)?)),
        Formula::Un(op, a) => Ok(TExpr::Un(*op, boxed_value(alloc, a)?)),
        Formula::Bin(op, a, b) => {
            let left = boxed_value(alloc, a)?;
            Ok(TExpr::Bin(*op, left, boxed_value(alloc, b)?))
        }
        Formula::Slice(a, lo, hi) => Ok(TExpr::Slice(boxed_value(alloc, a)?, *lo, *hi)),
        Formula::Zext(w, a) => Ok(TExpr::Zext(*w, boxed_value(alloc, a)?)),
        Formula::Sext(w, a) => Ok(TExpr::Sext(*w, boxed_value(alloc, a)?)),
        Formula::If(c, a, b) => {
            let condition = boxed_value(alloc, c)?;
            let first = boxed_value(alloc, a)?;
            Ok(TExpr::If(condition, first, boxed_value(alloc, b)?))
        }
    }
}

#[cycle(value)]
fn boxed_value(alloc: Global, f: &Boxed<Formula>) -> Result<Boxed<TExpr>, AllocError>
    ensures { IfOk result (λ t. t ≡ value f.now) }
{
    Boxed::new(alloc, value_of(alloc, f.get())?)
}

/// The value of a part without parts.
fn leaf_value(alloc: Global, leaf: Leaf) -> Result<TExpr, AllocError>
    ensures { IfOk result (λ t. t ≡ leaf_value leaf) }
{
    match leaf {
        Leaf::Const(width, n) => Ok(TExpr::Const(width, n)),
        Leaf::Cell(cell) => Ok(TExpr::Cell(cell)),
        Leaf::Part(part) => {
            let cell = Boxed::new(alloc, TExpr::Cell(part.cell))?;
            Ok(TExpr::Slice(cell, part.lo, part.hi))
        }
        Leaf::Field(operand) => Ok(TExpr::Operand(operand)),
        Leaf::Typed(operand, _) => Ok(TExpr::Operand(operand)),
        Leaf::FileAt(file, operand) => Ok(TExpr::FileAt(file, operand)),
        Leaf::Pc => Ok(TExpr::Pc),
        Leaf::Next => Ok(TExpr::Next),
    }
}
