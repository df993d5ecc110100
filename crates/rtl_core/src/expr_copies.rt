//! Copies of expressions.
ghost use Rattle.std.specs.Prelude.{◌≡◌, IfOk};

use crate::expr::Expr;
use sqlite_items::Boxed;
use std::alloc::{AllocError, Global};

/// The same expression once more. The error is want of memory.
#[cycle(copy)]
pub fn copy_expr(alloc: Global, e: &Expr) -> Result<Expr, AllocError>
    ensures { IfOk result (λ copy. copy ≡ e.now) }
{
    match e {
        Expr::Const(w, n) => Ok(Expr::Const(*w, *n)),
        Expr::Cell(c) => Ok(Expr::Cell(*c)),
        Expr::Load(n, a) => Ok(Expr::Load(*n, copy_boxed(alloc, a)?)),
        Expr::Un(op, a) => Ok(Expr::Un(*op, copy_boxed(alloc, a)?)),
        Expr::Bin(op, a, b) => {
            let left = copy_boxed(alloc, a)?;
            Ok(Expr::Bin(*op, left, copy_boxed(alloc, b)?))
        }
        Expr::Slice(a, lo, hi) => Ok(Expr::Slice(copy_boxed(alloc, a)?, *lo, *hi)),
        Expr::Zext(w, a) => Ok(Expr::Zext(*w, copy_boxed(alloc, a)?)),
        Expr::Sext(w, a) => Ok(Expr::Sext(*w, copy_boxed(alloc, a)?)),
        Expr::If(c, a, b) => {
            let condition = copy_boxed(alloc, c)?;
            let first = copy_boxed(alloc, a)?;
            Ok(Expr::If(condition, first, copy_boxed(alloc, b)?))
        }
    }
}

#[cycle(copy)]
fn copy_boxed(alloc: Global, e: &Boxed<Expr>) -> Result<Boxed<Expr>, AllocError>
    ensures { IfOk result (λ copy. copy ≡ e.now) }
{
    Boxed::new(alloc, copy_expr(alloc, e.get())?)
}
