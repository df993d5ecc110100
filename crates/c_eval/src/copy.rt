//! Copies of trees.
ghost use Rattle.std.specs.Prelude.{◌≡◌, IfOk};

use c_lang::{CExpr, COp, End, Stmt};
use sqlite_items::{Boxed, Items};
use std::alloc::{AllocError, Global};

/// A copy of an expression.
pub fn copy_expr(alloc: Global, e: &CExpr) -> Result<CExpr, AllocError>
    ensures { IfOk result (λ c. c ≡ e.now) }
{
    match e {
        CExpr::Num(n) => Ok(CExpr::Num(*n)),
        CExpr::Of(v) => Ok(CExpr::Of(*v)),
        CExpr::Bin(op, a, b) => {
            let left = copy_expr(alloc, a.get())?;
            let right = copy_expr(alloc, b.get())?;
            bin(alloc, *op, left, right)
        }
        CExpr::Choose(c, a, b) => {
            let test = copy_expr(alloc, c.get())?;
            let left = copy_expr(alloc, a.get())?;
            let right = copy_expr(alloc, b.get())?;
            choose(alloc, test, left, right)
        }
    }
}

fn bin(alloc: Global, op: COp, a: CExpr, b: CExpr) -> Result<CExpr, AllocError>
    ensures { IfOk result (λ e. e ≡ CExpr.Bin op a b) }
{
    Ok(CExpr::Bin(op, Boxed::new(alloc, a)?, Boxed::new(alloc, b)?))
}

fn choose(alloc: Global, c: CExpr, a: CExpr, b: CExpr) -> Result<CExpr, AllocError>
    ensures { IfOk result (λ e. e ≡ CExpr.Choose c a b) }
{
    Ok(CExpr::Choose(
        Boxed::new(alloc, c)?,
        Boxed::new(alloc, a)?,
        Boxed::new(alloc, b)?,
    ))
}

/// A copy of some expressions.
fn copy_exprs(alloc: Global, xs: &[CExpr]) -> Result<Items<CExpr>, AllocError>
    ensures { IfOk result (λ l. l ≡ xs.now) }
{
    let mut out = Items::new(alloc);
    for x in xs {
        out.push(copy_expr(alloc, x)?)?;
    }
    Ok(out)
}

/// A copy of a statement.
#[cycle(copy)]
fn copy_stmt(alloc: Global, s: &Stmt) -> Result<Stmt, AllocError>
    ensures { IfOk result (λ c. c ≡ s.now) }
{
    match s {
        Stmt::Set(v, e) => Ok(Stmt::Set(*v, copy_expr(alloc, e)?)),
        Stmt::Load(v, n, e) => Ok(Stmt::Load(*v, *n, copy_expr(alloc, e)?)),
        Stmt::Store(n, a, e) => Ok(Stmt::Store(*n, copy_expr(alloc, a)?, copy_expr(alloc, e)?)),
        Stmt::TakeW(v, e) => Ok(Stmt::TakeW(*v, copy_expr(alloc, e)?)),
        Stmt::PutW(a, e) => Ok(Stmt::PutW(copy_expr(alloc, a)?, copy_expr(alloc, e)?)),
        Stmt::Serve(n, x, y, z) => Ok(Stmt::Serve(
            copy_expr(alloc, n)?,
            copy_expr(alloc, x)?,
            copy_expr(alloc, y)?,
            copy_expr(alloc, z)?,
        )),
        Stmt::Call(f, es) => Ok(Stmt::Call(*f, copy_exprs(alloc, es.as_slice())?)),
        Stmt::If(e, body) => Ok(Stmt::If(
            copy_expr(alloc, e)?,
            copy_stmts(alloc, body.as_slice())?,
        )),
        Stmt::Stop(k, e) => Ok(Stmt::Stop(*k, copy_expr(alloc, e)?)),
    }
}

/// A copy of some statements.
#[cycle(copy)]
pub fn copy_stmts(alloc: Global, xs: &[Stmt]) -> Result<Items<Stmt>, AllocError>
    ensures { IfOk result (λ l. l ≡ xs.now) }
{
    let mut out = Items::new(alloc);
    for x in xs {
        out.push(copy_stmt(alloc, x)?)?;
    }
    Ok(out)
}

/// A copy of an end.
pub fn copy_end(alloc: Global, end: &End) -> Result<End, AllocError>
    ensures { IfOk result (λ c. c ≡ end.now) }
{
    match end {
        End::Goto(to) => Ok(End::Goto(*to)),
        End::Branch(e, first, second) => Ok(End::Branch(copy_expr(alloc, e)?, *first, *second)),
        End::Switch(e, cases, k, other) => Ok(End::Switch(
            copy_expr(alloc, e)?,
            Items::from_slice(alloc, cases.as_slice())?,
            *k,
            copy_expr(alloc, other)?,
        )),
        End::Return => Ok(End::Return),
        End::Finish(k, e) => Ok(End::Finish(*k, copy_expr(alloc, e)?)),
    }
}
