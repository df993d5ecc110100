//! The statements of calls and returns.
ghost use Rattle.std.specs.Prelude.{◌≡◌, ◌++◌, [], ◌∷◌, IfOk, OnOk};
ghost use Rattle.c_control.specs.Pieces.{stop_if, deeper_c, shallower_c, take_c, give_c, without, second_c, return_c};

use crate::expressions::{binary, far, near, pad, with_number};
use c_lang::{CExpr, COp, Stmt, Var};
use sqlite_items::Items;
use std::alloc::{AllocError, Global};

/// The stop at a target at which nothing begins.
pub(crate) const UNDISCOVERED: u64 = 8;
/// The stop at a return to another place.
pub(crate) const MISMATCH: u64 = 9;
/// The stop at one open call too many.
const DEPTH: u64 = 10;
/// How many calls can be open.
const MOST_CALLS: u64 = 65536;

/// Pushes a stop for where a condition holds.
pub(crate) fn push_stop_if(
    alloc: Global,
    out: &mut Items<Stmt>,
    condition: CExpr,
    number: u64,
    value: CExpr,
) -> Result<(), AllocError>
    ensures { OnOk result (out.new ≡ out.old ++ stop_if condition number value []) }
{
    let mut stop = Items::new(alloc);
    stop.push(Stmt::Stop(number, value))?;
    out.push(Stmt::If(condition, stop))
}

/// Pushes that one more call is open, where there is room for it.
pub(crate) fn push_deeper(alloc: Global, out: &mut Items<Stmt>) -> Result<(), AllocError>
    ensures { OnOk result (out.new ≡ out.old ++ deeper_c []) }
{
    let full = with_number(alloc, COp::Eq, Var::Depth, MOST_CALLS)?;
    push_stop_if(alloc, out, full, DEPTH, CExpr::Num(0))?;
    let deeper = with_number(alloc, COp::Add, Var::Depth, 1)?;
    out.push(Stmt::Set(Var::Depth, deeper))
}

/// Pushes that one call less is open.
pub(crate) fn push_shallower(alloc: Global, out: &mut Items<Stmt>) -> Result<(), AllocError>
    ensures { OnOk result (out.new ≡ out.old ++ shallower_c []) }
{
    let shallower = with_number(alloc, COp::Sub, Var::Depth, 1)?;
    out.push(Stmt::Set(Var::Depth, shallower))
}

/// Pushes that the cells that a procedure handed back are taken.
pub(crate) fn push_take(out: &mut Items<Stmt>, cells: &[u8]) -> Result<(), AllocError>
    ensures { OnOk result (out.new ≡ out.old ++ take_c cells.now []) }
{
    for c in cells {
        out.push(Stmt::Set(Var::Cell(*c), CExpr::Of(Var::Result(*c))))?;
    }
    Ok(())
}

/// Pushes that cells are handed back.
pub(crate) fn push_give(out: &mut Items<Stmt>, cells: &[u8]) -> Result<(), AllocError>
    ensures { OnOk result (out.new ≡ out.old ++ give_c cells.now []) }
{
    for c in cells {
        out.push(Stmt::Set(Var::Result(*c), CExpr::Of(Var::Cell(*c))))?;
    }
    Ok(())
}

/// Pushes that the members of the one list that are not in the other are handed back.
pub(crate) fn push_give_without(
    out: &mut Items<Stmt>,
    cells: &[u8],
    but: &[u8],
) -> Result<(), AllocError>
    ensures { OnOk result (out.new ≡ out.old ++ give_c (without cells.now but.now) []) }
{
    for c in cells {
        push_give_unless(out, *c, but)?;
    }
    Ok(())
}

/// Pushes that a cell is handed back, where it is not in a list.
fn push_give_unless(out: &mut Items<Stmt>, c: u8, but: &[u8]) -> Result<(), AllocError>
    ensures { OnOk result (out.new ≡ out.old ++ give_c (without (c ∷ []) but.now) []) }
{
    if but.contains(&c) {
        return Ok(());
    }
    out.push(Stmt::Set(Var::Result(c), CExpr::Of(Var::Cell(c))))
}

/// The stops of a target that is not the return address: it has to be the second return point.
fn second_point(alloc: Global) -> Result<Items<Stmt>, AllocError>
    ensures { IfOk result (λ out. out ≡ second_c) }
{
    let mut out = Items::new(alloc);
    let pad = pad(alloc)?;
    let none = binary(alloc, COp::Eq, pad, CExpr::Num(0))?;
    push_stop_if(alloc, &mut out, none, MISMATCH, CExpr::Of(Var::Pt))?;
    let far = far(alloc)?;
    let other = binary(alloc, COp::Ne, CExpr::Of(Var::Pt), far)?;
    push_stop_if(alloc, &mut out, other, MISMATCH, CExpr::Of(Var::Pt))?;
    Ok(out)
}

/// Pushes a return that hands these cells back.
pub(crate) fn push_return(
    alloc: Global,
    out: &mut Items<Stmt>,
    cells: &[u8],
) -> Result<(), AllocError>
    ensures { OnOk result (out.new ≡ out.old ++ return_c cells.now []) }
{
    let near = near(alloc)?;
    let other = binary(alloc, COp::Ne, CExpr::Of(Var::Pt), near)?;
    out.push(Stmt::Set(Var::ServeE, other))?;
    let second = second_point(alloc)?;
    out.push(Stmt::If(CExpr::Of(Var::ServeE), second))?;
    push_give(out, cells)
}
