//! The expressions of control.
ghost use Rattle.std.specs.Prelude.{◌≡◌, ◌+◌, ◌^◌, ◌∷◌, IfOk};
ghost use Rattle.c_control.specs.Pieces.{flags_c, near_c, pad_c, far_c, arguments_c};

use c_lang::{CExpr, COp, Var};
use sqlite_items::{Boxed, Items};
use std::alloc::{AllocError, Global};

/// `1 << 33`: a return address stands below it, and the bytes to the second return point above.
pub(crate) const NEAR: u64 = 8_589_934_592;
/// One more than the greatest address.
const ADDRESSES: u64 = 4_294_967_296;

/// The variable that holds the target of the jump that was done.
pub(crate) const TARGET: Var = Var::Temp(0);
/// The variable that tells whether the instruction jumped, and behind it the number that chooses.
pub(crate) const JUMPED: Var = Var::Temp(1);
/// The variable that tells whether the instruction annuls.
pub(crate) const ANNULS: Var = Var::Temp(2);

/// An operator over two expressions.
pub(crate) fn binary(alloc: Global, op: COp, a: CExpr, b: CExpr) -> Result<CExpr, AllocError>
    ensures { IfOk result (λ e. e ≡ CExpr.Bin op a b) }
{
    Ok(CExpr::Bin(op, Boxed::new(alloc, a)?, Boxed::new(alloc, b)?))
}

/// An operator over a variable and a number.
pub(crate) fn with_number(alloc: Global, op: COp, v: Var, n: u64) -> Result<CExpr, AllocError>
    ensures { IfOk result (λ e. e ≡ CExpr.Bin op (CExpr.Of v) (CExpr.Num n)) }
{
    binary(alloc, op, CExpr::Of(v), CExpr::Num(n))
}

/// 1 for a jump and 2 for an annul, summed.
pub(crate) fn flags(alloc: Global) -> Result<CExpr, AllocError>
    ensures { IfOk result (λ e. e ≡ flags_c) }
{
    let annul = binary(alloc, COp::Mul, CExpr::Num(2), CExpr::Of(ANNULS))?;
    binary(alloc, COp::Add, CExpr::Of(JUMPED), annul)
}

/// The return address in `ra`.
pub(crate) fn near(alloc: Global) -> Result<CExpr, AllocError>
    ensures { IfOk result (λ e. e ≡ near_c) }
{
    with_number(alloc, COp::Rem, Var::Ra, NEAR)
}

/// The bytes from the return address in `ra` to its second return point.
pub(crate) fn pad(alloc: Global) -> Result<CExpr, AllocError>
    ensures { IfOk result (λ e. e ≡ pad_c) }
{
    with_number(alloc, COp::Div, Var::Ra, NEAR)
}

/// The second return point of `ra`.
pub(crate) fn far(alloc: Global) -> Result<CExpr, AllocError>
    ensures { IfOk result (λ e. e ≡ far_c) }
{
    let near = near(alloc)?;
    let pad = pad(alloc)?;
    let sum = binary(alloc, COp::Add, near, pad)?;
    binary(alloc, COp::Rem, sum, CExpr::Num(ADDRESSES))
}

/// The arguments of a call: `ra`, and then these cells.
pub(crate) fn arguments(alloc: Global, ra: CExpr, cells: &[u8]) -> Result<Items<CExpr>, AllocError>
    ensures { IfOk result (λ out. out ≡ ra ∷ arguments_c cells.now) }
{
    let mut out = Items::new(alloc);
    out.push(ra)?;
    for c in cells {
        out.push(CExpr::Of(Var::Cell(*c)))?;
    }
    Ok(out)
}
