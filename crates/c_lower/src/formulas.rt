//! The C of single operations, over operands in temporaries.
ghost use Rattle.std.specs.Prelude.{◌≡◌, ◌+◌, ◌-◌, ◌^◌, ◌<◌, ◌≤◌, IfOk};
ghost use Rattle.c_lower.specs.Code.{temp};
ghost use Rattle.c_lower.specs.Formula.{masked_c, is_plus_c, opposite_c, complement_c, size_c, same_sign_c, shifted_right_c, bits_c, with_bits_c, sign_extended_c};

use c_lang::{CExpr, COp, Var};
use sqlite_items::Boxed;
use std::alloc::{AllocError, Global};

/// A temporary as an operand.
pub(crate) fn temporary(k: u16) -> CExpr
    ensures { result ≡ temp k }
{
    CExpr::Of(Var::Temp(k))
}

pub(crate) fn binary(alloc: Global, op: COp, a: CExpr, b: CExpr) -> Result<CExpr, AllocError>
    ensures { IfOk result (λ e. e ≡ CExpr.Bin op a b) }
{
    Ok(CExpr::Bin(op, Boxed::new(alloc, a)?, Boxed::new(alloc, b)?))
}

pub(crate) fn choose(alloc: Global, c: CExpr, a: CExpr, b: CExpr) -> Result<CExpr, AllocError>
    ensures { IfOk result (λ e. e ≡ CExpr.Choose c a b) }
{
    Ok(CExpr::Choose(
        Boxed::new(alloc, c)?,
        Boxed::new(alloc, a)?,
        Boxed::new(alloc, b)?,
    ))
}

/// The greatest number of `w` bits.
pub(crate) fn mask(w: u8) -> u64
    requires { (1 ≤ w) × (w ≤ 64) }
    ensures { result ≡ 2 ^ w - 1 }
{
    if w == 64 { u64::MAX } else { (1u64 << w) - 1 }
}

/// The sign bit of a number of `w` bits.
pub(crate) fn sign_bit(w: u8) -> u64
    requires { (1 ≤ w) × (w ≤ 64) }
    ensures { result ≡ 2 ^ (w - 1) }
{
    1u64 << (w - 1)
}

/// The bits `v` and above, below bit `w`.
#[tactic(auto, using(rtl_core::proofs::Ranges::pow_le))]
pub(crate) fn bits_above(v: u8, w: u8) -> u64
    requires { (1 ≤ v) × (v ≤ w) × (w ≤ 64) }
    ensures { result ≡ 2 ^ w - 2 ^ v }
{
    mask(w) - mask(v)
}

pub(crate) fn masked(alloc: Global, w: u8, a: CExpr) -> Result<CExpr, AllocError>
    requires { (1 ≤ w) × (w ≤ 64) }
    ensures { IfOk result (λ e. e ≡ masked_c w a) }
{
    binary(alloc, COp::And, a, CExpr::Num(mask(w)))
}

pub(crate) fn is_plus(alloc: Global, w: u8, k: u16) -> Result<CExpr, AllocError>
    requires { (1 ≤ w) × (w ≤ 64) }
    ensures { IfOk result (λ e. e ≡ is_plus_c w (temp k)) }
{
    binary(alloc, COp::Lt, temporary(k), CExpr::Num(sign_bit(w)))
}

pub(crate) fn opposite(alloc: Global, w: u8, a: CExpr) -> Result<CExpr, AllocError>
    requires { (1 ≤ w) × (w ≤ 64) }
    ensures { IfOk result (λ e. e ≡ opposite_c w a) }
{
    let minus = binary(alloc, COp::Sub, CExpr::Num(0), a)?;
    masked(alloc, w, minus)
}

pub(crate) fn complement(alloc: Global, w: u8, a: CExpr) -> Result<CExpr, AllocError>
    requires { (1 ≤ w) × (w ≤ 64) }
    ensures { IfOk result (λ e. e ≡ complement_c w a) }
{
    binary(alloc, COp::Sub, CExpr::Num(mask(w)), a)
}

pub(crate) fn size(alloc: Global, w: u8, k: u16) -> Result<CExpr, AllocError>
    requires { (1 ≤ w) × (w ≤ 64) }
    ensures { IfOk result (λ e. e ≡ size_c w (temp k)) }
{
    let plus = is_plus(alloc, w, k)?;
    let minus = opposite(alloc, w, temporary(k))?;
    choose(alloc, plus, temporary(k), minus)
}

/// Whether the temporaries `k` and `k + 1` have one sign.
pub(crate) fn same_sign(alloc: Global, w: u8, k: u16) -> Result<CExpr, AllocError>
    requires { (1 ≤ w) × (w ≤ 64) × (k < 500) }
    ensures { IfOk result (λ e. e ≡ same_sign_c w (temp k) (temp (k + 1))) }
{
    let a = is_plus(alloc, w, k)?;
    let b = is_plus(alloc, w, k + 1)?;
    binary(alloc, COp::Eq, a, b)
}

/// `a` shifted to the right by the temporary `k + 1`.
pub(crate) fn shifted_right(alloc: Global, w: u8, k: u16, a: CExpr) -> Result<CExpr, AllocError>
    requires { k < 500 }
    ensures { IfOk result (λ e. e ≡ shifted_right_c w a (temp (k + 1))) }
{
    let test = is_in_width(alloc, w, k)?;
    let moved = binary(alloc, COp::Shr, a, temporary(k + 1))?;
    choose(alloc, test, moved, CExpr::Num(0))
}

/// Whether the temporary `k + 1`, a shift's count, is below the width.
pub(crate) fn is_in_width(alloc: Global, w: u8, k: u16) -> Result<CExpr, AllocError>
    requires { k < 500 }
    ensures { IfOk result (λ e. e ≡ CExpr.Bin COp.Lt (temp (k + 1)) (CExpr.Num w)) }
{
    binary(alloc, COp::Lt, temporary(k + 1), CExpr::Num(u64::from(w)))
}

pub(crate) fn bits(alloc: Global, lo: u8, hi: u8, a: CExpr) -> Result<CExpr, AllocError>
    requires { (lo ≤ hi) × (hi < 64) }
    ensures { IfOk result (λ e. e ≡ bits_c lo hi a) }
{
    let moved = binary(alloc, COp::Shr, a, CExpr::Num(u64::from(lo)))?;
    masked(alloc, hi + 1 - lo, moved)
}

/// A cell with the temporary `k` put into its bits `lo` to `hi`.
pub(crate) fn with_bits(alloc: Global, c: u8, lo: u8, hi: u8, k: u16) -> Result<CExpr, AllocError>
    requires { (lo ≤ hi) × (hi < 64) }
    ensures { IfOk result (λ e. e ≡ with_bits_c lo hi (CExpr.Of (Var.Cell c)) (temp k)) }
{
    let old = bits(alloc, lo, hi, CExpr::Of(Var::Cell(c)))?;
    let taken = binary(alloc, COp::Shl, old, CExpr::Num(u64::from(lo)))?;
    let rest = binary(alloc, COp::Sub, CExpr::Of(Var::Cell(c)), taken)?;
    let new = binary(alloc, COp::Shl, temporary(k), CExpr::Num(u64::from(lo)))?;
    binary(alloc, COp::Add, rest, new)
}

/// The temporary `k`, of `v` bits, with its sign repeated up to `w` bits.
pub(crate) fn sign_extended(alloc: Global, v: u8, w: u8, k: u16) -> Result<CExpr, AllocError>
    requires { (1 ≤ v) × (v ≤ w) × (w ≤ 64) }
    ensures { IfOk result (λ e. e ≡ sign_extended_c v w (temp k)) }
{
    let plus = is_plus(alloc, v, k)?;
    let minus = binary(alloc, COp::Add, temporary(k), CExpr::Num(bits_above(v, w)))?;
    choose(alloc, plus, temporary(k), minus)
}
