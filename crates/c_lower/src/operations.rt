//! The C of the operators, over the temporaries `k` and `k + 1`.
ghost use Rattle.std.specs.Prelude.{◌≡◌, ◌+◌, ◌<◌, ◌≤◌, IfOk};
ghost use Rattle.c_lower.specs.Code.{temp};
ghost use Rattle.c_lower.specs.Formula.{binary_c, unary_c, masked_c, is_plus_c, complement_c, size_c, same_sign_c, shifted_right_c};

use crate::formulas::{
    binary, choose, complement, is_in_width, is_plus, masked, opposite, same_sign, shifted_right,
    size, temporary,
};
use c_lang::{CExpr, COp};
use rtl_core::{Bin, Un};
use std::alloc::{AllocError, Global};

/// The C of an operator of one operand, over the temporary `k`.
#[tactic(auto, unfolding(crate::specs::Formula::unary_c))]
pub(crate) fn unary_operator(alloc: Global, op: Un, w: u8, k: u16) -> Result<CExpr, AllocError>
    requires { (1 ≤ w) × (w ≤ 64) }
    ensures { IfOk result (λ e. e ≡ unary_c op w (temp k)) }
{
    match op {
        Un::Not => complement(alloc, w, temporary(k)),
        Un::Neg => opposite(alloc, w, temporary(k)),
    }
}

/// The C of an operator of two operands of `w` bits.
#[tactic(auto, unfolding(crate::specs::Formula::binary_c))]
pub(crate) fn binary_operator(alloc: Global, op: Bin, w: u8, k: u16) -> Result<CExpr, AllocError>
    requires { (1 ≤ w) × (w ≤ 64) × (k < 500) }
    ensures { IfOk result (λ e. e ≡ binary_c op w (temp k) (temp (k + 1))) }
{
    match op {
        Bin::Add => masked_pair(alloc, COp::Add, w, k),
        Bin::Sub => masked_pair(alloc, COp::Sub, w, k),
        Bin::Mul => masked_pair(alloc, COp::Mul, w, k),
        Bin::DivU => pair(alloc, COp::Div, k),
        Bin::DivS => quotient(alloc, w, k),
        Bin::RemU => pair(alloc, COp::Rem, k),
        Bin::RemS => remainder(alloc, w, k),
        Bin::And => pair(alloc, COp::And, k),
        Bin::Or => pair(alloc, COp::Or, k),
        Bin::Xor => pair(alloc, COp::Xor, k),
        Bin::Shl => shifted_left(alloc, w, k),
        Bin::ShrU => shifted_right(alloc, w, k, temporary(k)),
        Bin::ShrS => shifted_signed(alloc, w, k),
        Bin::Eq => pair(alloc, COp::Eq, k),
        Bin::Ne => pair(alloc, COp::Ne, k),
        Bin::LtU => pair(alloc, COp::Lt, k),
        Bin::LtS => compared_signed(alloc, COp::Lt, w, k),
        Bin::LeU => pair(alloc, COp::Le, k),
        Bin::LeS => compared_signed(alloc, COp::Le, w, k),
    }
}

fn pair(alloc: Global, op: COp, k: u16) -> Result<CExpr, AllocError>
    requires { k < 500 }
    ensures { IfOk result (λ e. e ≡ CExpr.Bin op (temp k) (temp (k + 1))) }
{
    binary(alloc, op, temporary(k), temporary(k + 1))
}

fn masked_pair(alloc: Global, op: COp, w: u8, k: u16) -> Result<CExpr, AllocError>
    requires { (1 ≤ w) × (w ≤ 64) × (k < 500) }
    ensures { IfOk result (λ e. e ≡ masked_c w (CExpr.Bin op (temp k) (temp (k + 1)))) }
{
    masked(alloc, w, pair(alloc, op, k)?)
}

/// An operator over the absolute values of both.
fn sizes(alloc: Global, op: COp, w: u8, k: u16) -> Result<CExpr, AllocError>
    requires { (1 ≤ w) × (w ≤ 64) × (k < 500) }
    ensures { IfOk result (λ e. e ≡ CExpr.Bin op (size_c w (temp k)) (size_c w (temp (k + 1)))) }
{
    let a = size(alloc, w, k)?;
    let b = size(alloc, w, k + 1)?;
    binary(alloc, op, a, b)
}

#[tactic(auto, unfolding(crate::specs::Formula::binary_c))]
fn quotient(alloc: Global, w: u8, k: u16) -> Result<CExpr, AllocError>
    requires { (1 ≤ w) × (w ≤ 64) × (k < 500) }
    ensures { IfOk result (λ e. e ≡ binary_c Bin.DivS w (temp k) (temp (k + 1))) }
{
    let same = same_sign(alloc, w, k)?;
    let plus = sizes(alloc, COp::Div, w, k)?;
    let again = sizes(alloc, COp::Div, w, k)?;
    let minus = opposite(alloc, w, again)?;
    choose(alloc, same, plus, minus)
}

#[tactic(auto, unfolding(crate::specs::Formula::binary_c))]
fn remainder(alloc: Global, w: u8, k: u16) -> Result<CExpr, AllocError>
    requires { (1 ≤ w) × (w ≤ 64) × (k < 500) }
    ensures { IfOk result (λ e. e ≡ binary_c Bin.RemS w (temp k) (temp (k + 1))) }
{
    let sign = is_plus(alloc, w, k)?;
    let plus = sizes(alloc, COp::Rem, w, k)?;
    let again = sizes(alloc, COp::Rem, w, k)?;
    let minus = opposite(alloc, w, again)?;
    choose(alloc, sign, plus, minus)
}

#[tactic(auto, unfolding(crate::specs::Formula::binary_c))]
fn shifted_left(alloc: Global, w: u8, k: u16) -> Result<CExpr, AllocError>
    requires { (1 ≤ w) × (w ≤ 64) × (k < 500) }
    ensures { IfOk result (λ e. e ≡ binary_c Bin.Shl w (temp k) (temp (k + 1))) }
{
    let test = is_in_width(alloc, w, k)?;
    let moved = masked_pair(alloc, COp::Shl, w, k)?;
    choose(alloc, test, moved, CExpr::Num(0))
}

#[tactic(auto, unfolding(crate::specs::Formula::binary_c))]
fn shifted_signed(alloc: Global, w: u8, k: u16) -> Result<CExpr, AllocError>
    requires { (1 ≤ w) × (w ≤ 64) × (k < 500) }
    ensures { IfOk result (λ e. e ≡ binary_c Bin.ShrS w (temp k) (temp (k + 1))) }
{
    let plus = is_plus(alloc, w, k)?;
    let positive = shifted_right(alloc, w, k, temporary(k))?;
    let negative = shifted_negative(alloc, w, k)?;
    choose(alloc, plus, positive, negative)
}

/// A shift to the right that brings ones in.
fn shifted_negative(alloc: Global, w: u8, k: u16) -> Result<CExpr, AllocError>
    requires { (1 ≤ w) × (w ≤ 64) × (k < 500) }
    ensures { IfOk result (λ e. e ≡ complement_c w (shifted_right_c w (complement_c w (temp k)) (temp (k + 1)))) }
{
    let inner = complement(alloc, w, temporary(k))?;
    let moved = shifted_right(alloc, w, k, inner)?;
    complement(alloc, w, moved)
}

/// A comparison of signed numbers: where the signs differ, the negative number is the less.
fn compared_signed(alloc: Global, op: COp, w: u8, k: u16) -> Result<CExpr, AllocError>
    requires { (1 ≤ w) × (w ≤ 64) × (k < 500) }
    ensures { IfOk result (λ e. e ≡ CExpr.Choose (same_sign_c w (temp k) (temp (k + 1))) (CExpr.Bin op (temp k) (temp (k + 1))) (is_plus_c w (temp (k + 1)))) }
{
    let same = same_sign(alloc, w, k)?;
    let test = pair(alloc, op, k)?;
    let plus = is_plus(alloc, w, k + 1)?;
    choose(alloc, same, test, plus)
}
