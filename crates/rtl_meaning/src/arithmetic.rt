//! Arithmetic on numbers of `w` bits, from 1 to 64, read as two's complement where an operator is signed.
ghost use Rattle.std.specs.Prelude.{◌≡◌, ◌≢◌, ◌-◌, ◌%◌, ◌^◌, ◌<◌, ◌≤◌, true};
ghost use Rattle.rtl_core.specs.SoundTerms.{IsWidth};
ghost use Rattle.rtl_core.specs.Arithmetic.{is_plus, opposite, complement, size, same_sign, signed, shifted_right, binary, unary, is_division, bits_of, sign_extended};

use rtl_core::{Bin, Un};

/// What an operator makes of two numbers of `w` bits. The result has 1 bit where the operator compares, else `w`.
#[tactic(auto, unfolding(rtl_core::specs::Arithmetic::binary))]
pub fn apply(op: Bin, w: u8, x: u64, y: u64) -> u64
    requires width { IsWidth w }
    requires left { x < 2 ^ w }
    requires right { y < 2 ^ w }
    requires divisor { is_division op ≡ true → y ≢ 0 }
    ensures { result ≡ binary op w x y }
{
    match op {
        Bin::Add => reduced(w, u128::from(x) + u128::from(y)),
        Bin::Sub => reduced(w, u128::from(x) + (modulus(w) - u128::from(y))),
        Bin::Mul => reduced(w, u128::from(x) * u128::from(y)),
        Bin::DivU => x / y,
        Bin::DivS => with_sign(w, have_one_sign(w, x, y), absolute(w, x) / absolute(w, y)),
        Bin::RemU => x % y,
        Bin::RemS => with_sign(w, is_positive(w, x), absolute(w, x) % absolute(w, y)),
        Bin::And => x & y,
        Bin::Or => x | y,
        Bin::Xor => x ^ y,
        Bin::Shl => shift_left(w, x, y),
        Bin::ShrU => shift_right(w, x, y),
        Bin::ShrS => shift_signed(w, x, y),
        Bin::Eq => u64::from(x == y),
        Bin::Ne => u64::from(x != y),
        Bin::LtU => u64::from(x < y),
        Bin::LtS => u64::from(if have_one_sign(w, x, y) {
            x < y
        } else {
            is_positive(w, y)
        }),
        Bin::LeU => u64::from(x <= y),
        Bin::LeS => u64::from(if have_one_sign(w, x, y) {
            x <= y
        } else {
            is_positive(w, y)
        }),
    }
}

/// What an operator makes of one number of `w` bits.
#[tactic(auto, unfolding(rtl_core::specs::Arithmetic::unary))]
pub fn apply_un(op: Un, w: u8, x: u64) -> u64
    requires width { IsWidth w }
    requires operand { x < 2 ^ w }
    ensures { result ≡ unary op w x }
{
    match op {
        Un::Not => inverted(w, x),
        Un::Neg => negated(w, x),
    }
}

/// The bits `lo` to `hi` of a number, both included.
pub fn bits(lo: u8, hi: u8, x: u64) -> u64
    requires order { lo ≤ hi }
    requires within { hi < 64 }
    ensures { result ≡ bits_of lo hi x }
{
    reduced(hi + 1 - lo, u128::from(x >> lo))
}

/// A number of `v` bits, its sign repeated up to `w` bits.
#[tactic(auto, using(rtl_core::proofs::ArithmeticLaws::pow_le))]
pub fn sign_extend(v: u8, w: u8, x: u64) -> u64
    requires width { IsWidth v }
    requires wider { v ≤ w }
    requires most { w ≤ 64 }
    requires operand { x < 2 ^ v }
    ensures { result ≡ sign_extended v w x }
{
    if is_positive(v, x) {
        x
    } else {
        x + (greatest(w) - greatest(v))
    }
}

/// 2 to the `w`.
fn modulus(w: u8) -> u128
    requires { IsWidth w }
    ensures { result ≡ 2 ^ w }
{
    1 << w
}

/// The greatest number of `w` bits.
#[tactic(auto, using(rtl_core::proofs::ArithmeticLaws::pow_le))]
fn greatest(w: u8) -> u64
    requires { IsWidth w }
    ensures { result ≡ 2 ^ w - 1 }
{
    (modulus(w) - 1) as u64
}

/// A number modulo 2 to the `w`.
fn reduced(w: u8, n: u128) -> u64
    requires { IsWidth w }
    ensures { result ≡ n % 2 ^ w }
{
    (n % modulus(w)) as u64
}

/// Whether the sign bit is 0.
fn is_positive(w: u8, x: u64) -> bool
    requires { IsWidth w }
    ensures { result ≡ is_plus w x }
{
    x < 1 << (w - 1)
}

/// Whether both have one sign.
fn have_one_sign(w: u8, x: u64, y: u64) -> bool
    requires { IsWidth w }
    ensures { result ≡ same_sign w x y }
{
    is_positive(w, x) == is_positive(w, y)
}

/// The negative, modulo 2 to the `w`.
fn negated(w: u8, x: u64) -> u64
    requires width { IsWidth w }
    requires operand { x < 2 ^ w }
    ensures { result ≡ opposite w x }
{
    reduced(w, modulus(w) - u128::from(x))
}

/// Every bit turned round.
fn inverted(w: u8, x: u64) -> u64
    requires width { IsWidth w }
    requires operand { x < 2 ^ w }
    ensures { result ≡ complement w x }
{
    greatest(w) - x
}

/// The absolute value.
fn absolute(w: u8, x: u64) -> u64
    requires width { IsWidth w }
    requires operand { x < 2 ^ w }
    ensures { result ≡ size w x }
{
    if is_positive(w, x) { x } else { negated(w, x) }
}

/// The number of this absolute value, with a plus or a minus before it.
fn with_sign(w: u8, plus: bool, n: u64) -> u64
    requires width { IsWidth w }
    requires operand { n < 2 ^ w }
    ensures { result ≡ signed w plus n }
{
    if plus { n } else { negated(w, n) }
}

/// A shift to the left; 0 where it is by the width or more.
#[tactic(auto, unfolding(rtl_core::specs::Arithmetic::binary))]
fn shift_left(w: u8, x: u64, y: u64) -> u64
    requires { IsWidth w }
    ensures { result ≡ binary Bin.Shl w x y }
{
    if y < u64::from(w) {
        reduced(w, u128::from(x) << y)
    } else {
        0
    }
}

/// A shift to the right that brings zeros in; 0 where it is by the width or more.
fn shift_right(w: u8, x: u64, y: u64) -> u64
    requires { IsWidth w }
    ensures { result ≡ shifted_right w x y }
{
    if y < u64::from(w) { x >> y } else { 0 }
}

/// A shift to the right that brings copies of the sign bit in.
#[tactic(auto, unfolding(rtl_core::specs::Arithmetic::binary))]
fn shift_signed(w: u8, x: u64, y: u64) -> u64
    requires width { IsWidth w }
    requires operand { x < 2 ^ w }
    ensures { result ≡ binary Bin.ShrS w x y }
{
    if is_positive(w, x) {
        shift_right(w, x, y)
    } else {
        inverted(w, shift_right(w, inverted(w, x), y))
    }
}
