//! The value of an expression over slots.
ghost use Rattle.std.specs.Prelude.{◌≡◌, None, length, slice_index_or};
ghost use Rattle.c_lang.specs.Value.{op_value, both as both_values, value};
ghost use Rattle.c_frames.specs.Slots.{seen};

use crate::slots::{is_global, slot_of};
use c_lang::{CExpr, COp, Var};

/// What an operator makes of two numbers, modulo 2 to the 64; `None` exactly at a division by 0 and at a shift by 64 or more.
#[tactic(auto, unfolding(c_lang::specs::Value::op_value))]
fn apply(op: COp, x: u64, y: u64) -> Option<u64>
    ensures { result ≡ op_value op x y }
{
    match op {
        COp::Add => Some(x.wrapping_add(y)),
        COp::Sub => Some(x.wrapping_sub(y)),
        COp::Mul => Some(x.wrapping_mul(y)),
        COp::Div => x.checked_div(y),
        COp::Rem => x.checked_rem(y),
        COp::And => Some(x & y),
        COp::Or => Some(x | y),
        COp::Xor => Some(x ^ y),
        COp::Shl => { if y < 64 { Some(x << y) } else { None } }
        COp::Shr => { if y < 64 { Some(x >> y) } else { None } }
        COp::Eq => Some(u64::from(x == y)),
        COp::Ne => Some(u64::from(x != y)),
        COp::Lt => Some(u64::from(x < y)),
        COp::Le => Some(u64::from(x <= y)),
    }
}

/// What an operator makes of two values.
#[inline(always)]
#[tactic(auto, unfolding(c_lang::specs::Value::both))]
fn both(op: COp, x: Option<u64>, y: Option<u64>) -> Option<u64>
    ensures { result ≡ both_values op x y }
{
    match (x, y) {
        (Some(x), Some(y)) => apply(op, x, y),
        _ => None,
    }
}

/// The value of a variable that a call sees.
#[inline(always)]
#[tactic(auto, unfolding(crate::specs::Slots::seen))]
fn read(locals: &[Option<u64>], globals: &[u64], v: Var) -> Option<u64>
    requires { length globals.now ≡ 260 }
    ensures { result ≡ seen locals.now globals.now v }
{
    let at = slot_of(v);
    if is_global(v) {
        Some(globals[at])
    } else {
        local_at(locals, at)
    }
}

/// The value of a slot; none where there is no such slot.
#[inline(always)]
fn local_at(locals: &[Option<u64>], at: usize) -> Option<u64>
    ensures { result ≡ slice_index_or locals.now at None }
{
    if at < locals.len() { locals[at] } else { None }
}

/// The value of an expression.
#[tactic(auto, using(c_lang::proofs::ValueLaws::value_laws))]
pub(crate) fn value_over(locals: &[Option<u64>], globals: &[u64], e: &CExpr) -> Option<u64>
    requires { length globals.now ≡ 260 }
    ensures { result ≡ value (seen locals.now globals.now) e.now }
{
    match e {
        CExpr::Num(n) => Some(*n),
        CExpr::Of(v) => read(locals, globals, *v),
        CExpr::Bin(op, a, b) => {
            both(
                *op,
                value_over(locals, globals, a.get()),
                value_over(locals, globals, b.get()),
            )
        }
        CExpr::Choose(c, a, b) => match value_over(locals, globals, c.get()) {
            None => None,
            Some(n) => {
                if n == 0 {
                    value_over(locals, globals, b.get())
                } else {
                    value_over(locals, globals, a.get())
                }
            }
        },
    }
}
