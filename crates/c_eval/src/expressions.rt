//! The value of an expression.
ghost use Rattle.std.specs.Prelude.{◌≡◌, ℕ, [], None, IfOk};
ghost use Rattle.c_lang.specs.State.{seen_vars};
ghost use Rattle.c_lang.specs.Value.{op_value, both as both_values, value};
ghost use Rattle.c_eval.specs.Plain.{seen_in, state_of, values_from};

use crate::state::{PlainState, Setting};
use crate::vars::seen;
use c_lang::{CExpr, COp};
use sqlite_items::Items;
use std::alloc::{AllocError, Global};

/// What an operator makes of two numbers, modulo 2 to the 64; `None` exactly at a division by 0 and at a shift by 64 or more.
#[tactic(auto, unfolding(c_lang::specs::Value::op_value))]
pub fn apply(op: COp, x: u64, y: u64) -> Option<u64>
    ensures { result ≡ op_value op x y }
{
    match op {
        COp::Add => Some(x.wrapping_add(y)),
        COp::Sub => Some(x.wrapping_sub(y)),
        COp::Mul => Some(x.wrapping_mul(y)),
        COp::Div => x.checked_div(y),
        COp::Rem => x.checked_rem(y),
        COp::And => Some(x & y),
        COp::Or => Some(x | y),
        COp::Xor => Some(x ^ y),
        COp::Shl => { if y < 64 { Some(x << y) } else { None } }
        COp::Shr => { if y < 64 { Some(x >> y) } else { None } }
        COp::Eq => Some(u64::from(x == y)),
        COp::Ne => Some(u64::from(x != y)),
        COp::Lt => Some(u64::from(x < y)),
        COp::Le => Some(u64::from(x <= y)),
    }
}

/// The value of an expression over what was assigned.
#[tactic(auto, using(c_lang::proofs::ValueLaws::value_laws))]
fn value_over(globals: &[Setting], locals: &[Setting], e: &CExpr) -> Option<u64>
    ensures { result ≡ value (seen_in globals.now locals.now) e.now }
{
    match e {
        CExpr::Num(n) => Some(*n),
        CExpr::Of(v) => seen(globals, locals, *v),
        CExpr::Bin(op, a, b) => {
            both(
                *op,
                value_over(globals, locals, a.get()),
                value_over(globals, locals, b.get()),
            )
        }
        CExpr::Choose(c, a, b) => match value_over(globals, locals, c.get()) {
            None => None,
            Some(n) => {
                if n == 0 {
                    value_over(globals, locals, b.get())
                } else {
                    value_over(globals, locals, a.get())
                }
            }
        },
    }
}

#[tactic(auto, unfolding(c_lang::specs::Value::both))]
fn both(op: COp, x: Option<u64>, y: Option<u64>) -> Option<u64>
    ensures { result ≡ both_values op x y }
{
    match (x, y) {
        (Some(x), Some(y)) => apply(op, x, y),
        _ => None,
    }
}

/// The value of an expression in the call on top.
#[tactic(auto, unfolding(crate::specs::Plain::seen_in))]
pub fn value_of(state: &PlainState, e: &CExpr) -> Option<u64>
    ensures { result ≡ value (seen_vars (state_of state.now (λ a. None))) e.now }
{
    value_over(state.globals.as_slice(), state.top.vars.as_slice(), e)
}

/// The values of some expressions in the call on top; `None` where one has none.
pub fn values_of(
    alloc: Global,
    state: &PlainState,
    es: &[CExpr],
) -> Result<Option<Items<u64>>, AllocError>
    ensures { IfOk result (λ o. o ≡ values_from [] (seen_vars (state_of state.now (λ a. None))) es.now) }
{
    let mut values = Items::new(alloc);
    for e in es {
        match value_of(state, e) {
            None => return Ok(None),
            Some(n) => values.push(n)?,
        }
    }
    Ok(Some(values))
}
