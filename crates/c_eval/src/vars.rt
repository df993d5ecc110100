//! Variables as lists of assignments.
ghost use Rattle.std.specs.Prelude.{◌≡◌, ℕ, OnOk, Option, slice_get};
ghost use Rattle.rtl_core.specs.Contents.{Contents};
ghost use Rattle.c_lang.specs.State.{same_var, is_global as is_shared, declares, declared_in, has, put};
ghost use Rattle.c_eval.specs.Plain.{latest, seen_in, word_at, state_of};

use crate::state::{PlainState, Setting, Word};
use c_lang::{Function, Program, Var};
use std::alloc::AllocError;

/// Whether two variables are one.
fn is_same(v: Var, w: Var) -> bool
    ensures { result ≡ same_var v w }
{
    match (v, w) {
        (Var::Ra, Var::Ra)
        | (Var::Pt, Var::Pt)
        | (Var::Wn, Var::Wn)
        | (Var::Depth, Var::Depth)
        | (Var::ServeR, Var::ServeR)
        | (Var::ServeE, Var::ServeE) => true,
        (Var::Cell(i), Var::Cell(j)) => i == j,
        (Var::Temp(i), Var::Temp(j)) => i == j,
        (Var::Result(i), Var::Result(j)) => i == j,
        _ => false,
    }
}

/// Whether a variable is shared by all calls.
fn is_global(v: Var) -> bool
    ensures { result ≡ is_shared v }
{
    matches!(
        v,
        Var::Result(_) | Var::Wn | Var::Depth | Var::ServeR | Var::ServeE
    )
}

/// What was assigned last to a variable, or what it was at first.
#[tactic(auto, using(std::proofs::lemmas::Grind::common_steps, crate::proofs::PlainLaws::last_laws))]
fn latest_of(first: Option<u64>, xs: &[Setting], v: Var) -> Option<u64>
    ensures { result ≡ latest first v xs.now }
{
    let mut value = first;
    for x in xs {
        if is_same(x.var, v) {
            value = Some(x.value);
        }
    }
    value
}

/// The value of a variable that a frame sees; global variables are 0 at first, all others are not set.
#[tactic(auto, unfolding(crate::specs::Plain::seen_in, crate::specs::Plain::shown))]
pub fn seen(globals: &[Setting], locals: &[Setting], v: Var) -> Option<u64>
    ensures { result ≡ seen_in globals.now locals.now v }
{
    if is_global(v) {
        latest_of(Some(0), globals, v)
    } else {
        latest_of(None, locals, v)
    }
}

/// The word of `uq_w` at an index.
#[tactic(auto, using(std::proofs::lemmas::Grind::common_steps, crate::proofs::PlainLaws::last_laws))]
pub fn word_of(words: &[Word], index: u64) -> u64
    ensures { result ≡ word_at words.now index }
{
    let mut value = 0;
    for w in words {
        if w.index == index {
            value = w.value;
        }
    }
    value
}

/// Gives a value to a variable, where it belongs.
#[tactic(auto, using(crate::proofs::PlainLaws::shown_push))]
pub fn put_var(state: &mut PlainState, var: Var, value: u64) -> Result<(), AllocError>
    ensures { OnOk result ((m : Contents) → state_of state.new m ≡ put (state_of state.old m) var value) }
{
    let setting = Setting { var, value };
    if is_global(var) {
        state.globals.push(setting)
    } else {
        state.top.vars.push(setting)
    }
}

/// Whether the function at a place among all is there and has a variable to assign.
pub fn is_declared(program: &Program, function: usize, v: Var) -> bool
    ensures { result ≡ declared_in (slice_get program.now.functions function) v }
{
    match program.functions.get(function) {
        None => false,
        Some(f) => is_declared_in(f, v),
    }
}

/// Whether a function has a variable to assign.
fn is_declared_in(f: &Function, v: Var) -> bool
    ensures { result ≡ declares f.now v }
{
    match v {
        Var::Cell(i) => contains(f.params.as_slice(), i) || contains(f.cells.as_slice(), i),
        Var::Temp(i) => i < f.temps,
        _ => true,
    }
}

/// Whether a number is in a list.
fn contains(xs: &[u8], n: u8) -> bool
    ensures { result ≡ has xs.now n }
{
    xs.iter().any(|x| *x == n)
}
