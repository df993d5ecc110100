//! Statements, whose expressions are evaluated first.
ghost use Rattle.std.specs.Prelude.{◌≡◌, ℕ, IfOk, OnOk};
ghost use Rattle.rtl_core.specs.Contents.{Contents};
ghost use Rattle.c_lang.specs.declared.tree.Program.{Program};
ghost use Rattle.c_lang.specs.State.{to_place};
ghost use Rattle.c_lang.specs.Step as step;
ghost use Rattle.lockstep.specs.Runs.{Goes};
ghost use Rattle.c_eval.specs.Plain.{state_of, place_of, moment, in_front};

use crate::calls::call;
use crate::copy::copy_stmts;
use crate::expressions::{value_of, values_of};
use crate::places::put_in_front;
use crate::services::serve;
use crate::state::{PlainState, Taken};
use crate::statements::{assign, load_into, put_word, store_at, take_word};
use c_lang::{CExpr, Program, Stmt, Var};
use rtl_core::Memory;
use std::alloc::{AllocError, Global};

/// `V = E;`
pub fn set(
    program: &Program,
    state: &mut PlainState,
    v: Var,
    e: &CExpr,
) -> Result<Taken, AllocError>
    ensures { IfOk result (λ t. (m : Contents) → moment t program.now (state_of state.old m) (state_of state.new m)
        ≡ step.with_value program.now (state_of state.old m) e.now (step.assign program.now (state_of state.old m) (place_of state.old.top.place) v)) }
{
    match value_of(state, e) {
        None => Ok(Taken::Sticks),
        Some(n) => assign(program, state, v, n),
    }
}

/// `V = uq_load(N, E);`
pub fn load_by<M: Memory>(
    program: &Program,
    state: &mut PlainState,
    mem: &M,
    v: Var,
    n: u64,
    e: &CExpr,
) -> Result<Taken, AllocError>
    requires { M.whole mem.now }
    ensures { IfOk result (λ t. moment t program.now (state_of state.old (M.contents mem.now)) (state_of state.new (M.contents mem.now))
        ≡ step.with_value program.now (state_of state.old (M.contents mem.now)) e.now (step.load_into program.now (state_of state.old (M.contents mem.now)) (place_of state.old.top.place) v n)) }
{
    match value_of(state, e) {
        None => Ok(Taken::Sticks),
        Some(a) => load_into(program, state, mem, v, n, a),
    }
}

/// `uq_store(N, E, E);`
pub fn store_by<M: Memory>(
    program: &Program,
    state: &PlainState,
    mem: &mut M,
    n: u64,
    a: &CExpr,
    e: &CExpr,
) -> Taken
    requires whole { M.whole mem.old }
    requires ready { M.ready mem.old }
    ensures step { moment result program.now (state_of state.now (M.contents mem.old)) (state_of state.now (M.contents mem.new))
        ≡ step.with_value program.now (state_of state.now (M.contents mem.old)) a.now (λ (at : ℕ).
        step.with_value program.now (state_of state.now (M.contents mem.old)) e.now (step.store_at program.now (state_of state.now (M.contents mem.old)) (place_of state.now.top.place) n at)) }
    ensures whole { M.whole mem.new }
    ensures ready { M.ready mem.new }
    ensures follows { M.follows mem.old mem.new }
{
    match (value_of(state, a), value_of(state, e)) {
        (Some(at), Some(v)) => store_at(program, mem, n, at, v),
        _ => Taken::Sticks,
    }
}

/// `V = uq_w[E];`
pub fn take_by(
    program: &Program,
    state: &mut PlainState,
    v: Var,
    e: &CExpr,
) -> Result<Taken, AllocError>
    ensures { IfOk result (λ t. (m : Contents) → moment t program.now (state_of state.old m) (state_of state.new m)
        ≡ step.with_value program.now (state_of state.old m) e.now (step.take_word program.now (state_of state.old m) (place_of state.old.top.place) v)) }
{
    match value_of(state, e) {
        None => Ok(Taken::Sticks),
        Some(i) => take_word(program, state, v, i),
    }
}

/// `uq_w[E] = E;`
pub fn put_by(state: &mut PlainState, i: &CExpr, e: &CExpr) -> Result<Taken, AllocError>
    ensures { IfOk result (λ t. (p : Program) (m : Contents) → moment t p (state_of state.old m) (state_of state.new m)
        ≡ step.with_value p (state_of state.old m) i.now (λ (at : ℕ). step.with_value p (state_of state.old m) e.now (step.put_word p (state_of state.old m) (place_of state.old.top.place) at))) }
{
    match (value_of(state, i), value_of(state, e)) {
        (Some(at), Some(n)) => put_word(state, at, n),
        _ => Ok(Taken::Sticks),
    }
}

/// `uq_serve(E, E, E, E);`
pub fn serve_by<M: Memory>(
    alloc: Global,
    program: &Program,
    state: &mut PlainState,
    mem: &mut M,
    n: &CExpr,
    x: &CExpr,
    y: &CExpr,
    z: &CExpr,
) -> Result<Taken, AllocError>
    requires whole { M.whole mem.old }
    requires ready { M.ready mem.old }
    ensures step { IfOk result (λ t. moment t program.now (state_of state.old (M.contents mem.old)) (state_of state.new (M.contents mem.new))
        ≡ step.with_value program.now (state_of state.old (M.contents mem.old)) n.now (λ (n' : ℕ).
        step.with_value program.now (state_of state.old (M.contents mem.old)) x.now (λ (x' : ℕ).
        step.with_value program.now (state_of state.old (M.contents mem.old)) y.now (λ (y' : ℕ).
        step.with_value program.now (state_of state.old (M.contents mem.old)) z.now (step.serve program.now (state_of state.old (M.contents mem.old)) (place_of state.old.top.place) n' x' y'))))) }
    ensures whole { M.whole mem.new }
    ensures ready { M.ready mem.new }
    ensures follows { M.follows mem.old mem.new }
{
    match (
        value_of(state, n),
        value_of(state, x),
        value_of(state, y),
        value_of(state, z),
    ) {
        (Some(n), Some(x), Some(y), Some(z)) => serve(alloc, program, state, mem, n, x, y, z),
        _ => Ok(Taken::Sticks),
    }
}

/// `f_X(E, ..);`
#[tactic(auto, using(crate::proofs::CallLaws::values_all))]
pub fn call_by(
    alloc: Global,
    program: &Program,
    state: &mut PlainState,
    entry: u32,
    es: &[CExpr],
) -> Result<Taken, AllocError>
    ensures { IfOk result (λ t. (m : Contents) → moment t program.now (state_of state.old m) (state_of state.new m)
        ≡ step.with_values program.now (state_of state.old m) es.now (step.called program.now (state_of state.old m) (place_of state.old.top.place) entry)) }
{
    match values_of(alloc, state, es)? {
        None => Ok(Taken::Sticks),
        Some(values) => call(alloc, program, state, entry, values.as_slice()),
    }
}

/// `if (E) { .. }`
pub fn choose(
    alloc: Global,
    state: &mut PlainState,
    e: &CExpr,
    body: &[Stmt],
) -> Result<Taken, AllocError>
    ensures { IfOk result (λ t. (p : Program) (m : Contents) → moment t p (state_of state.old m) (state_of state.new m)
        ≡ step.with_value p (state_of state.old m) e.now (λ (n : ℕ). Goes (to_place (state_of state.old m) (in_front n body.now (place_of state.old.top.place))))) }
{
    match value_of(state, e) {
        None => Ok(Taken::Sticks),
        Some(n) => {
            put_unless_zero(alloc, state, n, body)?;
            Ok(Taken::Went)
        }
    }
}

/// Puts statements in front of those that are left, unless a number is 0.
fn put_unless_zero(
    alloc: Global,
    state: &mut PlainState,
    n: u64,
    body: &[Stmt],
) -> Result<(), AllocError>
    ensures { OnOk result ((m : Contents) → state_of state.new m ≡ to_place (state_of state.old m) (in_front n body.now (place_of state.old.top.place))) }
{
    if n == 0 {
        return Ok(());
    }
    let stmts = copy_stmts(alloc, body)?;
    put_in_front(state, stmts)
}
