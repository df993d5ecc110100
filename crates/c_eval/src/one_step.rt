//! One step.
ghost use Rattle.std.specs.Prelude.{◌≡◌, List, IfOk};
ghost use Rattle.c_lang.specs.declared.tree.End.{End};
ghost use Rattle.c_lang.specs.declared.tree.Stmt.{Stmt};
ghost use Rattle.c_lang.specs.State.{At};
ghost use Rattle.c_lang.specs.Step as step;
ghost use Rattle.c_eval.specs.Plain.{state_of, place_of, moment};

use crate::ends::{finish, stop_by};
use crate::evaluating::{call_by, choose, load_by, put_by, serve_by, set, store_by, take_by};
use crate::places::next_statement;
use crate::state::{PlainState, Taken};
use c_lang::{Program, Stmt};
use rtl_core::Memory;
use std::alloc::{AllocError, Global};

/// One step of the run: a statement, a condition, an end, a call or a return.
///
/// At an `Err` there was no memory; the state is not to be used again then, nor after a stop or where the run sticks.
pub fn plain_step<M: Memory>(
    alloc: Global,
    program: &Program,
    state: &mut PlainState,
    mem: &mut M,
) -> Result<Taken, AllocError>
    requires whole { M.whole mem.old }
    requires ready { M.ready mem.old }
    ensures step { IfOk result (λ t. moment t program.now (state_of state.old (M.contents mem.old)) (state_of state.new (M.contents mem.new))
        ≡ step.step program.now (state_of state.old (M.contents mem.old))) }
    ensures whole { M.whole mem.new }
    ensures ready { M.ready mem.new }
    ensures follows { M.follows mem.old mem.new }
{
    match next_statement(state) {
        None => finish(alloc, program, state),
        Some(statement) => act(alloc, program, state, mem, &statement),
    }
}

/// Does what a statement says, once it is taken off those that are left.
fn act<M: Memory>(
    alloc: Global,
    program: &Program,
    state: &mut PlainState,
    mem: &mut M,
    statement: &Stmt,
) -> Result<Taken, AllocError>
    requires whole { M.whole mem.old }
    requires ready { M.ready mem.old }
    ensures step { IfOk result (λ t. (rest : List Stmt) (end : End) → place_of state.old.top.place ≡ At rest end →
        moment t program.now (state_of state.old (M.contents mem.old)) (state_of state.new (M.contents mem.new))
        ≡ step.done program.now (state_of state.old (M.contents mem.old)) statement.now rest end) }
    ensures whole { M.whole mem.new }
    ensures ready { M.ready mem.new }
    ensures follows { M.follows mem.old mem.new }
{
    match statement {
        Stmt::Set(v, e) => set(program, state, *v, e),
        Stmt::Load(v, n, e) => load_by(program, state, mem, *v, *n, e),
        Stmt::Store(n, a, e) => Ok(store_by(program, state, mem, *n, a, e)),
        Stmt::TakeW(v, e) => take_by(program, state, *v, e),
        Stmt::PutW(i, e) => put_by(state, i, e),
        Stmt::Serve(n, x, y, z) => serve_by(alloc, program, state, mem, n, x, y, z),
        Stmt::Call(entry, es) => call_by(alloc, program, state, *entry, es.as_slice()),
        Stmt::If(e, body) => choose(alloc, state, e, body.as_slice()),
        Stmt::Stop(k, e) => Ok(stop_by(state, *k, e)),
    }
}
