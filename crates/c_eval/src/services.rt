//! Services that a statement asks for.
ghost use Rattle.std.specs.Prelude.{◌≡◌, ◌%◌, ◌^◌, ◌++◌, [], IfOk};
ghost use Rattle.rtl_core.specs.Contents.{Contents};
ghost use Rattle.rtl_core.specs.Services.{served, result_of, error_of};
ghost use Rattle.c_lang.specs.State.{put};
ghost use Rattle.c_lang.specs.Step as step;
ghost use Rattle.sysemu.specs.Streams.{world_of};
ghost use Rattle.c_eval.specs.Plain.{state_of, place_of, moment, with_served};

use crate::state::{PlainState, Taken};
use crate::statements::{drain, error_value, low, numbers_of, result_value};
use crate::vars::put_var;
use c_lang::{Program, Var};
use rtl_core::{Memory, Stop};
use std::alloc::{AllocError, Global};
use sysemu::{Reply, reply};

/// Does a service, whose number and arguments are taken modulo 2 to the 32; an exit stops the run.
pub fn serve<M: Memory>(
    alloc: Global,
    program: &Program,
    state: &mut PlainState,
    mem: &mut M,
    number: u64,
    x: u64,
    y: u64,
    z: u64,
) -> Result<Taken, AllocError>
    requires whole { M.whole mem.old }
    requires ready { M.ready mem.old }
    ensures step { IfOk result (λ t. moment t program.now (state_of state.old (M.contents mem.old)) (state_of state.new (M.contents mem.new))
        ≡ step.serve program.now (state_of state.old (M.contents mem.old)) (place_of state.old.top.place) number x y z) }
    ensures whole { M.whole mem.new }
    ensures ready { M.ready mem.new }
    ensures follows { M.follows mem.old mem.new }
{
    let answer = ask(
        alloc,
        program,
        state,
        mem,
        low(number),
        low(x),
        low(y),
        low(z),
    )?;
    if let Reply::Exit(status) = answer {
        return Ok(Taken::Stops(Stop::Exit(status)));
    }
    put_answer(program, state, answer)?;
    Ok(Taken::Went)
}

/// Does a service, and moves what it wrote to the output.
fn ask<M: Memory>(
    alloc: Global,
    program: &Program,
    state: &mut PlainState,
    mem: &mut M,
    number: u32,
    x: u32,
    y: u32,
    z: u32,
) -> Result<Reply, AllocError>
    requires whole { M.whole mem.old }
    requires ready { M.ready mem.old }
    ensures reply { IfOk result (λ r. r ≡ (served (step.numbers_in program.now.header) number x y z (world_of (M.contents mem.old) state.old.streams)).reply) }
    ensures state { IfOk result (λ r. state_of state.new (M.contents mem.new)
        ≡ with_served (state_of state.old (M.contents mem.old)) (served (step.numbers_in program.now.header) number x y z (world_of (M.contents mem.old) state.old.streams))) }
    ensures whole { M.whole mem.new }
    ensures ready { M.ready mem.new }
    ensures follows { M.follows mem.old mem.new }
{
    let numbers = numbers_of(&program.header);
    let answer = reply(&numbers, number, x, y, z, mem, &mut state.streams);
    drain(alloc, &mut state.streams, &mut state.output)?;
    Ok(answer)
}

/// Puts a service's result and its error flag into their variables.
fn put_answer(program: &Program, state: &mut PlainState, answer: Reply) -> Result<(), AllocError>
    ensures { IfOk result (λ u. (m : Contents) → state_of state.new m ≡ put (put (state_of state.old m)
        Var.ServeR (result_of program.now.header.carry answer)) Var.ServeE (error_of answer)) }
{
    put_var(
        state,
        Var::ServeR,
        result_value(program.header.carry, answer),
    )?;
    put_var(state, Var::ServeE, error_value(answer))
}
