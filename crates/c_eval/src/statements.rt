//! Statements, once their expressions have values.
ghost use Rattle.std.specs.Prelude.{◌≡◌, ◌++◌, IfOk, OnOk, MatchOption, slice_get, ◌%◌, ◌^◌, [], true, false};
ghost use Rattle.rtl_core.specs.Access.{is_size};
ghost use Rattle.rtl_core.specs.Contents.{Contents};
ghost use Rattle.rtl_core.specs.Services.{result_of as result_number, error_of as error_flag};
ghost use Rattle.c_lang.specs.declared.tree.Program.{Program};
ghost use Rattle.c_lang.specs.State.{State};
ghost use Rattle.c_lang.specs.Step as step;
ghost use Rattle.c_eval.specs.declared.state.PlainState.{PlainState};
ghost use Rattle.c_eval.specs.Plain.{state_of, place_of, moment};

use crate::state::{PlainState, Taken, Word};
use crate::vars::{is_declared, put_var, word_of};
use c_lang::{Header, Program, Var};
use rtl_core::{Memory, Numbers, Stop, Trap, load, store};
use sqlite_items::Items;
use std::alloc::{AllocError, Global};
use sysemu::{Reply, Streams};

/// How many words `uq_w` has.
const MOST_WORDS: u64 = 1_048_576;

/// Gives a value to a variable; sticks where the function has no such variable.
pub fn assign(
    program: &Program,
    state: &mut PlainState,
    v: Var,
    n: u64,
) -> Result<Taken, AllocError>
    ensures { IfOk result (λ t. (m : Contents) →
        moment t program.now (state_of state.old m) (state_of state.new m) ≡ step.assign program.now (state_of state.old m) (place_of state.old.top.place) v n) }
{
    if !is_declared(program, state.top.function, v) {
        return Ok(Taken::Sticks);
    }
    put_var(state, v, n)?;
    Ok(Taken::Went)
}

/// Takes a word of `uq_w` into a variable.
pub fn take_word(
    program: &Program,
    state: &mut PlainState,
    v: Var,
    i: u64,
) -> Result<Taken, AllocError>
    ensures { IfOk result (λ t. (m : Contents) →
        moment t program.now (state_of state.old m) (state_of state.new m) ≡ step.take_word program.now (state_of state.old m) (place_of state.old.top.place) v i) }
{
    if i >= MOST_WORDS {
        return Ok(Taken::Sticks);
    }
    let n = word_of(state.words.as_slice(), i);
    assign(program, state, v, n)
}

/// Puts a number into a word of `uq_w`.
#[tactic(auto, using(crate::proofs::PlainLaws::words_push))]
pub fn put_word(state: &mut PlainState, i: u64, n: u64) -> Result<Taken, AllocError>
    ensures { IfOk result (λ t. (p : Program) (m : Contents) →
        moment t p (state_of state.old m) (state_of state.new m) ≡ step.put_word p (state_of state.old m) (place_of state.old.top.place) i n) }
{
    if i >= MOST_WORDS {
        return Ok(Taken::Sticks);
    }
    state.words.push(Word { index: i, value: n })?;
    Ok(Taken::Went)
}

/// Stops with a number and a value; sticks at a number over 11.
pub fn stop_with(k: u64, v: u64) -> Taken
    ensures { (p : Program) (old new : State) → moment result p old new ≡ step.stop_with p old k v }
{
    match named_stop(k, low(v)) {
        None => Taken::Sticks,
        Some(stop) => Taken::Stops(stop),
    }
}

/// The stop of this number.
fn named_stop(k: u64, v: u32) -> Option<Stop>
    ensures { result ≡ slice_get (step.named_stops v) k }
{
    let stops = [
        Stop::Exit(v),
        Stop::Illegal(v),
        Stop::MemoryFault(v),
        Stop::Misaligned(v),
        Stop::Divide(v),
        Stop::Trap(v),
        Stop::WindowFull,
        Stop::WindowEmpty,
        Stop::Undiscovered(v),
        Stop::ReturnMismatch(v),
        Stop::CallDepth,
        Stop::Couple(v),
    ];
    stops.get(k as usize).copied()
}

/// A number modulo 2 to the 32.
pub fn low(n: u64) -> u32
    ensures { result ≡ n % 2 ^ 32 }
{
    (n % 0x1_0000_0000) as u32
}

/// The stop of a fault of memory.
fn memory_stop(trap: Trap) -> Stop
    ensures { result ≡ step.memory_stop trap }
{
    match trap {
        Trap::Memory(a) => Stop::MemoryFault(a),
        Trap::Misaligned(a) => Stop::Misaligned(a),
        Trap::Divide => Stop::Divide(0),
    }
}

/// The size of an access, where the number is one.
fn size_of(n: u64) -> Option<u8>
    ensures { MatchOption result (is_size n ≡ false) (λ b. (is_size n ≡ true) × (b ≡ n)) }
{
    match n {
        1 => Some(1),
        2 => Some(2),
        4 => Some(4),
        8 => Some(8),
        _ => None,
    }
}

/// Loads `n` bytes at `a` into a variable.
pub fn load_into<M: Memory>(
    program: &Program,
    state: &mut PlainState,
    mem: &M,
    v: Var,
    n: u64,
    a: u64,
) -> Result<Taken, AllocError>
    requires { M.whole mem.now }
    ensures { IfOk result (λ t. moment t program.now (state_of state.old (M.contents mem.now)) (state_of state.new (M.contents mem.now))
        ≡ step.load_into program.now (state_of state.old (M.contents mem.now)) (place_of state.old.top.place) v n a) }
{
    match size_of(n) {
        None => Ok(Taken::Sticks),
        Some(bytes) => match load(mem, program.header.order, program.header.align, bytes, a) {
            Err(trap) => Ok(Taken::Stops(memory_stop(trap))),
            Ok(value) => assign(program, state, v, value),
        },
    }
}

/// Stores a number in `n` bytes at `a`.
pub fn store_at<M: Memory>(program: &Program, mem: &mut M, n: u64, a: u64, v: u64) -> Taken
    requires whole { M.whole mem.old }
    requires ready { M.ready mem.old }
    ensures step { (s : PlainState) → moment result program.now (state_of s (M.contents mem.old)) (state_of s (M.contents mem.new))
        ≡ step.store_at program.now (state_of s (M.contents mem.old)) (place_of s.top.place) n a v }
    ensures whole { M.whole mem.new }
    ensures ready { M.ready mem.new }
    ensures follows { M.follows mem.old mem.new }
{
    match size_of(n) {
        None => Taken::Sticks,
        Some(bytes) => match store(mem, program.header.order, program.header.align, bytes, a, v) {
            Err(trap) => Taken::Stops(memory_stop(trap)),
            Ok(()) => Taken::Went,
        },
    }
}

/// The numbers of a header's services.
pub fn numbers_of(h: &Header) -> Numbers
    ensures { result ≡ step.numbers_in h.now }
{
    Numbers {
        exit: h.exit,
        read: h.read,
        write: h.write,
        brk: h.brk,
        fault: h.fault,
        descriptor: h.descriptor,
        unknown: h.unknown,
        heap_base: h.heap_base,
        heap_size: h.heap_size,
    }
}

/// Moves what is pending to the end of the output.
pub fn drain(alloc: Global, streams: &mut Streams, output: &mut Items<u8>) -> Result<(), AllocError>
    ensures streams { streams.new ≡ record streams.old { pending = [] } }
    ensures output { OnOk result (output.new ≡ output.old ++ streams.old.pending) }
{
    let taken = Items::from_slice(alloc, streams.pending());
    streams.drained();
    output.append(taken?)
}

/// The result of a service, and its error flag.
pub fn result_value(carry: bool, answer: Reply) -> u64
    ensures { result ≡ result_number carry answer }
{
    match answer {
        Reply::Exit(_) => 0,
        Reply::Value(k) => u64::from(k),
        Reply::Error(e) => u64::from(if carry { e } else { 0u32.wrapping_sub(e) }),
    }
}

/// 1 for an error, else 0.
pub fn error_value(answer: Reply) -> u64
    ensures { result ≡ error_flag answer }
{
    match answer {
        Reply::Error(_) => 1,
        _ => 0,
    }
}
