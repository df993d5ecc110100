//! Ends of blocks.
ghost use Rattle.std.specs.Prelude.{◌≡◌, IfOk, slice_get};
ghost use Rattle.std.specs.Option.{option_copied};
ghost use Rattle.rtl_core.specs.Contents.{Contents};
ghost use Rattle.rtl_core.specs.Value.{choice};
ghost use Rattle.c_lang.specs.declared.tree.Program.{Program};
ghost use Rattle.c_lang.specs.State.{State};
ghost use Rattle.c_lang.specs.Step as step;
ghost use Rattle.c_eval.specs.Plain.{state_of, place_of, moment, led, at_end};

use crate::calls::return_to_caller;
use crate::expressions::value_of;
use crate::places::{move_to, start_of};
use crate::state::{PlainPlace, PlainState, Taken, Way};
use crate::statements::stop_with;
use c_lang::{CBlock, CExpr, Case, End, Program};
use rtl_core::{Point, Slot};
use std::alloc::{AllocError, Global};

/// Does what the end says, where no statement is left; sticks in a function that has no block.
pub fn finish(alloc: Global, program: &Program, state: &mut PlainState) -> Result<Taken, AllocError>
    ensures { IfOk result (λ t. (m : Contents) →
        moment t program.now (state_of state.old m) (state_of state.new m) ≡ at_end program.now (state_of state.old m) (place_of state.old.top.place)) }
{
    match way(state) {
        Way::On(to) => go_to(alloc, program, state, &to),
        Way::Back => Ok(return_to_caller(state)),
        Way::Over(taken) => Ok(taken),
    }
}

/// What the end decides that the call on top stands before.
fn way(state: &PlainState) -> Way
    ensures { (p : Program) (m : Contents) → led result p (state_of state.now m) ≡ at_end p (state_of state.now m) (place_of state.now.top.place) }
{
    match &state.top.place {
        PlainPlace::Nowhere => Way::Over(Taken::Sticks),
        PlainPlace::At(_, end) => way_of(state, end),
    }
}

/// What an end decides.
#[tactic(auto, unfolding(c_lang::specs::Step::ended))]
fn way_of(state: &PlainState, end: &End) -> Way
    ensures { (p : Program) (m : Contents) → led result p (state_of state.now m) ≡ step.ended p (state_of state.now m) end.now }
{
    match end {
        End::Goto(to) => Way::On(*to),
        End::Branch(e, first, second) => branch(state, e, *first, *second),
        End::Switch(e, cases, k, other) => switch(state, e, cases.as_slice(), *k, other),
        End::Return => Way::Back,
        End::Finish(k, e) => Way::Over(stop_by(state, *k, e)),
    }
}

/// On at a label of the same function; sticks where there is no such label.
#[tactic(auto, unfolding(c_lang::specs::Step::go_to))]
fn go_to(
    alloc: Global,
    program: &Program,
    state: &mut PlainState,
    to: &Point,
) -> Result<Taken, AllocError>
    ensures { IfOk result (λ t. (m : Contents) →
        moment t program.now (state_of state.old m) (state_of state.new m) ≡ step.go_to program.now (state_of state.old m) to.now) }
{
    match block_of(blocks_in(program, state.top.function), to) {
        None => Ok(Taken::Sticks),
        Some(block) => {
            let place = start_of(alloc, block)?;
            move_to(state, place);
            Ok(Taken::Went)
        }
    }
}

/// The blocks of a function that may not be there.
fn blocks_in(program: &Program, function: usize) -> &[CBlock]
    ensures { result.now ≡ step.blocks_in (slice_get program.now.functions function) }
{
    match program.functions.get(function) {
        None => &[],
        Some(f) => f.blocks.as_slice(),
    }
}

/// The first block of a label.
fn block_of<'a>(blocks: &'a [CBlock], to: &Point) -> Option<&'a CBlock>
    ensures { option_copied result ≡ step.block_of blocks.now to.now }
{
    for b in blocks {
        if is_same_point(&b.label, to) {
            return Some(b);
        }
    }
    None
}

/// Whether two points are one.
fn is_same_point(a: &Point, b: &Point) -> bool
    ensures { result ≡ step.same_point a.now b.now }
{
    a.pc == b.pc && is_same_slot(a.slot, b.slot)
}

/// Whether two slots are one.
fn is_same_slot(a: Slot, b: Slot) -> bool
    ensures { result ≡ step.same_slot a b }
{
    match (a, b) {
        (Slot::Seq, Slot::Seq) | (Slot::Ret, Slot::Ret) => true,
        (Slot::To(t), Slot::To(u)) => t == u,
        (Slot::Dyn(t), Slot::Dyn(u)) => t == u,
        (Slot::CallTo(t, r), Slot::CallTo(u, q)) => t == u && r == q,
        (Slot::CallDyn(r), Slot::CallDyn(q)) => r == q,
        _ => false,
    }
}

/// On at the first label unless the condition is 0, else at the second.
fn branch(state: &PlainState, e: &CExpr, first: Point, second: Point) -> Way
    ensures { (p : Program) (m : Contents) → led result p (state_of state.now m)
        ≡ step.with_value p (state_of state.now m) e.now (λ n. step.go_to p (state_of state.now m) (choice n first second)) }
{
    match value_of(state, e) {
        None => Way::Over(Taken::Sticks),
        Some(n) => Way::On(chosen(n, first, second)),
    }
}

/// The first point unless a number is 0, else the second.
#[tactic(auto, using(crate::proofs::PlainLaws::choice_more))]
fn chosen(n: u64, first: Point, second: Point) -> Point
    ensures { result ≡ choice n first second }
{
    if n == 0 { second } else { first }
}

/// On at a case, or else stops by the default.
fn switch(state: &PlainState, e: &CExpr, cases: &[Case], k: u64, other: &CExpr) -> Way
    ensures { (p : Program) (m : Contents) → led result p (state_of state.now m)
        ≡ step.with_value p (state_of state.now m) e.now (λ n. step.or_default (step.case_of cases.now n)
        (step.with_value p (state_of state.now m) other.now (step.stop_with p (state_of state.now m) k)) (step.go_to p (state_of state.now m))) }
{
    match value_of(state, e) {
        None => Way::Over(Taken::Sticks),
        Some(n) => match case_of(cases, n) {
            None => Way::Over(stop_by(state, k, other)),
            Some(to) => Way::On(to),
        },
    }
}

/// The first case of a number.
fn case_of(cases: &[Case], n: u64) -> Option<Point>
    ensures { result ≡ step.case_of cases.now n }
{
    for c in cases {
        if c.value == n {
            return Some(c.to);
        }
    }
    None
}

/// Stops with a number and an expression's value.
pub fn stop_by(state: &PlainState, k: u64, e: &CExpr) -> Taken
    ensures { (p : Program) (m : Contents) (new : State) → moment result p (state_of state.now m) new
        ≡ step.with_value p (state_of state.now m) e.now (step.stop_with p (state_of state.now m) k) }
{
    match value_of(state, e) {
        None => Taken::Sticks,
        Some(v) => stop_with(k, v),
    }
}
