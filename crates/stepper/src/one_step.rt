//! One step of the machine: one instruction, its service, and where control goes from there.
ghost use Rattle.std.specs.Prelude.{◌≡◌, ◌++◌, ◌&&◌, is_some, [], Some, List, ℕ, All, IfOk, OnErr, IsSome};
ghost use Rattle.rtl_core.specs.declared.conv.ServiceShape.{ServiceShape};
ghost use Rattle.rtl_core.specs.Services.{asked};
ghost use Rattle.rtl_core.specs.SoundTerms.{IsSoundTransfer};
ghost use Rattle.points.specs.Machine.{Setting, State, step as next_of, controlled, finished, performed, with_answer, world_of};
ghost use Rattle.stepper.specs.Shown.{state_of, did_of, moment, FitsSetting};
ghost use Rattle.points.specs.Bundles.{setting_of, IsSoundSetting};

use crate::run_state::RunState;
use decode::{Bundle, Found, inst_at};
use rtl_core::{Conv, GroundInst, Point, Slot, Stop, try_ground};
use rtl_meaning::{Effect, run_acts};
use std::alloc::{AllocError, Global};
use sysemu::{Served, serve};

/// One step: what it writes is pending then, and the answer is its stop where it stops. At an `Err` there was no memory, and the
/// state is as it was.
///
/// `Undiscovered` comes at an address that is no code, and `Illegal` at code that is no instruction of the machine.
pub fn advance(alloc: Global, on: &Bundle, state: &mut RunState) -> Result<Option<Stop>, AllocError>
    requires sound { IsSoundSetting (setting_of on.now) }
    requires fits { FitsSetting (setting_of on.now) state.old }
    requires empty { state.old.streams.pending ≡ [] }
    ensures step { IfOk result (λ stop. (before : List ℕ) →
        moment stop (state_of (before ++ state.new.streams.pending) state.new) ≡ next_of (setting_of on.now) (state_of before state.old)) }
    ensures fits { FitsSetting (setting_of on.now) state.new }
    ensures err { OnErr result (state.new ≡ state.old) }
{
    let pc = state.point.pc;
    match inst_at(on, pc) {
        Found::Outside => Ok(Some(Stop::Undiscovered(pc))),
        Found::Illegal => Ok(Some(Stop::Illegal(pc))),
        Found::Inst(found) => match try_ground(alloc, on.machine, &found.inst, pc, found.len)? {
            None => Ok(Some(Stop::Illegal(pc))),
            Some(inst) => Ok(perform(on, state, &inst)),
        },
    }
}

/// The transfers of the instruction at the point, up to their stop; without one its service, and where control goes.
fn perform(on: &Bundle, state: &mut RunState, inst: &GroundInst) -> Option<Stop>
    requires sound { IsSoundSetting (setting_of on.now) }
    requires transfers { All (IsSoundTransfer on.now.machine.now) inst.now.transfers }
    requires fits { FitsSetting (setting_of on.now) state.old }
    requires empty { state.old.streams.pending ≡ [] }
    ensures step { (before : List ℕ) →
        moment result (state_of (before ++ state.new.streams.pending) state.new) ≡ performed (setting_of on.now) inst.now (state_of before state.old) }
    ensures fits { FitsSetting (setting_of on.now) state.new }
{
    let pc = state.point.pc;
    let effect = run_acts(
        on.machine,
        inst,
        pc,
        &mut state.cells,
        &mut state.space,
        &mut state.windows,
    );
    match effect.stop {
        Some(stop) => Some(stop),
        None => finish(on, state, inst, &effect),
    }
}

/// The service where one is due, and where control goes.
fn finish(on: &Bundle, state: &mut RunState, inst: &GroundInst, effect: &Effect) -> Option<Stop>
    requires sound { IsSoundSetting (setting_of on.now) }
    requires fits { FitsSetting (setting_of on.now) state.old }
    requires empty { state.old.streams.pending ≡ [] }
    ensures step { (before : List ℕ) →
        moment result (state_of (before ++ state.new.streams.pending) state.new)
        ≡ finished (setting_of on.now) (did_of inst.now effect.now) effect.now.service on.now.conv.now.service (state_of before state.old) }
    ensures fits { FitsSetting (setting_of on.now) state.new }
{
    if is_due(effect.service, on.conv) {
        return answer(on, state, inst, effect);
    }
    control(&mut state.point, inst, effect)
}

/// Whether a service is done: where the instruction asks for one and the conventions have one.
fn is_due(asked: bool, conv: &Conv) -> bool
    ensures { result ≡ (asked && is_some conv.now.service) }
{
    asked && conv.service.is_some()
}

/// The service that the cells ask for, which ends the run or is answered in them, and where control goes.
fn answer(on: &Bundle, state: &mut RunState, inst: &GroundInst, effect: &Effect) -> Option<Stop>
    requires sound { IsSoundSetting (setting_of on.now) }
    requires service { IsSome on.now.conv.now.service }
    requires fits { FitsSetting (setting_of on.now) state.old }
    requires empty { state.old.streams.pending ≡ [] }
    ensures step { (shape : ServiceShape) → on.now.conv.now.service ≡ Some shape → (before : List ℕ) →
        moment result (state_of (before ++ state.new.streams.pending) state.new)
        ≡ with_answer (setting_of on.now) (did_of inst.now effect.now) shape
        (asked on.now.conv.now shape state.old.cells.values (world_of (state_of before state.old))) (state_of before state.old) }
    ensures fits { (shape : ServiceShape) → on.now.conv.now.service ≡ Some shape → FitsSetting (setting_of on.now) state.new }
{
    match serve(
        on.machine,
        on.conv,
        &mut state.cells,
        &mut state.space,
        &mut state.streams,
    ) {
        Served::Exit(status) => Some(Stop::Exit(status)),
        Served::Go => control(&mut state.point, inst, effect),
    }
}

/// Where control goes: behind the instruction, or to the stop of one that jumped or annulled.
fn control(point: &mut Point, inst: &GroundInst, effect: &Effect) -> Option<Stop>
    ensures { (setting : Setting) (s : State) → s.point ≡ point.old →
        moment result (record s { point = point.new }) ≡ controlled setting (did_of inst.now effect.now) s }
{
    if effect.annul || effect.jump.is_some() {
        return Some(Stop::Couple(point.pc));
    }
    *point = Point {
        pc: inst.next,
        slot: Slot::Seq,
    };
    None
}
