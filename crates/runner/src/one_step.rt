//! One step of the machine: one instruction, its service, and where control goes from there.
ghost use Rattle.std.specs.Prelude.{◌≡◌, ◌≤◌, ◌<◌, ◌^◌, ◌++◌, ◌&&◌, is_some, [], Some, List, ℕ, All, IsSome};
ghost use Rattle.page_pool.specs.Frames.{spare_of};
ghost use Rattle.paged_space.specs.Follows.{Follows, shared_of};
ghost use Rattle.paged_space.specs.Moves.{StandIn};
ghost use Rattle.paged_space.specs.PageTable.{contents_of};
ghost use Rattle.points.specs.declared.block.JumpKind.{JumpKind};
ghost use Rattle.points.specs.Control.{Flow};
ghost use Rattle.points.specs.Running.{step as next_of, performed, finished as finished_by, with_answer, control_behind, service_due, world_of};
ghost use Rattle.rtl_core.specs.declared.conv.ServiceShape.{ServiceShape};
ghost use Rattle.rtl_core.specs.Services.{asked, answered};
ghost use Rattle.rtl_core.specs.SoundTerms.{IsSoundTransfer};
ghost use Rattle.rtl_core.specs.Transfers.{all_transferred, fresh};
ghost use Rattle.rtl_meaning.specs.Effects.{doing, finished};
ghost use Rattle.rtl_meaning.specs.Saved.{Fits};
ghost use Rattle.sysemu.specs.Ends.{end_of};
ghost use Rattle.sysemu.specs.Streams.{flow_after};
ghost use Rattle.graph_control.specs.Programs.{IsAt, IsPlaced, IsSteered};
ghost use Rattle.runner.specs.Guests.{IsSoundChart, FitsChart};
ghost use Rattle.graph_control.specs.Charts.{control_of, chart_of};
ghost use Rattle.runner.specs.Shown.{state_of, moment};
ghost use Rattle.runner.specs.Doing.{did_of, HasNode, Turns, IsServed};
ghost use Rattle.graph_control.specs.Ways.{IsLookup};

use crate::run_state::RunState;
use graph_control::{Charted, Position};
use page_pool::Pool;
use paged_space::View;
use points::{Block, Node};
use rtl_core::{Conv, GroundInst, Stop};
use rtl_meaning::{Effect, run_acts};
use sysemu::{Served, serve};

/// One step: what it writes is pending then, and the answer is its stop where it stops. No memory is taken.
///
/// `Undiscovered` comes at an address that is no code, and `Illegal` at code that is no instruction of the machine.
pub fn advance(on: &Charted, state: &mut RunState, pool: &mut Pool) -> Option<Stop>
    requires sound { IsSoundChart (chart_of on.now) }
    requires lookup { IsLookup (chart_of on.now) on.now.lookup.now }
    requires fits { FitsChart (chart_of on.now) state.old }
    requires empty { state.old.streams.pending ≡ [] }
    requires stands { StandIn state.old.space.frames pool.old }
    requires ready { shared_of state.old.space pool.old ≤ spare_of pool.old }
    ensures step { (f : Flow) → IsAt (chart_of on.now) f state.old.position → (before : List ℕ) →
        moment result (state_of (before ++ state.new.streams.pending) pool.new state.new) ≡ next_of f (state_of before pool.old state.old) }
    ensures place { (f : Flow) → IsAt (chart_of on.now) f state.old.position → IsPlaced (chart_of on.now) result state.new.position }
    ensures fits { FitsChart (chart_of on.now) state.new }
    ensures stands { StandIn state.new.space.frames pool.new }
    ensures ready { shared_of state.new.space pool.new ≤ spare_of pool.new }
    ensures follows { Follows state.old.space state.new.space pool.old pool.new }
{
    let place = state.position.place;
    // Control stands at a node in each run of the program.
    let Some(node) = on.graph.nodes.get(place) else {
        return Some(Stop::Undiscovered(state.position.point.pc));
    };
    let pc = address_of(node);
    match &node.block {
        Block::Outside => Some(Stop::Undiscovered(pc)),
        Block::Illegal => Some(Stop::Illegal(pc)),
        Block::Inst(inst, _) => perform(on, state, pool, inst),
    }
}

/// The address of a node.
fn address_of(node: &Node) -> u32
    ensures is { result ≡ node.now.point.pc }
    ensures fits { node.now.point.pc < 2 ^ 32 }
{
    node.point.pc
}

/// The transfers of the instruction at the point, up to their stop; without one its service, and where control goes.
fn perform(on: &Charted, state: &mut RunState, pool: &mut Pool, inst: &GroundInst) -> Option<Stop>
    requires sound { IsSoundChart (chart_of on.now) }
    requires transfers { All (IsSoundTransfer on.now.machine.now) inst.now.transfers }
    requires lookup { IsLookup (chart_of on.now) on.now.lookup.now }
    requires fits { FitsChart (chart_of on.now) state.old }
    requires empty { state.old.streams.pending ≡ [] }
    requires stands { StandIn state.old.space.frames pool.old }
    requires ready { shared_of state.old.space pool.old ≤ spare_of pool.old }
    ensures step { (f : Flow) (kind : JumpKind) → IsAt (chart_of on.now) f state.old.position → HasNode (chart_of on.now) state.old.position inst.now kind → (before : List ℕ) →
        moment result (state_of (before ++ state.new.streams.pending) pool.new state.new) ≡ performed f inst.now kind (state_of before pool.old state.old) }
    ensures place { (f : Flow) (kind : JumpKind) → IsAt (chart_of on.now) f state.old.position → HasNode (chart_of on.now) state.old.position inst.now kind → IsPlaced (chart_of on.now) result state.new.position }
    ensures fits { FitsChart (chart_of on.now) state.new }
    ensures stands { StandIn state.new.space.frames pool.new }
    ensures ready { shared_of state.new.space pool.new ≤ spare_of pool.new }
    ensures follows { Follows state.old.space state.new.space pool.old pool.new }
{
    let effect = transfer(on, state, pool, inst);
    match effect.stop {
        Some(stop) => Some(stop),
        None => finish(on, state, pool, &effect),
    }
}

/// The transfers of the instruction at the point.
fn transfer(on: &Charted, state: &mut RunState, pool: &mut Pool, inst: &GroundInst) -> Effect
    requires transfers { All (IsSoundTransfer on.now.machine.now) inst.now.transfers }
    requires fits { Fits on.now.machine.now state.old.cells.values state.old.windows }
    requires stands { StandIn state.old.space.frames pool.old }
    requires ready { shared_of state.old.space pool.old ≤ spare_of pool.old }
    ensures exact { all_transferred on.now.machine.now state.old.position.point.pc inst.now.transfers
        (fresh state.old.cells.values (contents_of state.old.space pool.old) state.old.windows)
        ≡ finished result.stop (doing state.new.cells.values (contents_of state.new.space pool.new) state.new.windows result) }
    ensures kept { state.new ≡ record state.old { cells = state.new.cells; windows = state.new.windows; space = state.new.space } }
    ensures fits { Fits on.now.machine.now state.new.cells.values state.new.windows }
    ensures stands { StandIn state.new.space.frames pool.new }
    ensures ready { shared_of state.new.space pool.new ≤ spare_of pool.new }
    ensures follows { Follows state.old.space state.new.space pool.old pool.new }
{
    let pc = state.position.point.pc;
    let mut memory = View {
        space: &mut state.space,
        pool,
    };
    run_acts(
        on.machine,
        inst,
        pc,
        &mut state.cells,
        &mut memory,
        &mut state.windows,
    )
}

/// The service where one is due, and where control goes.
fn finish(on: &Charted, state: &mut RunState, pool: &mut Pool, effect: &Effect) -> Option<Stop>
    requires sound { IsSoundChart (chart_of on.now) }
    requires lookup { IsLookup (chart_of on.now) on.now.lookup.now }
    requires fits { FitsChart (chart_of on.now) state.old }
    requires empty { state.old.streams.pending ≡ [] }
    requires stands { StandIn state.old.space.frames pool.old }
    requires ready { shared_of state.old.space pool.old ≤ spare_of pool.old }
    ensures step { (f : Flow) (roots : List ℕ) (inst : GroundInst) (kind : JumpKind) → Turns (chart_of on.now) f roots state.old.position inst kind effect.now → (before : List ℕ) →
        moment result (state_of (before ++ state.new.streams.pending) pool.new state.new)
        ≡ finished_by f (did_of inst kind effect.now) (service_due effect.now.service f.setting.conv.service) (state_of before pool.old state.old) }
    ensures place { (f : Flow) (roots : List ℕ) (inst : GroundInst) (kind : JumpKind) → Turns (chart_of on.now) f roots state.old.position inst kind effect.now → IsPlaced (chart_of on.now) result state.new.position }
    ensures fits { FitsChart (chart_of on.now) state.new }
    ensures stands { StandIn state.new.space.frames pool.new }
    ensures ready { shared_of state.new.space pool.new ≤ spare_of pool.new }
    ensures follows { Follows state.old.space state.new.space pool.old pool.new }
{
    if is_due(effect.service, on.conv) {
        return answer(on, state, pool, effect);
    }
    turn(on, &mut state.position, effect)
}

/// Whether a service is done: where the instruction asks for one and the conventions have one.
fn is_due(asked: bool, conv: &Conv) -> bool
    ensures { result ≡ (asked && is_some conv.now.service) }
{
    asked && conv.service.is_some()
}

/// The service that the cells ask for, which ends the run or is answered in them, and where control goes.
fn answer(on: &Charted, state: &mut RunState, pool: &mut Pool, effect: &Effect) -> Option<Stop>
    requires sound { IsSoundChart (chart_of on.now) }
    requires service { IsSome on.now.conv.now.service }
    requires lookup { IsLookup (chart_of on.now) on.now.lookup.now }
    requires fits { FitsChart (chart_of on.now) state.old }
    requires empty { state.old.streams.pending ≡ [] }
    requires stands { StandIn state.old.space.frames pool.old }
    requires ready { shared_of state.old.space pool.old ≤ spare_of pool.old }
    ensures step { (shape : ServiceShape) → on.now.conv.now.service ≡ Some shape →
        (f : Flow) (roots : List ℕ) (inst : GroundInst) (kind : JumpKind) → Turns (chart_of on.now) f roots state.old.position inst kind effect.now → (before : List ℕ) →
        moment result (state_of (before ++ state.new.streams.pending) pool.new state.new)
        ≡ with_answer f (did_of inst kind effect.now) shape (asked on.now.conv.now shape state.old.cells.values (world_of (state_of before pool.old state.old))) (state_of before pool.old state.old) }
    ensures place { (f : Flow) (roots : List ℕ) (inst : GroundInst) (kind : JumpKind) → Turns (chart_of on.now) f roots state.old.position inst kind effect.now → IsPlaced (chart_of on.now) result state.new.position }
    ensures fits { FitsChart (chart_of on.now) state.new }
    ensures stands { StandIn state.new.space.frames pool.new }
    ensures ready { shared_of state.new.space pool.new ≤ spare_of pool.new }
    ensures follows { Follows state.old.space state.new.space pool.old pool.new }
{
    match ask(on, state, pool) {
        Served::Exit(status) => Some(Stop::Exit(status)),
        Served::Go => turn(on, &mut state.position, effect),
    }
}

/// The service that the cells ask for.
fn ask(on: &Charted, state: &mut RunState, pool: &mut Pool) -> Served
    requires sound { IsSoundChart (chart_of on.now) }
    requires service { IsSome on.now.conv.now.service }
    requires fits { FitsChart (chart_of on.now) state.old }
    requires empty { state.old.streams.pending ≡ [] }
    requires stands { StandIn state.old.space.frames pool.old }
    requires ready { shared_of state.old.space pool.old ≤ spare_of pool.old }
    ensures end { (s : ServiceShape) → on.now.conv.now.service ≡ Some s →
        result ≡ end_of (asked on.now.conv.now s state.old.cells.values (world_of (state_of [] pool.old state.old))).reply }
    ensures cells { (s : ServiceShape) → on.now.conv.now.service ≡ Some s →
        state.new.cells.values ≡ answered on.now.machine.now.zero s (asked on.now.conv.now s state.old.cells.values (world_of (state_of [] pool.old state.old))).reply state.old.cells.values }
    ensures memory { (s : ServiceShape) → on.now.conv.now.service ≡ Some s →
        contents_of state.new.space pool.new ≡ (asked on.now.conv.now s state.old.cells.values (world_of (state_of [] pool.old state.old))).world.memory }
    ensures streams { (s : ServiceShape) → on.now.conv.now.service ≡ Some s →
        state.new.streams ≡ flow_after (asked on.now.conv.now s state.old.cells.values (world_of (state_of [] pool.old state.old))) }
    ensures windows { state.new.windows ≡ state.old.windows }
    ensures position { state.new.position ≡ state.old.position }
    ensures fits { FitsChart (chart_of on.now) state.new }
    ensures stands { StandIn state.new.space.frames pool.new }
    ensures ready { shared_of state.new.space pool.new ≤ spare_of pool.new }
    ensures follows { Follows state.old.space state.new.space pool.old pool.new }
{
    let mut memory = View {
        space: &mut state.space,
        pool,
    };
    serve(
        on.machine,
        on.conv,
        &mut state.cells,
        &mut memory,
        &mut state.streams,
    )
}

/// Where control goes behind an instruction, by what it did.
fn turn(on: &Charted, position: &mut Position, effect: &Effect) -> Option<Stop>
    requires lookup { IsLookup (chart_of on.now) on.now.lookup.now }
    ensures { (f : Flow) (roots : List ℕ) (inst : GroundInst) (kind : JumpKind) → Turns (chart_of on.now) f roots position.old inst kind effect.now →
        IsSteered (chart_of on.now) (control_behind f (did_of inst kind effect.now) (control_of position.old)) result position.new }
{
    // Each node has its ways.
    let Some(ways) = on.lookup.ways_at(position.place) else {
        return Some(Stop::Couple(position.point.pc));
    };
    position.keep(effect.jump);
    on.follow(position, &ways.of(effect.jump.is_some(), effect.annul))
}
