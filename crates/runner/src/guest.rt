//! The described machine as a program that steps.
ghost use Rattle.std.specs.Prelude.{◌≡◌, ◌≤◌, ◌++◌, [], ℕ, List, None, is_some, IfOk, MatchResult};
ghost use Rattle.rtl_core.specs.declared.stop.RunEnd.TheVariants.{Spent};
ghost use Rattle.rtl_core.specs.FirstMemory.{first_cells};
ghost use Rattle.rtl_core.specs.SoundConv.{IsSoundConv, FitsMachine};
ghost use Rattle.rtl_meaning.specs.Saved.{HaveShape};
ghost use Rattle.page_pool.specs.Frames.{Frames, spare_of};
ghost use Rattle.paged_space.specs.Follows.{Follows, shared_of};
ghost use Rattle.paged_space.specs.Moves.{StandIn};
ghost use Rattle.paged_space.specs.PageTable.{contents_of};
ghost use Rattle.paged_space.specs.Twinned.{IsGivenBack};
ghost use Rattle.points.specs.Control.{Flow};
ghost use Rattle.points.specs.Running.{first_state, step as next_of};
ghost use Rattle.graph_control.specs.Programs.{HasProgram, IsProgram, IsAt};
ghost use Rattle.runner.specs.Guests.{Runs};
ghost use Rattle.graph_control.specs.Charts.{Chart};
ghost use Rattle.runner.specs.Shown.{IsReady, state_of, moment};
ghost use Rattle.graph_control.specs.Ways.{IsLookup};
ghost use Rattle.runner.specs.Ran.{Came, TellsStop, Took, moment_of, written, end_after, AddsWritten};

use crate::one_step::advance;
use crate::run_state::{FirstParts, RunState, first_parts};
use edge_io::{Sink, put_all};
use graph_control::{Charted, Lookup, Position, lookup_of};
use page_pool::Pool;
use paged_space::{Space, Unbuilt};
use points::{Graph, sequential};
use rtl_core::{Conv, Machine, RunEnd, Stop};
use std::alloc::{AllocError, Global};
use std::marker::Model;

/// A described machine that runs an image. Contracts see what its run is made on, the state that it is in, and whether it has stopped.
///
/// Its space stands in a pool, to which it has to be given back.
pub struct Guest<'a> {
    machine: &'a Machine,
    conv: &'a Conv,
    graph: &'a Graph,
    lookup: Lookup,
    state: RunState,
    stopped: bool,
}

impl<'a> Model for Guest<'a> {
    ghost use Rattle.std.specs.Coded.{codes};
    ghost use Rattle.rtl_core.specs.contracts.expr.Expr as expr;
    ghost use Rattle.rtl_core.specs.contracts.template.TExpr as template;
    ghost use Rattle.graph_control.specs.Charts.{Chart};
    ghost use Rattle.runner.specs.Shown.{Shown};
    ghost use Rattle.runner.specs.Guests.{IsWhole};

    ghost Value = { Shown };

    ghost coded = { Prim.hlevel (codes, template.the_row.coded, expr.the_row.coded) };

    ghost view = { λ g. record { chart = record { machine = g.machine.now; conv = g.conv.now; graph = g.graph.now }; state = g.state; stopped = g.stopped } };

    ghost invariant = { λ g. IsWhole (record { machine = g.machine.now; conv = g.conv.now; graph = g.graph.now }) g.lookup g.state };
}

impl<'a> Guest<'a> {
    /// The machine before its first instruction, at `entry`, with this memory and this input. The graph is exactly that of a sound program
    /// with this entry. It takes all memory of a run.
    pub fn build(
        alloc: Global,
        machine: &'a Machine,
        conv: &'a Conv,
        graph: &'a Graph,
        space: Space,
        input: &[u8],
        entry: u32,
    ) -> Result<Guest<'a>, Unbuilt>
        requires { HasProgram (record { machine = machine.now; conv = conv.now; graph = graph.now }) entry }
        ensures chart { IfOk result (λ g. g.chart ≡ record { machine = machine.now; conv = conv.now; graph = graph.now }) }
        ensures state { IfOk result (λ g. (f : Flow) (frames : Frames) → IsProgram g.chart entry f →
            state_of [] frames g.state ≡ first_state f.setting (contents_of space frames) entry input.now) }
        ensures runs { IfOk result (λ g. (f : Flow) → IsProgram g.chart entry f → Runs f g) }
        ensures space { IfOk result (λ g. g.state.space ≡ space) }
        ensures ready { IfOk result (λ g. IsReady g) }
        ensures unbuilt { MatchResult result (λ _. Unit {0}) (λ u. u.space ≡ space) }
    {
        match take_room(alloc, machine, conv, graph, input) {
            Err(_) => Err(Unbuilt { space }),
            Ok(room) => {
                let Room { lookup, parts } = room;
                let FirstParts {
                    cells,
                    windows,
                    streams,
                    calls,
                } = parts;
                let place = lookup.place_of(entry);
                let point = sequential(entry);
                Ok(Guest {
                    machine,
                    conv,
                    graph,
                    lookup,
                    state: RunState {
                        cells,
                        windows,
                        space,
                        streams,
                        position: Position {
                            point,
                            place,
                            target: 0,
                            calls,
                        },
                    },
                    stopped: false,
                })
            }
        }
    }

    /// One step: what it writes is pending then, and the answer is its stop where it stops.
    pub fn step(&mut self, pool: &mut Pool) -> Option<Stop>
        requires ready { IsReady self.old }
        requires stands { StandIn self.old.state.space.frames pool.old }
        requires spare { shared_of self.old.state.space pool.old ≤ spare_of pool.old }
        ensures step { (f : Flow) → Runs f self.old → (before : List ℕ) →
            moment result (state_of (before ++ self.new.state.streams.pending) pool.new self.new.state) ≡ next_of f (state_of before pool.old self.old.state) }
        ensures runs { (f : Flow) → Runs f self.old → result ≡ None → Runs f self.new }
        ensures stopped { self.new.stopped ≡ is_some result }
        ensures chart { self.new.chart ≡ self.old.chart }
        ensures stands { StandIn self.new.state.space.frames pool.new }
        ensures spare { shared_of self.new.state.space pool.new ≤ spare_of pool.new }
        ensures follows { Follows self.old.state.space self.new.state.space pool.old pool.new }
    {
        let on = Charted {
            machine: self.machine,
            conv: self.conv,
            graph: self.graph,
            lookup: &self.lookup,
        };
        let stop = advance(&on, &mut self.state, pool);
        self.stopped = stop.is_some();
        stop
    }

    /// What the last step wrote, until it is drained.
    pub fn pending(&self) -> &[u8]
        ensures { result.now ≡ self.now.state.streams.pending }
    {
        self.state.streams.pending()
    }

    /// Forgets what was pending, once it has gone out.
    pub fn drained(&mut self)
        ensures { self.new ≡ record self.old { state = record self.old.state { streams = record self.old.state.streams { pending = [] } } } }
    {
        self.state.streams.drained();
    }

    /// `n` steps, or those up to the stop, each with its output put into `out` after it.
    ///
    /// `Stopped` comes exactly where the machine stops within `n` steps, with its stop, and `Spent` exactly where it doesn't; then the
    /// guest can go on. `WriteFault` comes only where the sink failed, and the guest is not run again then. No memory is taken.
    pub fn run<K: Sink>(&mut self, pool: &mut Pool, n: u64, out: &mut K) -> RunEnd
        requires ready { IsReady self.old }
        requires stands { StandIn self.old.state.space.frames pool.old }
        requires spare { shared_of self.old.state.space pool.old ≤ spare_of pool.old }
        ensures came { (f : Flow) → Runs f self.old → Came f result (moment_of self.old.state pool.old) (moment_of self.new.state pool.new) n }
        ensures took { (f : Flow) → Runs f self.old → Took result (K.output out.old) (K.output out.new) (written f (moment_of self.old.state pool.old) n) }
        ensures runs { (f : Flow) → Runs f self.old → result ≡ Spent → Runs f self.new }
        ensures later { (K.output out.old).faults ≤ (K.output out.new).faults }
        ensures chart { self.new.chart ≡ self.old.chart }
        ensures again { result ≡ Spent → IsReady self.new }
        ensures stopped { TellsStop result self.new }
        ensures stands { StandIn self.new.state.space.frames pool.new }
        ensures spare { shared_of self.new.state.space pool.new ≤ spare_of pool.new }
        ensures follows { Follows self.old.state.space self.new.state.space pool.old pool.new }
    {
        for _ in 0..n {
            let end = self.run_one(pool, out);
            match end {
                RunEnd::Spent => {}
                _ => return end,
            }
        }
        RunEnd::Spent
    }

    /// One step, with its output put into `out`.
    fn run_one<K: Sink>(&mut self, pool: &mut Pool, out: &mut K) -> RunEnd
        requires ready { IsReady self.old }
        requires stands { StandIn self.old.state.space.frames pool.old }
        requires spare { shared_of self.old.state.space pool.old ≤ spare_of pool.old }
        ensures came { (f : Flow) → Runs f self.old → Came f result (moment_of self.old.state pool.old) (moment_of self.new.state pool.new) 1 }
        ensures took { (f : Flow) → Runs f self.old → Took result (K.output out.old) (K.output out.new) (written f (moment_of self.old.state pool.old) 1) }
        ensures adds { (f : Flow) → Runs f self.old → AddsWritten f (moment_of self.old.state pool.old) 1 }
        ensures runs { (f : Flow) → Runs f self.old → result ≡ Spent → Runs f self.new }
        ensures later { (K.output out.old).faults ≤ (K.output out.new).faults }
        ensures chart { self.new.chart ≡ self.old.chart }
        ensures again { result ≡ Spent → IsReady self.new }
        ensures stopped { TellsStop result self.new }
        ensures stands { StandIn self.new.state.space.frames pool.new }
        ensures spare { shared_of self.new.state.space pool.new ≤ spare_of pool.new }
        ensures follows { Follows self.old.state.space self.new.state.space pool.old pool.new }
    {
        let stop = self.step(pool);
        match put_all(out, self.pending()) {
            Err(_) => RunEnd::WriteFault,
            Ok(()) => {
                self.drained();
                end_of(stop)
            }
        }
    }

    /// Gives the memory of the run back to its pool.
    pub fn give_back(self, pool: &mut Pool)
        requires { StandIn self.state.space.frames pool.old }
        ensures { IsGivenBack self.entry.state.space pool.old pool.new }
    {
        let Guest {
            machine: _,
            conv: _,
            graph: _,
            lookup: _,
            state,
            stopped: _,
        } = self;
        let RunState {
            cells: _,
            windows: _,
            space,
            streams: _,
            position: _,
        } = state;
        space.give_back(pool);
    }
}

/// What takes memory in a guest beside its space.
#[derive(Drop)]
struct Room {
    lookup: Lookup,
    parts: FirstParts,
}

/// All that takes memory in a run of this graph with this input.
fn take_room(
    alloc: Global,
    machine: &Machine,
    conv: &Conv,
    graph: &Graph,
    input: &[u8],
) -> Result<Room, AllocError>
    requires conv { IsSoundConv conv.now }
    requires fits { FitsMachine conv.now machine.now }
    ensures lookup { IfOk result (λ r. IsLookup (record { machine = machine.now; conv = conv.now; graph = graph.now }) r.lookup) }
    ensures cells { IfOk result (λ r. r.parts.cells.values ≡ first_cells machine.now conv.now) }
    ensures none { IfOk result (λ r. r.parts.windows ≡ []) }
    ensures shape { IfOk result (λ r. HaveShape machine.now r.parts.windows) }
    ensures streams { IfOk result (λ r. r.parts.streams ≡ record { input = input.now; pending = []; heap_end = conv.now.heap_base }) }
    ensures calls { IfOk result (λ r. r.parts.calls ≡ []) }
{
    let lookup = lookup_of(alloc, machine, graph)?;
    let parts = first_parts(alloc, machine, conv, input)?;
    Ok(Room { lookup, parts })
}

/// The end of a run of one step.
fn end_of(stop: Option<Stop>) -> RunEnd
    ensures { result ≡ end_after stop }
{
    match stop {
        None => RunEnd::Spent,
        Some(stop) => RunEnd::Stopped(stop),
    }
}
