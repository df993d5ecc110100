//! The described machine as a program that steps.
ghost use Rattle.std.specs.Prelude.{◌≡◌, ◌≤◌, ◌++◌, [], ℕ, List, false, is_some, IfOk, OnOk, OnErr, MatchResult};
ghost use Rattle.rtl_core.specs.declared.stop.RunEnd.TheVariants.{Spent};
ghost use Rattle.points.specs.Machine.{first_state, step as next_of};
ghost use Rattle.space.specs.Ranges.{memory_of};
ghost use Rattle.stepper.specs.Shown.{Shown, IsReady, state_of, moment};
ghost use Rattle.points.specs.Bundles.{IsSoundSetting, setting_of};
ghost use Rattle.stepper.specs.Ran.{Came, MadeSome, TellsStop, Took, TookPrefix, AddsWritten, written, end_after};

use crate::one_step::advance;
use crate::run_state::{RunState, first_parts};
use decode::Bundle;
use edge_io::{Sink, put_all};
use rtl_core::{Point, RunEnd, Slot, Stop};
use space::Space;
use std::alloc::{AllocError, Global};
use std::marker::Model;

/// No memory for a guest; the space is handed back as it was.
#[derive(Debug, Drop)]
pub struct Unbuilt {
    pub space: Space,
}

/// A described machine that runs an image. Contracts see the setting of its run, the state that it is in, and whether it has stopped.
#[derive(Drop)]
pub struct Guest<'a> {
    on: &'a Bundle<'a>,
    alloc: Global,
    state: RunState,
    stopped: bool,
}

impl<'a> Model for Guest<'a> {
    ghost use Rattle.std.specs.Coded.{codes};
    ghost use Rattle.rtl_core.specs.contracts.template.TExpr as template;
    ghost use Rattle.stepper.specs.Shown.{Shown, IsWhole};
    ghost use Rattle.points.specs.Bundles.{setting_of};

    ghost Value = { Shown };

    ghost coded = { Prim.hlevel (codes, template.the_row.coded) };

    ghost view = { λ g. record { setting = setting_of g.on.now; state = g.state; stopped = g.stopped } };

    ghost invariant = { λ g. IsWhole (setting_of g.on.now) g.state };
}

impl<'a> Guest<'a> {
    /// The machine before its first instruction, at `entry`, with this memory and this input. It takes all memory of a run but that
    /// of the instruction at each step.
    pub fn build(
        alloc: Global,
        on: &'a Bundle<'a>,
        space: Space,
        input: &[u8],
        entry: u32,
    ) -> Result<Guest<'a>, Unbuilt>
        requires { IsSoundSetting (setting_of on.now) }
        ensures setting { IfOk result (λ g. g.setting ≡ setting_of on.now) }
        ensures state { IfOk result (λ g. state_of [] g.state ≡ first_state (setting_of on.now) (memory_of space) entry input.now) }
        ensures ready { IfOk result (λ g. IsReady g) }
        ensures unbuilt { MatchResult result (λ _. Unit {0}) (λ u. u.space ≡ space) }
    {
        match first_parts(alloc, on, input) {
            Err(_) => Err(Unbuilt { space }),
            Ok(parts) => Ok(Guest {
                on,
                alloc,
                state: RunState {
                    cells: parts.cells,
                    windows: parts.windows,
                    space,
                    streams: parts.streams,
                    point: Point {
                        pc: entry,
                        slot: Slot::Seq,
                    },
                },
                stopped: false,
            }),
        }
    }

    /// One step: what it writes is pending then, and the answer is its stop where it stops. At an `Err` there was no memory for the
    /// instruction, and the guest is as it was.
    pub fn step(&mut self) -> Result<Option<Stop>, AllocError>
        requires { IsReady self.old }
        ensures step { IfOk result (λ stop. (before : List ℕ) →
            moment stop (state_of (before ++ self.new.state.streams.pending) self.new.state) ≡ next_of self.old.setting (state_of before self.old.state)) }
        ensures stopped { IfOk result (λ stop. self.new.stopped ≡ is_some stop) }
        ensures setting { self.new.setting ≡ self.old.setting }
        ensures err { OnErr result (self.new ≡ self.old) }
    {
        let stop = advance(self.alloc, self.on, &mut self.state)?;
        self.stopped = stop.is_some();
        Ok(stop)
    }

    /// What the last step wrote, until it is drained.
    pub fn pending(&self) -> &[u8]
        ensures { result.now ≡ self.now.state.streams.pending }
    {
        self.state.streams.pending()
    }

    /// Forgets what was pending, once it has gone out.
    pub fn drained(&mut self)
        ensures { self.new ≡ record self.old { state = record self.old.state { streams = record self.old.state.streams { pending = [] } } } }
    {
        self.state.streams.drained();
    }

    /// `n` steps, or those up to the stop, each with its output put into `out` after it.
    ///
    /// `Stopped` comes exactly where the machine stops within `n` steps, with its stop, and `Spent` exactly where it doesn't; then the
    /// guest can go on. `WriteFault` comes only where the sink failed, and the guest is not run again then. At an `Err` there was no
    /// memory for an instruction: the guest stands before it, what was written before it went out, and it can go on.
    pub fn run<K: Sink>(&mut self, n: u64, out: &mut K) -> Result<RunEnd, AllocError>
        requires { IsReady self.old }
        ensures came { IfOk result (λ end. Came end self.old self.new n) }
        ensures took { IfOk result (λ end. Took end (K.output out.old) (K.output out.new) (written self.old n)) }
        ensures some { OnErr result (MadeSome self.old self.new n (K.output out.old) (K.output out.new)) }
        ensures front { OnErr result (TookPrefix (K.output out.old) (K.output out.new) (written self.old n)) }
        ensures later { (K.output out.old).faults ≤ (K.output out.new).faults }
        ensures setting { self.new.setting ≡ self.old.setting }
        ensures again { IfOk result (λ end. end ≡ Spent → IsReady self.new) }
        ensures stopped { IfOk result (λ end. TellsStop end self.new) }
    {
        for _ in 0..n {
            let end = self.run_one(out)?;
            match end {
                RunEnd::Spent => {}
                _ => return Ok(end),
            }
        }
        Ok(RunEnd::Spent)
    }

    /// One step, with its output put into `out`.
    fn run_one<K: Sink>(&mut self, out: &mut K) -> Result<RunEnd, AllocError>
        requires { IsReady self.old }
        ensures came { IfOk result (λ end. Came end self.old self.new 1) }
        ensures took { IfOk result (λ end. Took end (K.output out.old) (K.output out.new) (written self.old 1)) }
        ensures later { (K.output out.old).faults ≤ (K.output out.new).faults }
        ensures setting { self.new.setting ≡ self.old.setting }
        ensures again { IfOk result (λ end. end ≡ Spent → IsReady self.new) }
        ensures stopped { IfOk result (λ end. TellsStop end self.new) }
        ensures adds { IfOk result (λ _. AddsWritten self.old 1) }
        ensures err { OnErr result (out.new ≡ out.old) }
        ensures kept { OnErr result (self.new ≡ self.old) }
    {
        let stop = self.step()?;
        match put_all(out, self.pending()) {
            Err(_) => Ok(RunEnd::WriteFault),
            Ok(()) => {
                self.drained();
                Ok(end_of(stop))
            }
        }
    }
}

/// The end of a run of one step.
fn end_of(stop: Option<Stop>) -> RunEnd
    ensures { result ≡ end_after stop }
{
    match stop {
        None => RunEnd::Spent,
        Some(stop) => RunEnd::Stopped(stop),
    }
}
