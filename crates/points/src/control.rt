//! Where a step leads, and all that control can do at a point.
ghost use Rattle.std.specs.Prelude.{◌≡◌, ◌&&◌, [], ◌∷◌, ◌++◌, if◌then◌else◌, List, IfOk, OnOk};
ghost use Rattle.std.specs.List.{list_any};
ghost use Rattle.rtl_core.specs.SoundTerms.{is_jump, is_annul};
ghost use Rattle.points.specs.Courses.{point as point_of, on_at, course, course_from_seq, course_from_jump, course_from_slot, pending, jump_mode, annul_mode, does_always, possible, is_trap, halts, arrival_next, course_next, next_if, nexts_of, once, after};
ghost use Rattle.points.specs.contracts.block.NextPartialEq.TheImpl as next_equality;

use crate::block::{Block, Course, JumpKind, Mode, Next};
use crate::jumps::past_slot;
use decode::Bundle;
use rtl_core::{Act, GroundInst, Machine, Point, Slot, Transfer};
use sqlite_items::Items;
use std::alloc::{AllocError, Global};

/// All that control can do at a point with this block, each once: every guarded jump and annul is taken both as done
/// and as not done, and every one without a guard as done. Nothing comes behind an instruction with a trap that has no
/// guard, nor where none stands. The error is want of memory.
pub fn after(
    alloc: Global,
    on: &Bundle,
    point: &Point,
    block: &Block,
) -> Result<Items<Next>, AllocError>
    ensures { IfOk result (λ nexts. nexts ≡ after on.now.machine.now point.now block.now) }
{
    match block {
        Block::Outside | Block::Illegal => Ok(Items::new(alloc)),
        Block::Inst(inst, kind) => {
            if halts(inst.transfers.as_slice()) {
                return Ok(Items::new(alloc));
            }
            nexts_of(alloc, on.machine, point, inst, *kind)
        }
    }
}

/// What can come behind the instruction at a point, for each way in which its jump and its annul can come out.
fn nexts_of(
    alloc: Global,
    machine: &Machine,
    point: &Point,
    inst: &GroundInst,
    kind: JumpKind,
) -> Result<Items<Next>, AllocError>
    ensures { IfOk result (λ nexts. nexts ≡ once (nexts_of machine.now point.now inst.now kind (jump_mode inst.now.transfers) (annul_mode inst.now.transfers))) }
{
    let step = Step {
        machine,
        point,
        next: inst.next,
        kind,
        jump: jump_mode(inst.transfers.as_slice()),
        annul: annul_mode(inst.transfers.as_slice()),
    };
    let mut nexts = Items::new(alloc);
    step.add(&mut nexts, false, false)?;
    step.add(&mut nexts, false, true)?;
    step.add(&mut nexts, true, false)?;
    step.add(&mut nexts, true, true)?;
    Ok(nexts)
}

/// What is the same for all ways in which a step can come out.
#[derive(Clone, Copy)]
struct Step<'a> {
    machine: &'a Machine,
    point: &'a Point,
    next: u32,
    kind: JumpKind,
    jump: Mode,
    annul: Mode,
}

impl<'a> Step<'a> {
    /// Adds what comes where the step jumps and annuls so, if it can and that does not stand yet.
    fn add(&self, nexts: &mut Items<Next>, jumps: bool, annuls: bool) -> Result<(), AllocError>
        ensures { OnOk result ((before : List Next) → nexts.old ≡ once before →
            nexts.new ≡ once (before ++ next_if (possible self.now.jump jumps && possible self.now.annul annuls) (course self.now.machine.now self.now.point.now self.now.next self.now.kind jumps annuls))) }
    {
        if !self.can(jumps, annuls) {
            return Ok(());
        }
        let course = course_of(
            self.machine,
            self.point,
            self.next,
            self.kind,
            jumps,
            annuls,
        );
        add_once(nexts, course_next(course))
    }

    fn can(&self, jumps: bool, annuls: bool) -> bool
        ensures { result ≡ (possible self.now.jump jumps && possible self.now.annul annuls) }
    {
        possible(self.jump, jumps) && possible(self.annul, annuls)
    }
}

/// Puts one at the end, where it does not stand yet.
fn add_once(nexts: &mut Items<Next>, next: Next) -> Result<(), AllocError>
    ensures { OnOk result ((before : List Next) → nexts.old ≡ once before → nexts.new ≡ once (before ++ next ∷ [])) }
{
    if holds(nexts.as_slice(), next) {
        return Ok(());
    }
    nexts.push(next)?;
    Ok(())
}

/// Whether one stands among some.
fn holds(nexts: &[Next], next: Next) -> bool
    ensures { result ≡ list_any (λ n. next_equality.eq-value.it next n) nexts.now }
{
    nexts.iter().any(|n| next == *n)
}

/// What comes where a step leads.
fn course_next(course: Course) -> Next
    ensures { result ≡ course_next course }
{
    match course {
        Course::On(point) => Next::Goes(point),
        Course::Arrives(slot) => arrival_next(slot),
        Course::Couples => Next::Couples,
    }
}

/// What comes where a jump arrives.
fn arrival_next(slot: Slot) -> Next
    ensures { result ≡ arrival_next slot }
{
    match slot {
        Slot::Seq => Next::Couples,
        Slot::To(pc) => Next::Goes(sequential(pc)),
        Slot::Dyn(at) => Next::Table(at),
        Slot::CallTo(t, back) => Next::Calls(t, back),
        Slot::CallDyn(back) => Next::CallsAny(back),
        Slot::Ret => Next::Returns,
    }
}

/// The point of an address with no jump to come.
pub fn sequential(pc: u32) -> Point
    ensures { result ≡ point_of pc Slot.Seq }
{
    Point {
        pc,
        slot: Slot::Seq,
    }
}

/// Where the instruction at a point leads, by the address behind it, how it jumps, and whether it jumps and annuls
/// (The SPARC Architecture Manual, Version 8, "Delayed Control Transfers").
pub fn course_of(
    machine: &Machine,
    point: &Point,
    next: u32,
    kind: JumpKind,
    jumps: bool,
    annuls: bool,
) -> Course
    ensures { result ≡ course machine.now point.now next kind jumps annuls }
{
    match point.slot {
        Slot::Seq => course_from_seq(machine.delay, next, pending(point.pc, kind), jumps, annuls),
        Slot::To(t) => course_from_jump(machine.delay, t, kind, jumps, annuls),
        slot => course_from_slot(slot, jumps, annuls),
    }
}

/// Nothing is to come: without delay a jump is done at once, with delay it waits for the slot, which an annul passes over.
fn course_from_seq(delay: Option<u8>, next: u32, slot: Slot, jumps: bool, annuls: bool) -> Course
    ensures { result ≡ course_from_seq delay next slot jumps annuls }
{
    match (delay, jumps, annuls) {
        (None, false, _) | (Some(_), false, false) => on_at(next),
        (Some(_), false, true) => on_at(past_slot(delay, next)),
        (Some(_), true, false) => Course::On(Point { pc: next, slot }),
        (None, true, _) | (Some(_), true, true) => Course::Arrives(slot),
    }
}

/// In the slot of a plain jump to `t`: another plain jump to a constant target does the one instruction at `t` first.
fn course_from_jump(delay: Option<u8>, t: u32, kind: JumpKind, jumps: bool, annuls: bool) -> Course
    ensures { result ≡ course_from_jump delay t kind jumps annuls }
{
    match (kind, jumps, annuls) {
        (_, false, false) => on_at(t),
        (_, false, true) => on_at(past_slot(delay, t)),
        (JumpKind::To(u), true, false) => Course::On(Point {
            pc: t,
            slot: Slot::To(u),
        }),
        (JumpKind::To(u), true, true) => on_at(u),
        (_, true, _) => Course::Couples,
    }
}

/// In any other slot neither a jump nor an annul may stand.
fn course_from_slot(slot: Slot, jumps: bool, annuls: bool) -> Course
    ensures { result ≡ course_from_slot slot jumps annuls }
{
    if jumps || annuls {
        Course::Couples
    } else {
        Course::Arrives(slot)
    }
}

/// On at an address, with nothing to come.
fn on_at(pc: u32) -> Course
    ensures { result ≡ on_at pc }
{
    Course::On(sequential(pc))
}

/// The jump that is still to come behind a jump at an address.
pub fn pending(pc: u32, kind: JumpKind) -> Slot
    ensures { result ≡ pending pc kind }
{
    match kind {
        JumpKind::Never => Slot::Seq,
        JumpKind::To(t) => Slot::To(t),
        JumpKind::Dyn => Slot::Dyn(pc),
        JumpKind::CallTo(t, back) => Slot::CallTo(t, back),
        JumpKind::CallDyn(back) => Slot::CallDyn(back),
        JumpKind::Ret => Slot::Ret,
    }
}

/// Whether transfers jump: never, where a guard holds, or each time.
pub fn jump_mode(transfers: &[Transfer]) -> Mode
    ensures { result ≡ jump_mode transfers.now }
{
    mode(always_jumps(transfers), can_jump(transfers))
}

/// Whether transfers annul the next instruction: never, where a guard holds, or each time.
pub fn annul_mode(transfers: &[Transfer]) -> Mode
    ensures { result ≡ annul_mode transfers.now }
{
    mode(always_annuls(transfers), can_annul(transfers))
}

fn always_jumps(transfers: &[Transfer]) -> bool
    ensures { result ≡ list_any (does_always is_jump) transfers.now }
{
    transfers
        .iter()
        .any(|t| t.guard.is_none() && is_jump(&t.act))
}

fn can_jump(transfers: &[Transfer]) -> bool
    ensures { result ≡ list_any (λ t. is_jump t.act) transfers.now }
{
    transfers.iter().any(|t| is_jump(&t.act))
}

fn always_annuls(transfers: &[Transfer]) -> bool
    ensures { result ≡ list_any (does_always is_annul) transfers.now }
{
    transfers
        .iter()
        .any(|t| t.guard.is_none() && is_annul(&t.act))
}

fn can_annul(transfers: &[Transfer]) -> bool
    ensures { result ≡ list_any (λ t. is_annul t.act) transfers.now }
{
    transfers.iter().any(|t| is_annul(&t.act))
}

fn mode(always: bool, at_all: bool) -> Mode
    ensures { result ≡ (if always then Mode.Always else if at_all then Mode.Maybe else Mode.Never) }
{
    if always {
        Mode::Always
    } else if at_all {
        Mode::Maybe
    } else {
        Mode::Never
    }
}

/// Whether what is done in this mode can come out so.
fn possible(mode: Mode, done: bool) -> bool
    ensures { result ≡ possible mode done }
{
    match mode {
        Mode::Never => !done,
        Mode::Maybe => true,
        Mode::Always => done,
    }
}

/// Whether a trap without a guard stands among transfers, so that nothing comes behind them.
pub fn halts(transfers: &[Transfer]) -> bool
    ensures { result ≡ halts transfers.now }
{
    transfers
        .iter()
        .any(|t| t.guard.is_none() && is_trap(&t.act))
}

fn is_trap(act: &Act) -> bool
    ensures { result ≡ is_trap act.now }
{
    matches!(act, Act::Trap(_))
}

fn is_jump(act: &Act) -> bool
    ensures { result ≡ is_jump act.now }
{
    matches!(act, Act::Jump(_))
}

fn is_annul(act: &Act) -> bool
    ensures { result ≡ is_annul act.now }
{
    matches!(act, Act::Annul)
}
