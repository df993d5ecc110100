//! Control behind an instruction.
ghost use Rattle.std.specs.Prelude.{◌≡◌, ◌++◌, true, [], ◌∷◌, IfOk, OnOk};
ghost use Rattle.points.specs.Courses.{pending};
ghost use Rattle.c_control.specs.Plans.{Plan, further_label};
ghost use Rattle.c_control.specs.Blocks.{is_selected, selector_c, selected_c, selected_cases, selected_code, can_arrive, always_arrives, arrival_point, jump_ways, code_from_seq, code_without_jump, code_from_jump, control_by, couple_any, arrival_code};
ghost use Rattle.c_control.specs.Pieces.{couple_stop};
ghost use Rattle.c_program.specs.Kept.{kept_target, jump_couples, any_couples, undelayed_jump, delayed_jump, IsKnownStep};
ghost use Rattle.c_program.specs.Shown.{Shows, IsKnown};

use crate::arrivals::{far_of, push_any_call, push_arrival, push_call, targets_of};
use crate::ends::{
    COUPLE, Ways, end_by_annul, end_of_ways, go_on_at, other_cases, push_back_cases,
    push_table_cases,
};
use crate::expressions::{JUMPED, TARGET, binary, flags, with_number};
use crate::pieces::{UNDISCOVERED, push_stop_if};
use crate::sources::Sources;
use c_lang::{CExpr, COp, Case, End, Stmt, Var};
use points::{JumpKind, Mode, Point, Slot, past_slot, pending, sequential};
use sqlite_items::Items;
use std::alloc::{AllocError, Global};

/// An instruction's jump, with nothing to come where it stands.
#[derive(Clone, Copy)]
pub(crate) struct Jump {
    /// The address of the instruction.
    pub(crate) pc: u32,
    /// Whether the machine has delay slots.
    pub(crate) delayed: bool,
    /// How the jump and an annul can come out.
    pub(crate) ways: Ways,
    /// What the jump leaves to come.
    pub(crate) slot: Slot,
}

/// Where an instruction stands, and what it is to control.
#[derive(Clone, Copy)]
pub(crate) struct Step {
    pub(crate) point: Point,
    /// The address behind the instruction.
    pub(crate) next: u32,
    pub(crate) kind: JumpKind,
    pub(crate) jump: Mode,
    pub(crate) annul: Mode,
}

/// Whether a step can make the arrival at once.
pub(crate) fn can_arrive(jump: Mode, annul: Mode) -> bool
    ensures { result ≡ can_arrive jump annul }
{
    match (jump, annul) {
        (Mode::Never, _) | (_, Mode::Never) => false,
        _ => true,
    }
}

/// Whether each step makes the arrival at once.
pub(crate) fn always_arrives(jump: Mode, annul: Mode) -> bool
    ensures { result ≡ always_arrives jump annul }
{
    match (jump, annul) {
        (Mode::Always, Mode::Always) => true,
        _ => false,
    }
}

/// Whether an arrival goes on in the same function.
pub(crate) fn is_selected(on: &Sources, slot: Slot) -> bool
    ghost plan: { Plan }
    requires shows { Shows plan on.now }
    requires known { IsKnown plan on.now slot }
    ensures { result ≡ is_selected plan slot }
{
    match slot {
        Slot::Dyn(a) => !targets_of(on, a).is_empty(),
        Slot::CallTo(_, _) | Slot::CallDyn(_) => true,
        Slot::Seq | Slot::To(_) | Slot::Ret => false,
    }
}

/// The number that chooses, 3 where the arrival is done; a machine without delay does it as if each instruction annulled.
fn selector(alloc: Global, delayed: bool) -> Result<CExpr, AllocError>
    ensures { IfOk result (λ e. e ≡ selector_c delayed) }
{
    if delayed {
        flags(alloc)
    } else {
        with_number(alloc, COp::Add, JUMPED, 2)
    }
}

/// Pushes 4 and a variable as the number that chooses.
fn push_chosen(alloc: Global, out: &mut Items<Stmt>, by: Var) -> Result<(), AllocError>
    ensures { OnOk result (out.new ≡ out.old ++ Stmt.Set (Var.Temp 1) (CExpr.Bin COp.Add (CExpr.Num 4) (CExpr.Of by)) ∷ []) }
{
    let chosen = binary(alloc, COp::Add, CExpr::Num(4), CExpr::Of(by))?;
    out.push(Stmt::Set(JUMPED, chosen))
}

/// Pushes an arrival that goes on in the same function, and the number that chooses behind it.
fn push_selected(
    alloc: Global,
    out: &mut Items<Stmt>,
    on: &Sources,
    slot: Slot,
) -> Result<(), AllocError>
    ghost plan: { Plan }
    requires shows { Shows plan on.now }
    requires known { IsKnown plan on.now slot }
    ensures { OnOk result (out.new ≡ out.old ++ selected_c plan slot) }
{
    match slot {
        Slot::CallTo(t, back) => {
            push_call(alloc, out, on, t, back)?;
            push_chosen(alloc, out, Var::ServeE)
        }
        Slot::CallDyn(back) => {
            push_any_call(alloc, out, on, back)?;
            push_chosen(alloc, out, Var::ServeE)
        }
        Slot::Seq | Slot::To(_) | Slot::Dyn(_) | Slot::Ret => push_chosen(alloc, out, Var::Pt),
    }
}

/// Pushes the cases of the numbers behind such an arrival.
fn push_selected_cases(out: &mut Items<Case>, on: &Sources, slot: Slot) -> Result<(), AllocError>
    ghost plan: { Plan }
    requires shows { Shows plan on.now }
    requires known { IsKnown plan on.now slot }
    ensures { OnOk result (out.new ≡ out.old ++ selected_cases plan slot) }
{
    match slot {
        Slot::Dyn(a) => push_table_cases(out, 4, targets_of(on, a)),
        Slot::CallTo(_, back) | Slot::CallDyn(back) => {
            push_back_cases(out, 4, back, far_of(on, back))
        }
        Slot::Seq | Slot::To(_) | Slot::Ret => Ok(()),
    }
}

/// Pushes a jump whose arrival may be done at once and goes on in the same function, and answers the end behind it.
fn push_selected_code(
    alloc: Global,
    out: &mut Items<Stmt>,
    on: &Sources,
    jump: Jump,
) -> Result<End, AllocError>
    ghost plan: { Plan }
    requires shows { Shows plan on.now }
    requires known { IsKnown plan on.now jump.slot }
    ensures stmts { OnOk result (out.new ≡ out.old ++ (selected_code plan jump.delayed jump.ways.jump jump.ways.annul jump.ways.stays jump.ways.jumps jump.ways.annuls jump.slot).stmts) }
    ensures end { IfOk result (λ e. e ≡ (selected_code plan jump.delayed jump.ways.jump jump.ways.annul jump.ways.stays jump.ways.jumps jump.ways.annuls jump.slot).end) }
{
    out.push(Stmt::Set(JUMPED, selector(alloc, jump.delayed)?))?;
    let mut inner = Items::new(alloc);
    push_selected(alloc, &mut inner, on, jump.slot)?;
    out.push(Stmt::If(with_number(alloc, COp::Eq, JUMPED, 3)?, inner))?;
    let mut cases = other_cases(alloc, jump.ways)?;
    push_selected_cases(&mut cases, on, jump.slot)?;
    Ok(End::Switch(CExpr::Of(JUMPED), cases, UNDISCOVERED, CExpr::Of(Var::Pt)))
}

/// The label of the further block of the instruction at an address.
pub(crate) fn further_label(pc: u32) -> Point
    ensures { result ≡ further_label pc }
{
    Point {
        pc,
        slot: Slot::Dyn(pc),
    }
}

/// The point of an arrival that is done at once.
fn arrival_point(pc: u32, slot: Slot) -> Point
    ensures { result ≡ arrival_point pc slot }
{
    match slot {
        Slot::To(t) => sequential(t),
        Slot::Seq | Slot::Dyn(_) | Slot::CallTo(_, _) | Slot::CallDyn(_) | Slot::Ret => {
            further_label(pc)
        }
    }
}

/// Pushes a jump that an annul makes arrive at once, and answers the end behind it.
fn push_jump_ways(
    alloc: Global,
    out: &mut Items<Stmt>,
    on: &Sources,
    jump: Jump,
) -> Result<End, AllocError>
    ghost plan: { Plan }
    requires shows { Shows plan on.now }
    requires known { can_arrive jump.ways.jump jump.ways.annul ≡ true → IsKnown plan on.now jump.slot }
    ensures stmts { OnOk result (out.new ≡ out.old ++ (jump_ways plan on.now.own.now.entry jump.pc jump.delayed jump.ways.jump jump.ways.annul jump.ways.stays jump.ways.jumps jump.ways.annuls jump.slot).stmts) }
    ensures end { IfOk result (λ e. e ≡ (jump_ways plan on.now.own.now.entry jump.pc jump.delayed jump.ways.jump jump.ways.annul jump.ways.stays jump.ways.jumps jump.ways.annuls jump.slot).end) }
{
    if always_arrives(jump.ways.jump, jump.ways.annul) {
        return push_arrival(alloc, out, on, jump.slot);
    }
    if can_arrive(jump.ways.jump, jump.ways.annul) {
        if is_selected(on, jump.slot) {
            return push_selected_code(alloc, out, on, jump);
        }
    }
    end_of_ways(alloc, jump.ways, arrival_point(jump.pc, jump.slot))
}

/// Pushes control behind a jump with nothing to come, and answers the end behind it. On a machine without delay it
/// arrives at once wherever it is done.
fn push_from_seq(
    alloc: Global,
    out: &mut Items<Stmt>,
    on: &Sources,
    step: Step,
) -> Result<End, AllocError>
    ghost plan: { Plan }
    requires shows { Shows plan on.now }
    requires known { IsKnownStep plan on.now step }
    requires fresh { step.point.slot ≡ Slot.Seq }
    ensures stmts { OnOk result (out.new ≡ out.old ++ (code_from_seq plan on.now.own.now.entry step.point.pc step.next on.now.machine.now.delay step.jump step.annul (pending step.point.pc step.kind)).stmts) }
    ensures end { IfOk result (λ e. e ≡ (code_from_seq plan on.now.own.now.entry step.point.pc step.next on.now.machine.now.delay step.jump step.annul (pending step.point.pc step.kind)).end) }
{
    let slot = pending(step.point.pc, step.kind);
    let delay = on.machine.delay;
    match delay {
        None => push_jump_ways(alloc, out, on, undelayed_jump(step, slot)),
        Some(bytes) => push_jump_ways(alloc, out, on, delayed_jump(step, slot, bytes)),
    }
}

/// The jump of an instruction on a machine without delay.
fn undelayed_jump(step: Step, slot: Slot) -> Jump
    ensures { result ≡ undelayed_jump step slot }
{
    let stays = sequential(step.next);
    Jump {
        pc: step.point.pc,
        delayed: false,
        ways: Ways {
            jump: step.jump,
            annul: Mode::Always,
            stays,
            jumps: stays,
            annuls: stays,
        },
        slot,
    }
}

/// The jump of an instruction on a machine with delay slots of so many bytes.
fn delayed_jump(step: Step, slot: Slot, delay: u8) -> Jump
    ensures { result ≡ delayed_jump step slot delay }
{
    Jump {
        pc: step.point.pc,
        delayed: true,
        ways: Ways {
            jump: step.jump,
            annul: step.annul,
            stays: sequential(step.next),
            jumps: Point {
                pc: step.next,
                slot,
            },
            annuls: sequential(past_slot(Some(delay), step.next)),
        },
        slot,
    }
}

/// The end of an instruction without a jump, with nothing to come.
fn end_without_jump(delay: Option<u8>, next: u32, annul: Mode) -> End
    ensures { result ≡ (code_without_jump next delay annul).end }
{
    match delay {
        None => go_on_at(next),
        Some(_) => end_by_annul(annul, next, past_slot(delay, next)),
    }
}

/// Pushes that the target of a jump is kept, where its arrival asks for it.
fn push_kept_target(out: &mut Items<Stmt>, kind: JumpKind) -> Result<(), AllocError>
    ensures { OnOk result (out.new ≡ out.old ++ kept_target kind) }
{
    match kind {
        JumpKind::Dyn | JumpKind::CallDyn(_) | JumpKind::Ret => {
            out.push(Stmt::Set(Var::Pt, CExpr::Of(TARGET)))
        }
        JumpKind::Never | JumpKind::To(_) | JumpKind::CallTo(_, _) => Ok(()),
    }
}

/// Pushes the stop of a jump in a slot where it may not stand.
fn push_jump_couples(
    alloc: Global,
    out: &mut Items<Stmt>,
    pc: u32,
    jump: Mode,
) -> Result<(), AllocError>
    ensures { OnOk result (out.new ≡ out.old ++ jump_couples pc jump) }
{
    if jump == Mode::Never {
        return Ok(());
    }
    push_stop_if(
        alloc,
        out,
        CExpr::Of(JUMPED),
        COUPLE,
        CExpr::Num(u64::from(pc)),
    )
}

/// Pushes the stop of a jump or an annul in a slot where neither may stand.
fn push_any_couples(
    alloc: Global,
    out: &mut Items<Stmt>,
    pc: u32,
    jump: Mode,
    annul: Mode,
) -> Result<(), AllocError>
    ensures { OnOk result (out.new ≡ out.old ++ any_couples pc jump annul) }
{
    match (jump, annul) {
        (Mode::Never, Mode::Never) => Ok(()),
        _ => {
            let done = flags(alloc)?;
            push_stop_if(alloc, out, done, COUPLE, CExpr::Num(u64::from(pc)))
        }
    }
}

/// The end of an instruction that may not stand in its slot in any way in which it can come out.
fn couples(pc: u32) -> End
    ensures { result ≡ End.Finish couple_stop (CExpr.Num pc) }
{
    End::Finish(COUPLE, CExpr::Num(u64::from(pc)))
}

/// Pushes control in the slot of a jump that is not plain with a constant target, and answers the end behind it.
fn push_from_slot(
    alloc: Global,
    out: &mut Items<Stmt>,
    on: &Sources,
    slot: Slot,
    step: Step,
) -> Result<End, AllocError>
    ghost plan: { Plan }
    requires shows { Shows plan on.now }
    requires known { IsKnown plan on.now slot }
    ensures stmts { OnOk result (out.new ≡ out.old ++ (couple_any step.point.pc step.jump step.annul (arrival_code plan on.now.own.now.entry slot)).stmts) }
    ensures end { IfOk result (λ e. e ≡ (couple_any step.point.pc step.jump step.annul (arrival_code plan on.now.own.now.entry slot)).end) }
{
    match (step.jump, step.annul) {
        (Mode::Always, _) => Ok(couples(step.point.pc)),
        (_, Mode::Always) => Ok(couples(step.point.pc)),
        _ => {
            push_any_couples(alloc, out, step.point.pc, step.jump, step.annul)?;
            push_arrival(alloc, out, on, slot)
        }
    }
}

/// Pushes control in the slot of a plain jump to `t`, and answers the end behind it.
fn push_from_jump(
    alloc: Global,
    out: &mut Items<Stmt>,
    delay: Option<u8>,
    t: u32,
    step: Step,
) -> Result<End, AllocError>
    ensures stmts { OnOk result (out.new ≡ out.old ++ (code_from_jump delay step.point.pc t step.kind step.jump step.annul).stmts) }
    ensures end { IfOk result (λ e. e ≡ (code_from_jump delay step.point.pc t step.kind step.jump step.annul).end) }
{
    let past = past_slot(delay, t);
    match (step.kind, step.jump) {
        (JumpKind::To(u), _) => {
            let ways = Ways {
                jump: step.jump,
                annul: step.annul,
                stays: sequential(t),
                jumps: Point {
                    pc: t,
                    slot: Slot::To(u),
                },
                annuls: sequential(past),
            };
            end_of_ways(alloc, ways, sequential(u))
        }
        (_, Mode::Always) => Ok(couples(step.point.pc)),
        _ => {
            push_jump_couples(alloc, out, step.point.pc, step.jump)?;
            Ok(end_by_annul(step.annul, t, past))
        }
    }
}

/// Pushes control behind an instruction, and answers the end of its block.
pub(crate) fn push_control(
    alloc: Global,
    out: &mut Items<Stmt>,
    on: &Sources,
    step: Step,
) -> Result<End, AllocError>
    ghost plan: { Plan }
    requires shows { Shows plan on.now }
    requires known { IsKnownStep plan on.now step }
    ensures stmts { OnOk result (out.new ≡ out.old ++ (control_by plan on.now.own.now.entry step.point.pc step.next step.point.slot step.kind step.jump step.annul).stmts) }
    ensures end { IfOk result (λ e. e ≡ (control_by plan on.now.own.now.entry step.point.pc step.next step.point.slot step.kind step.jump step.annul).end) }
{
    let delay = on.machine.delay;
    match (step.point.slot, step.kind) {
        (Slot::Seq, JumpKind::Never) => Ok(end_without_jump(delay, step.next, step.annul)),
        (Slot::Seq, kind) => {
            push_kept_target(out, kind)?;
            push_from_seq(alloc, out, on, step)
        }
        (Slot::To(t), _) => push_from_jump(alloc, out, delay, t, step),
        (slot, _) => push_from_slot(alloc, out, on, slot, step),
    }
}
