//! The block of a point, and its further block.
ghost use Rattle.std.specs.Prelude.{◌≡◌, ◌++◌, true, IfOk, OnOk};
ghost use Rattle.points.specs.Kinds.{block_at};
ghost use Rattle.points.specs.Courses.{point as point_of};
ghost use Rattle.c_control.specs.Plans.{Plan, further_label};
ghost use Rattle.c_control.specs.Blocks.{annul_for, block_c, can_arrive, code_behind, arrival_code, ends, further_c, further_of_block, labelled, leaves_apart};
ghost use Rattle.c_program.specs.Ready.{IsKnownInst, IsReady, step_of};
ghost use Rattle.c_program.specs.Shown.{IsKnown, Shows};

use crate::arrivals::push_arrival;
use crate::control::{Step, always_arrives, can_arrive, further_label, is_selected, push_control};
use crate::ends::never;
use crate::pieces::UNDISCOVERED;
use crate::service::push_service;
use crate::sources::Sources;
use c_lang::{CBlock, CExpr, End, Stmt};
use c_lower::lower;
use points::{Block, JumpKind, Mode, Node, Point, Slot, annul_mode, halts, jump_mode, pending};
use rtl_core::GroundInst;
use sqlite_items::Items;
use std::alloc::{AllocError, Global};

/// The stop at code that no instruction matches.
const ILLEGAL: u64 = 1;

/// An instruction as control sees it.
fn step_of(point: Point, inst: &GroundInst, kind: JumpKind) -> Step
    ensures { result ≡ step_of point inst.now kind }
{
    Step {
        point,
        next: inst.next,
        kind,
        jump: jump_mode(inst.transfers.as_slice()),
        annul: annul_mode(inst.transfers.as_slice()),
    }
}

/// Pushes the service of an instruction, and control, and answers the end of its block.
fn push_behind(
    alloc: Global,
    out: &mut Items<Stmt>,
    on: &Sources,
    point: Point,
    inst: &GroundInst,
    kind: JumpKind,
) -> Result<End, AllocError>
    ghost plan: { Plan }
    requires shows { Shows plan on.now }
    requires known { IsKnownInst plan on.now point inst.now kind }
    ensures stmts { OnOk result (out.new ≡ out.old ++ (code_behind plan on.now.own.now.entry point inst.now kind).stmts) }
    ensures end { IfOk result (λ e. e ≡ (code_behind plan on.now.own.now.entry point inst.now kind).end) }
{
    if halts(inst.transfers.as_slice()) {
        return Ok(never());
    }
    push_service(alloc, out, on.machine, on.conv, inst.transfers.as_slice())?;
    push_control(alloc, out, on, step_of(point, inst, kind))
}

/// A block that only stops.
fn stop_block(alloc: Global, point: Point, number: u64) -> CBlock
    ensures { result ≡ labelled point (ends (End.Finish number (CExpr.Num point.pc))) }
{
    CBlock {
        label: point,
        stmts: Items::new(alloc),
        end: End::Finish(number, CExpr::Num(u64::from(point.pc))),
    }
}

/// The block of an instruction.
fn instruction_block(
    alloc: Global,
    on: &Sources,
    point: Point,
    inst: &GroundInst,
    kind: JumpKind,
) -> Result<CBlock, AllocError>
    ghost plan: { Plan }
    requires shows { Shows plan on.now }
    requires known { IsKnownInst plan on.now point inst.now kind }
    requires here { block_at plan.flow.setting point.pc ≡ Block.Inst inst.now kind }
    ensures { IfOk result (λ b. b ≡ block_c plan on.now.own.now.entry point) }
{
    let pc = point.pc;
    let mut stmts = lower(alloc, on.machine, inst, pc)?;
    let end = push_behind(alloc, &mut stmts, on, point, inst, kind)?;
    Ok(CBlock {
        label: point,
        stmts,
        end,
    })
}

/// The block of a point.
pub(crate) fn point_block(alloc: Global, on: &Sources, node: &Node) -> Result<CBlock, AllocError>
    ghost plan: { Plan }
    requires shows { Shows plan on.now }
    requires ready { IsReady plan on.now node.now }
    ensures { IfOk result (λ b. b ≡ block_c plan on.now.own.now.entry node.now.point) }
{
    match &node.block {
        Block::Outside => Ok(stop_block(alloc, node.point, UNDISCOVERED)),
        Block::Illegal => Ok(stop_block(alloc, node.point, ILLEGAL)),
        Block::Inst(inst, kind) => instruction_block(alloc, on, node.point, inst, *kind),
    }
}

/// How an instruction annuls for an arrival: on a machine without delay it asks for no annul.
fn annul_for(delay: Option<u8>, annul: Mode) -> Mode
    ensures { result ≡ annul_for delay annul }
{
    match delay {
        None => Mode::Always,
        Some(_) => annul,
    }
}

/// Whether an arrival without a slot has a block of its own.
fn leaves_apart(on: &Sources, jump: Mode, annul: Mode, slot: Slot) -> bool
    ghost plan: { Plan }
    requires shows { Shows plan on.now }
    requires known { can_arrive jump annul ≡ true → IsKnown plan on.now slot }
    ensures { result ≡ leaves_apart plan jump annul slot }
{
    match slot {
        Slot::Seq | Slot::To(_) => false,
        _ => {
            if !can_arrive(jump, annul) || always_arrives(jump, annul) {
                return false;
            }
            !is_selected(on, slot)
        }
    }
}

/// The further block of an instruction at `pc` with nothing to come, where it has one.
fn instruction_further(
    alloc: Global,
    on: &Sources,
    pc: u32,
    inst: &GroundInst,
    kind: JumpKind,
) -> Result<Option<CBlock>, AllocError>
    ghost plan: { Plan }
    requires shows { Shows plan on.now }
    requires known { IsKnownInst plan on.now (point_of pc Slot.Seq) inst.now kind }
    ensures { IfOk result (λ found. found ≡ further_of_block plan on.now.own.now.entry pc (Block.Inst inst.now kind)) }
{
    if halts(inst.transfers.as_slice()) {
        return Ok(None);
    }
    let jump = jump_mode(inst.transfers.as_slice());
    let annul = annul_for(on.machine.delay, annul_mode(inst.transfers.as_slice()));
    let slot = pending(pc, kind);
    if !leaves_apart(on, jump, annul, slot) {
        return Ok(None);
    }
    further_block_of(alloc, on, pc, slot)
}

/// The block under the further label of an address that does an arrival alone.
fn further_block_of(
    alloc: Global,
    on: &Sources,
    pc: u32,
    slot: Slot,
) -> Result<Option<CBlock>, AllocError>
    ghost plan: { Plan }
    requires shows { Shows plan on.now }
    requires known { IsKnown plan on.now slot }
    ensures { IfOk result (λ found. found ≡ Some (labelled (further_label pc) (arrival_code plan on.now.own.now.entry slot))) }
{
    let mut stmts = Items::new(alloc);
    let end = push_arrival(alloc, &mut stmts, on, slot)?;
    Ok(Some(CBlock {
        label: further_label(pc),
        stmts,
        end,
    }))
}

/// The further block of a point, where it has one.
pub(crate) fn further_block(
    alloc: Global,
    on: &Sources,
    node: &Node,
) -> Result<Option<CBlock>, AllocError>
    ghost plan: { Plan }
    requires shows { Shows plan on.now }
    requires ready { IsReady plan on.now node.now }
    ensures { IfOk result (λ found. found ≡ further_c plan on.now.own.now.entry node.now.point) }
{
    match (node.point.slot, &node.block) {
        (Slot::Seq, Block::Inst(inst, kind)) => {
            instruction_further(alloc, on, node.point.pc, inst, *kind)
        }
        _ => Ok(None),
    }
}
