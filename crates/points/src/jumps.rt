//! How the instruction at an address jumps, and where a procedure may return to besides a return address.
ghost use Rattle.std.specs.Prelude.{◌≡◌, ◌+◌, ◌%◌, ◌^◌, if◌then◌else◌, Some, None, IfOk};
ghost use Rattle.std.specs.List.{list_any};
ghost use Rattle.std.specs.Option.{option_copied};
ghost use Rattle.rtl_core.specs.SoundTerms.{AreSoundTransfers};
ghost use Rattle.points.specs.Bundles.{setting_of, IsSoundBundle};
ghost use Rattle.points.specs.Kinds.{past_slot, jump_target, kind_by, is_named, is_link, replaces_return, standing_replaces_return, is_sibling, manner_of, return_address, kind_of, block_at, second};

use crate::block::{Block, JumpKind, Standing};
use crate::constants::constant_target;
use crate::decoding::standing_at;
use decode::{Bundle, Found, inst_at};
use rtl_core::{Act, Conv, Expr, GroundInst, Machine, Transfer};
use sled_match::MatchedInst;
use std::alloc::{AllocError, Global};

/// What a jump is for.
#[derive(Clone, Copy, Debug, PartialEq, Eq)]
pub enum Manner {
    Plain,
    Calling,
    Returning,
}

/// What stands at an address, with how it jumps. The error is want of memory.
///
/// On a machine with delay, a call whose slot replaces the return address of the caller is a plain jump: the procedure
/// that it enters returns for the caller (The SPARC Architecture Manual, Version 8, "Call and Link Instruction", "SAVE and RESTORE Instructions").
#[tactic(auto, unfolding(crate::specs::Kinds::block_at))]
pub fn block_at(alloc: Global, on: &Bundle, pc: u32) -> Result<Block, AllocError>
    requires { IsSoundBundle on.now }
    ensures { IfOk result (λ block. block ≡ block_at (setting_of on.now) pc) }
{
    match standing_at(alloc, on, pc)? {
        Standing::Outside => Ok(Block::Outside),
        Standing::Illegal => Ok(Block::Illegal),
        Standing::Stands(inst) => {
            let kind = kind_of(alloc, on, &inst)?;
            Ok(Block::Inst(inst, kind))
        }
    }
}

/// Where a procedure may return to besides the return address `r`: behind the pad that stands there, if one does.
/// Takes no memory.
pub fn second(on: &Bundle, r: u32) -> Option<u32>
    requires { IsSoundBundle on.now }
    ensures { result ≡ second (setting_of on.now) r }
{
    match inst_at(on, r) {
        Found::Outside => None,
        Found::Illegal => None,
        Found::Inst(found) => behind_pad(on.conv, r, &found),
    }
}

/// The address behind a matched instruction, where that is a pad.
fn behind_pad(conv: &Conv, at: u32, found: &MatchedInst) -> Option<u32>
    ensures { result ≡ (if is_named conv.now.pads found.now.inst.constructor then Some ((at + found.now.len) % 2 ^ 32) else None) }
{
    if is_named(conv.pads.as_slice(), found.inst.constructor) {
        Some(at.wrapping_add(found.len))
    } else {
        None
    }
}

/// How an instruction jumps.
fn kind_of(alloc: Global, on: &Bundle, inst: &GroundInst) -> Result<JumpKind, AllocError>
    requires sound { IsSoundBundle on.now }
    requires transfers { AreSoundTransfers on.now.machine.now inst.now.transfers }
    ensures { IfOk result (λ kind. kind ≡ kind_of (setting_of on.now) inst.now) }
{
    let Some(expr) = jump_target(inst.transfers.as_slice()) else {
        return Ok(JumpKind::Never);
    };
    let manner = manner_of(alloc, on, inst)?;
    let target = constant_target(alloc, on.machine, expr)?;
    Ok(kind_by(manner, target, return_address(on.machine, inst)))
}

/// How an instruction jumps, by what for, its target where that is constant, and its return address.
fn kind_by(manner: Manner, target: Option<u32>, back: u32) -> JumpKind
    ensures { result ≡ kind_by manner target back }
{
    match (manner, target) {
        (Manner::Plain, None) => JumpKind::Dyn,
        (Manner::Plain, Some(t)) => JumpKind::To(t),
        (Manner::Calling, None) => JumpKind::CallDyn(back),
        (Manner::Calling, Some(t)) => JumpKind::CallTo(t, back),
        (Manner::Returning, _) => JumpKind::Ret,
    }
}

/// What an instruction's jump is for.
fn manner_of(alloc: Global, on: &Bundle, inst: &GroundInst) -> Result<Manner, AllocError>
    requires { IsSoundBundle on.now }
    ensures { IfOk result (λ manner. manner ≡ manner_of (setting_of on.now) inst.now) }
{
    if is_named(on.conv.calls.as_slice(), inst.constructor) {
        return if is_sibling(alloc, on, inst.next)? {
            Ok(Manner::Plain)
        } else {
            Ok(Manner::Calling)
        };
    }
    if is_named(on.conv.returns.as_slice(), inst.constructor) {
        return Ok(Manner::Returning);
    }
    Ok(Manner::Plain)
}

/// Whether a call whose slot begins at `next` hands the caller's return address on.
fn is_sibling(alloc: Global, on: &Bundle, next: u32) -> Result<bool, AllocError>
    requires { IsSoundBundle on.now }
    ensures { IfOk result (λ sibling. sibling ≡ is_sibling (setting_of on.now) next) }
{
    if on.machine.delay.is_none() {
        return Ok(false);
    }
    let standing = standing_at(alloc, on, next)?;
    Ok(standing_replaces_return(on.conv.link, &standing))
}

/// Whether an instruction replaces the return address of its procedure, whatever its guards.
fn standing_replaces_return(link: Option<u8>, standing: &Standing) -> bool
    ensures { result ≡ standing_replaces_return link standing.now }
{
    match standing {
        Standing::Outside | Standing::Illegal => false,
        Standing::Stands(inst) => any_replaces_return(link, inst.transfers.as_slice()),
    }
}

fn any_replaces_return(link: Option<u8>, transfers: &[Transfer]) -> bool
    ensures { result ≡ list_any (λ t. replaces_return link t.act) transfers.now }
{
    transfers.iter().any(|t| replaces_return(link, &t.act))
}

fn replaces_return(link: Option<u8>, act: &Act) -> bool
    ensures { result ≡ replaces_return link act.now }
{
    match act {
        Act::SetCell(c, _) | Act::SetSlice(c, _, _, _) => is_link(link, *c),
        Act::WinRestore => true,
        _ => false,
    }
}

/// Whether this is the link cell.
fn is_link(link: Option<u8>, c: u8) -> bool
    ensures { result ≡ is_link link c }
{
    match link {
        None => false,
        Some(link) => c == link,
    }
}

/// The target of an instruction's jump, where it has one.
fn jump_target(transfers: &[Transfer]) -> Option<&Expr>
    ensures { option_copied result ≡ jump_target transfers.now }
{
    for transfer in transfers {
        if let Act::Jump(target) = &transfer.act {
            return Some(target);
        }
    }
    None
}

/// Whether the conventions name a constructor.
fn is_named(constructors: &[u16], c: u16) -> bool
    ensures { result ≡ is_named constructors.now c }
{
    constructors.iter().any(|d| *d == c)
}

/// The return address of a call: behind the instruction, and behind its slot where there is one.
fn return_address(machine: &Machine, inst: &GroundInst) -> u32
    ensures { result ≡ return_address machine.now inst.now }
{
    past_slot(machine.delay, inst.next)
}

/// The address behind the delay slot that begins at an address.
pub fn past_slot(delay: Option<u8>, a: u32) -> u32
    ensures { result ≡ past_slot delay a }
{
    match delay {
        None => a,
        Some(bytes) => a.wrapping_add(u32::from(bytes)),
    }
}
