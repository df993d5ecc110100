//! Matched instructions with their operands and addresses put in.
ghost use Rattle.std.specs.Prelude.{◌≡◌, ◌≤◌, ◌+◌, ◌%◌, ◌^◌, ℕ, drop, length, nat_lt, option_and_then, IsTrue, is_some, IfOk, IfSome, Some, ◌==◌};
ghost use Rattle.std.specs.List.{list_any};
ghost use Rattle.rtl_core.specs.Grounding.{Reader, is_of_type, operand_read, operands_read, chosen_read, operands_of, grounded};
ghost use Rattle.rtl_core.specs.GroundData.{one_read, some_read, arguments_of};

use crate::encodings::OperandKind;
use crate::inst::{GroundInst, Inst};
use crate::machine::Machine;
use crate::put_in::{argument_from, transfers_from};
use crate::site::{Argument, Site};
use crate::width::Width;
use sqlite_items::Items;
use std::alloc::{AllocError, Global};

/// The instruction at `pc`, of so many bytes, with its operands, its address and the address behind it put
/// in. The error is want of memory.
pub fn ground(
    alloc: Global,
    machine: &Machine,
    inst: &Inst,
    pc: u32,
    len: u32,
) -> Result<GroundInst, AllocError>
    requires { IsTrue (is_some (grounded machine.now inst.now pc ((pc + len) % 2 ^ 32))) }
    ensures { IfOk result (λ g. grounded machine.now inst.now pc ((pc + len) % 2 ^ 32) ≡ Some g) }
{
    match try_ground(alloc, machine, inst, pc, len)? {
        Some(inst) => Ok(inst),
        None => unreachable!(),
    }
}

/// The same where the numbers of the operands may spell no operand tree of the machine: `None` exactly
/// there.
#[tactic(auto, unfolding(crate::specs::Grounding::grounded))]
pub fn try_ground(
    alloc: Global,
    machine: &Machine,
    inst: &Inst,
    pc: u32,
    len: u32,
) -> Result<Option<GroundInst>, AllocError>
    ensures { IfOk result (λ g. g ≡ grounded machine.now inst.now pc ((pc + len) % 2 ^ 32)) }
{
    let next = pc.wrapping_add(len);
    let Some(form) = machine.forms.get(inst.constructor as usize) else {
        return Ok(None);
    };
    let kinds = form.kinds.as_slice();
    let arguments = read_all(alloc, machine, pc, next, kinds, inst.leaves.as_slice())?;
    let Some(arguments) = arguments else {
        return Ok(None);
    };
    let site = Site {
        arguments,
        pc,
        next,
    };
    match transfers_from(alloc, machine, &site, &form.template)? {
        None => Ok(None),
        Some(transfers) => Ok(Some(GroundInst {
            constructor: inst.constructor,
            next,
            transfers,
        })),
    }
}

/// The operands of an instruction; `None` exactly where its numbers spell no operand tree.
#[tactic(auto, using(crate::proofs::ReadSteps::all_read_steps))]
fn read_all(
    alloc: Global,
    machine: &Machine,
    pc: u32,
    next: u32,
    kinds: &[OperandKind],
    leaves: &[u32],
) -> Result<Option<Items<Argument>>, AllocError>
    ensures { IfOk result (λ r. arguments_of r ≡ operands_of machine.now pc next kinds.now leaves.now) }
{
    match read_operands(alloc, machine, pc, next, leaves.len(), kinds, leaves)? {
        None => Ok(None),
        Some((arguments, used)) => {
            if used < leaves.len() {
                return Ok(None);
            }
            Ok(Some(arguments))
        }
    }
}

/// The operands of these kinds in order, and how many numbers they take.
#[cycle(reading)]
fn read_operands(
    alloc: Global,
    machine: &Machine,
    pc: u32,
    next: u32,
    deep: usize,
    kinds: &[OperandKind],
    leaves: &[u32],
) -> Result<Option<(Items<Argument>, usize)>, AllocError>
    ensures exact { IfOk result (λ r. some_read leaves.now r ≡ operands_read (chosen_read deep machine.now pc next) machine.now kinds.now leaves.now) }
    ensures within { IfOk result (λ r. IfSome r (λ x. x.1 ≤ length leaves.now)) }
{
    let mut arguments = Items::new(alloc);
    let mut used = 0;
    for kind in kinds {
        let rest = &leaves[used..];
        match read_operand(alloc, machine, pc, next, deep, *kind, rest)? {
            None => return Ok(None),
            Some((argument, more)) => {
                arguments.push(argument)?;
                used += more;
            }
        }
    }
    Ok(Some((arguments, used)))
}

/// One operand, and how many numbers it takes.
#[cycle(reading)]
fn read_operand(
    alloc: Global,
    machine: &Machine,
    pc: u32,
    next: u32,
    deep: usize,
    kind: OperandKind,
    leaves: &[u32],
) -> Result<Option<(Argument, usize)>, AllocError>
    ensures exact { IfOk result (λ r. one_read leaves.now r ≡ operand_read (chosen_read deep machine.now pc next) machine.now kind leaves.now) }
    ensures within { IfOk result (λ r. IfSome r (λ x. x.1 ≤ length leaves.now)) }
{
    match kind {
        OperandKind::Field(w) => Ok(read_field(machine, w, leaves)),
        OperandKind::Typed(t) => match constructor_of(machine, t, leaves) {
            None => Ok(None),
            Some(c) => match read_chosen(alloc, machine, pc, next, deep, c, &leaves[1..])? {
                None => Ok(None),
                Some((argument, used)) => Ok(Some((argument, used + 1))),
            },
        },
    }
}

/// A constructor as an operand, with operands nested less than `deep`, and how many numbers they take.
#[cycle(reading)]
#[tactic(auto, unfolding(crate::specs::Grounding::chosen_read))]
fn read_chosen(
    alloc: Global,
    machine: &Machine,
    pc: u32,
    next: u32,
    deep: usize,
    c: u32,
    leaves: &[u32],
) -> Result<Option<(Argument, usize)>, AllocError>
    ensures exact { IfOk result (λ r. one_read leaves.now r ≡ chosen_read deep machine.now pc next c leaves.now) }
    ensures within { IfOk result (λ r. IfSome r (λ x. x.1 ≤ length leaves.now)) }
{
    if deep == 0 {
        return Ok(None);
    }
    let Some(form) = machine.forms.get(c as usize) else {
        return Ok(None);
    };
    let kinds = form.kinds.as_slice();
    match read_operands(alloc, machine, pc, next, deep - 1, kinds, leaves)? {
        None => Ok(None),
        Some((arguments, used)) => {
            let site = Site {
                arguments,
                pc,
                next,
            };
            match argument_from(alloc, machine, &site, &form.template)? {
                None => Ok(None),
                Some(argument) => Ok(Some((argument, used))),
            }
        }
    }
}

/// A field's number, where there is one that fits it.
fn read_field(machine: &Machine, w: Width, leaves: &[u32]) -> Option<(Argument, usize)>
    ensures exact { (chosen : Reader) → one_read leaves.now result ≡ operand_read chosen machine.now (OperandKind.Field w) leaves.now }
    ensures within { IfSome result (λ x. x.1 ≤ length leaves.now) }
{
    let _ = machine;
    let n = *leaves.get(0)?;
    if fits(w, n) {
        Some((Argument::Number(w, n), 1))
    } else {
        None
    }
}

/// Whether a number has at most so many bits.
fn fits(w: Width, n: u32) -> bool
    ensures { result ≡ nat_lt n (2 ^ w) }
{
    if w.bits() >= 32 {
        return true;
    }
    (n as u64) < 1u64 << w.bits()
}

/// The constructor at the front of the numbers, where it is one of a type.
fn constructor_of(machine: &Machine, kind: u16, leaves: &[u32]) -> Option<u32>
    ensures exact { (chosen : Reader) → operand_read chosen machine.now (OperandKind.Typed kind) leaves.now ≡ option_and_then (λ c. chosen c (drop 1 leaves.now)) result }
    ensures within { IfSome result (λ c. 1 ≤ length leaves.now) }
{
    let c = *leaves.get(0)?;
    if is_of(machine, kind, c) {
        Some(c)
    } else {
        None
    }
}

/// Whether a constructor is one of a type.
fn is_of(machine: &Machine, kind: u16, c: u32) -> bool
    ensures { result ≡ is_of_type machine.now kind c }
{
    match machine.types.get(kind as usize) {
        None => false,
        Some(constructors) => has(constructors.as_slice(), c),
    }
}

fn has(constructors: &[u16], c: u32) -> bool
    ensures { result ≡ list_any (λ d. d == c) constructors.now }
{
    constructors.iter().any(|d| *d as u32 == c)
}
