//! Whether a straight line ends within some addresses.
ghost use Rattle.std.specs.Prelude.{◌≡◌, IfOk};
ghost use Rattle.points.specs.Bundles.{setting_of, IsSoundBundle};
ghost use Rattle.points.specs.Machine.{standing};
ghost use Rattle.stepper.specs.LineEnds.{always_leaves, behind, ends_within, leaves, never_goes_on, onward};

use decode::{Bundle, Found, inst_at};
use rtl_core::{Act, GroundInst, Transfer, try_ground};
use std::alloc::{AllocError, Global};

/// Whether the line from `entry` on has at most `most` addresses, its end counted. An error is a want of memory.
#[tactic(auto, using(crate::proofs::LineLaws::no_more_ends, crate::proofs::LineLaws::ends_ended))]
pub fn line_ends(alloc: Global, on: &Bundle, most: usize, entry: u32) -> Result<bool, AllocError>
    requires { IsSoundBundle on.now }
    ensures { IfOk result (λ ended. ended ≡ ends_within (setting_of on.now) most entry) }
{
    let mut place = Some(entry);
    for _ in 0..most {
        let Some(pc) = place else {
            return Ok(true);
        };
        place = next_address(alloc, on, pc)?;
    }
    Ok(place.is_none())
}

/// The address behind that of an instruction, where the line goes on.
#[tactic(auto, using(crate::proofs::LineLaws::stands_outside, crate::proofs::LineLaws::stands_illegal, crate::proofs::LineLaws::stands_ground))]
fn next_address(alloc: Global, on: &Bundle, pc: u32) -> Result<Option<u32>, AllocError>
    requires { IsSoundBundle on.now }
    ensures { IfOk result (λ next. next ≡ onward (standing (setting_of on.now) pc)) }
{
    match inst_at(on, pc) {
        Found::Outside | Found::Illegal => Ok(None),
        Found::Inst(found) => match try_ground(alloc, on.machine, &found.inst, pc, found.len)? {
            None => Ok(None),
            Some(inst) => Ok(address_behind(&inst)),
        },
    }
}

/// The address behind an instruction, or None where control never goes on.
fn address_behind(inst: &GroundInst) -> Option<u32>
    ensures { result ≡ behind inst.now }
{
    if ends_line(inst.transfers.as_slice()) {
        None
    } else {
        Some(inst.next)
    }
}

/// Whether control never goes on behind these transfers.
fn ends_line(transfers: &[Transfer]) -> bool
    ensures { result ≡ never_goes_on transfers.now }
{
    transfers.iter().any(|transfer| always_stops(transfer))
}

fn always_stops(transfer: &Transfer) -> bool
    ensures { result ≡ always_leaves transfer.now }
{
    transfer.guard.is_none() && keeps_from_going_on(&transfer.act)
}

fn keeps_from_going_on(act: &Act) -> bool
    ensures { result ≡ leaves act.now }
{
    match act {
        Act::Jump(_) | Act::Annul | Act::Trap(_) => true,
        _ => false,
    }
}
