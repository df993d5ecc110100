//! The instructions before a jump that may stand in a chain to it. Each address is decoded once.
ghost use Rattle.std.specs.Prelude.{ℕ, ◌≡◌, ◌≤◌, ◌<◌, ◌^◌, IfOk, length};
ghost use Rattle.std.specs.List.{All, list_any};
ghost use Rattle.rtl_core.specs.SoundTerms.{is_jump, IsSoundTransfer};
ghost use Rattle.points.specs.Courses.{does_always};
ghost use Rattle.points.specs.Machine.{standing};
ghost use Rattle.points.specs.Bundles.{setting_of, IsSoundBundle};
ghost use Rattle.jumptables.specs.Links.{FindsLink, AreLinks, IsSoundLink, inst_of};
ghost use Rattle.jumptables.specs.Mentions.{mentioned_of};

use crate::mentions::mentioned;
use decode::Bundle;
use points::{Standing, standing_at};
use rtl_core::{Act, GroundInst, Machine, Transfer};
use sqlite_items::Items;
use std::alloc::{AllocError, Global};

/// The greatest number of bytes from the start of a chain to its jump.
const MOST_BACK: u32 = 64;

/// An instruction, and for each cell whether it mentions it.
#[derive(Drop)]
pub struct Link {
    pub inst: GroundInst,
    pub mentioned: Items<bool>,
}

impl Link {
    pub fn new(alloc: Global, machine: &Machine, inst: GroundInst) -> Result<Link, AllocError>
        ensures inst { IfOk result (λ link. link.inst ≡ inst) }
        ensures mentioned { IfOk result (λ link. link.mentioned ≡ mentioned_of (length machine.now.widths) inst) }
    {
        let mentioned = mentioned(alloc, machine, &inst)?;
        Ok(Link { inst, mentioned })
    }
}

/// For each number of bytes before a jump the instruction that stands there, where it may stand in a chain to the jump.
pub fn links_to(alloc: Global, on: &Bundle, at: u32) -> Result<Items<Option<Link>>, AllocError>
    requires { IsSoundBundle on.now }
    ensures { IfOk result (AreLinks (setting_of on.now) at) }
{
    let mut links = Items::new(alloc);
    for back in 0..farthest(at) + 1 {
        links.push(find_link(alloc, on, at, at - back)?)?;
    }
    Ok(links)
}

/// How far before a jump a chain to it may start.
pub fn farthest(at: u32) -> u32
    ensures at { result ≤ at }
    ensures most { result ≤ 64 }
    ensures all { (b : ℕ) → b ≤ at → b ≤ 64 → b ≤ result }
{
    if at < MOST_BACK { at } else { MOST_BACK }
}

/// The instruction at an address, where it may stand in a chain to a jump.
fn find_link(alloc: Global, on: &Bundle, at: u32, pc: u32) -> Result<Option<Link>, AllocError>
    requires { IsSoundBundle on.now }
    ensures { IfOk result (FindsLink (setting_of on.now) at pc) }
{
    if pc >= at {
        return Ok(None);
    }
    let Some(inst) = instruction_at(alloc, on, pc)? else {
        return Ok(None);
    };
    if inst.next <= pc || jumps_always(inst.transfers.as_slice()) {
        return Ok(None);
    }
    let link = Link::new(alloc, on.machine, inst)?;
    Ok(Some(link))
}

/// The instruction that stands at an address, where one does.
pub fn instruction_at(alloc: Global, on: &Bundle, pc: u32) -> Result<Option<GroundInst>, AllocError>
    requires { IsSoundBundle on.now }
    ensures { IfOk result (λ o. o ≡ inst_of (standing (setting_of on.now) pc)) }
{
    match standing_at(alloc, on, pc)? {
        Standing::Stands(inst) => Ok(Some(inst)),
        Standing::Illegal | Standing::Outside => Ok(None),
    }
}

/// Whether a jump without a guard stands among transfers.
fn jumps_always(transfers: &[Transfer]) -> bool
    ensures { result ≡ list_any (does_always is_jump) transfers.now }
{
    transfers
        .iter()
        .any(|t| t.guard.is_none() && is_jump(&t.act))
}

fn is_jump(act: &Act) -> bool
    ensures { result ≡ is_jump act.now }
{
    matches!(act, Act::Jump(_))
}
