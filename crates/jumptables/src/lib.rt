//! The tables of computed plain jumps.
#![tactic(auto)]

mod frozen_memory;
mod influence;
pub mod laws;
mod links;
mod mentions;
mod partial_run;
mod search;
mod values;

ghost use Rattle.std.specs.Prelude.{◌≡◌, IfOk, true};
ghost use Rattle.points.specs.Bundles.{setting_of, IsSoundBundle};
ghost use Rattle.points.specs.Flows.{is_computed};
ghost use Rattle.points.specs.Kinds.{block_at};
ghost use Rattle.points.specs.Machine.{standing};
ghost use Rattle.points.specs.declared.block.Standing.TheVariants.{Stands};
ghost use Rattle.points.specs.Tables.{IsTable};

use crate::links::{Link, instruction_at, links_to};
use crate::search::Search;
use decode::Bundle;
use rtl_core::GroundInst;
use std::alloc::{AllocError, Global};

/// The table of the computed plain jump that stands at an address: the targets that the instructions right before it
/// show, ascending, each once. The error is want of memory.
///
/// The instructions before the jump are tried as chains that lead up to it, with numbers in one cell at a time. A chain
/// that is left above some number, by a jump, is bounded, and its targets are those for the numbers below. Where none is
/// bounded, the targets are those for 0, 1 and so on up to the first that is unknown or no code.
pub fn table(alloc: Global, on: &Bundle, at: u32) -> Result<Vec<u32>, AllocError>
    requires sound { IsSoundBundle on.now }
    requires jump { is_computed (block_at (setting_of on.now) at) ≡ true }
    ensures { IfOk result (λ targets. IsTable (setting_of on.now) at targets.items) }
{
    match instruction_at(alloc, on, at)? {
        Some(jump) => table_of(alloc, on, at, jump),
        None => unreachable!(),
    }
}

/// The table of a jump.
fn table_of(alloc: Global, on: &Bundle, at: u32, jump: GroundInst) -> Result<Vec<u32>, AllocError>
    requires sound { IsSoundBundle on.now }
    requires stands { standing (setting_of on.now) at ≡ Stands jump }
    ensures { IfOk result (λ targets. IsTable (setting_of on.now) at targets.items) }
{
    let link = Link::new(alloc, on.machine, jump)?;
    let links = links_to(alloc, on, at)?;
    let search = Search {
        on: *on,
        at,
        jump: link,
        links,
    };
    let targets = search.table(alloc)?;
    Ok(targets)
}
