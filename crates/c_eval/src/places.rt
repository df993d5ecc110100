//! Where a frame stands: the statements that are left, and the end behind them.
ghost use Rattle.std.specs.Prelude.{◌≡◌, drop, slice_get, IfOk, OnOk};
ghost use Rattle.rtl_core.specs.Contents.{Contents};
ghost use Rattle.c_lang.specs.State.{to_place, At};
ghost use Rattle.c_lang.specs.Step as step;
ghost use Rattle.c_eval.specs.Plain.{state_of, place_of, next_of, behind, in_front};

use crate::copy::{copy_end, copy_stmts};
use crate::state::{PlainPlace, PlainState};
use c_lang::{CBlock, Stmt};
use sqlite_items::Items;
use std::alloc::{AllocError, Global};
use std::mem;

/// Takes the next statement of the call on top, if one is left.
pub fn next_statement(state: &mut PlainState) -> Option<Stmt>
    ensures statement { result ≡ next_of (place_of state.old.top.place) }
    ensures state { (m : Contents) → state_of state.new m ≡ to_place (state_of state.old m) (behind (place_of state.old.top.place)) }
{
    match &mut state.top.place {
        PlainPlace::Nowhere => None,
        PlainPlace::At(rest, _) => take_first(rest),
    }
}

/// Takes the first of some statements.
#[tactic(auto, using(crate::proofs::PlainLaws::first_removed))]
fn take_first(rest: &mut Items<Stmt>) -> Option<Stmt>
    ensures statement { result ≡ slice_get rest.old 0 }
    ensures rest { rest.new ≡ drop 1 rest.old }
{
    if rest.is_empty() {
        None
    } else {
        Some(rest.remove(0))
    }
}

/// Puts statements in front of those that are left.
pub fn put_in_front(state: &mut PlainState, stmts: Items<Stmt>) -> Result<(), AllocError>
    ensures { OnOk result ((m : Contents) → state_of state.new m ≡ to_place (state_of state.old m) (in_front 1 stmts (place_of state.old.top.place))) }
{
    match &mut state.top.place {
        PlainPlace::Nowhere => Ok(()),
        PlainPlace::At(rest, _) => {
            let behind = mem::replace(rest, stmts);
            rest.append(behind)
        }
    }
}

/// Goes on elsewhere in the call on top.
pub fn move_to(state: &mut PlainState, place: PlainPlace)
    ensures { (m : Contents) → state_of state.new m ≡ to_place (state_of state.old m) (place_of place) }
{
    state.top.place = place;
}

/// Where a call begins: at the first block.
pub fn first_place(alloc: Global, blocks: &[CBlock]) -> Result<PlainPlace, AllocError>
    ensures { IfOk result (λ place. place_of place ≡ step.first_place blocks.now) }
{
    match blocks {
        [] => Ok(PlainPlace::Nowhere),
        [first, ..] => start_of(alloc, first),
    }
}

/// The start of a block.
pub fn start_of(alloc: Global, block: &CBlock) -> Result<PlainPlace, AllocError>
    ensures { IfOk result (λ place. place_of place ≡ At block.now.stmts block.now.end) }
{
    Ok(PlainPlace::At(
        copy_stmts(alloc, block.stmts.as_slice())?,
        copy_end(alloc, &block.end)?,
    ))
}
