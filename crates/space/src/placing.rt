//! Putting one more range among those of a Space.
ghost use Rattle.std.specs.Prelude.{◌≡◌, ◌++◌, ◌∷◌, ◌⊎◌, [], true, None, Some, MatchResult, OnOk};
ghost use Rattle.std.specs.List.{list_any};
ghost use Rattle.space.specs.Ranges.{HasRoom, shares};
ghost use Rattle.space.specs.Faults.{range_fault, told};
ghost use Rattle.space.specs.Order.{IsPassed, ascends};
ghost use Rattle.space.specs.Placed.{IsPlaced};

use crate::fault::SpaceFault;
use crate::range::Range;
use crate::search::passed;
use std::alloc::{AllocError, Global};

/// The end of the last address.
const END: u64 = 0x1_0000_0000;

/// A place in a list as faults tell it: 2^32 - 1 at most.
pub(crate) fn told(index: usize) -> u32
    ensures { result ≡ told index }
{
    index.min(u32::MAX as usize) as u32
}

/// Puts a range among those that are kept, or tells its fault.
pub(crate) fn keep(
    alloc: Global,
    kept: &mut Vec<Range>,
    index: u32,
    range: &Range,
) -> Result<(), SpaceFault>
    requires ordered { ascends 0 kept.old.items ≡ true }
    requires room { HasRoom range.now }
    ensures { MatchResult result
        (λ _. (range_fault kept.old.items index range.now ≡ None) × IsPlaced (kept.old.items ++ range.now ∷ []) kept.new.items)
        (λ f. (f ≡ SpaceFault.NoMemory) ⊎ (range_fault kept.old.items index range.now ≡ Some f)) }
{
    let at = passed(kept, range.base);
    if let Some(fault) = fault_at(kept, at, index, range) {
        return Err(fault);
    }
    put_at(alloc, kept, at, index, range)?;
    Ok(())
}

/// The fault of a range, where `at` of those kept end at or below its base.
fn fault_at(kept: &[Range], at: usize, index: u32, range: &Range) -> Option<SpaceFault>
    requires ordered { ascends 0 kept.now ≡ true }
    requires passed { IsPassed kept.now range.now.base at }
    ensures { result ≡ range_fault kept.now index range.now }
{
    if range.end() > END {
        return Some(SpaceFault::PastEnd { index });
    }
    if meets(kept, at, range) {
        return Some(SpaceFault::Overlap { index });
    }
    None
}

/// Whether a range shares an address with one of those kept, of which `at` end at or below its base.
fn meets(kept: &[Range], at: usize, range: &Range) -> bool
    requires ordered { ascends 0 kept.now ≡ true }
    requires passed { IsPassed kept.now range.now.base at }
    ensures { result ≡ list_any (shares range.now) kept.now }
{
    if at == kept.len() {
        return false;
    }
    let next = &kept[at];
    range.shares(next)
}

/// Puts a range without a fault behind the `at` ranges that end at or below its base; an empty one is left out.
fn put_at(
    alloc: Global,
    kept: &mut Vec<Range>,
    at: usize,
    index: u32,
    range: &Range,
) -> Result<(), AllocError>
    requires ordered { ascends 0 kept.old.items ≡ true }
    requires passed { IsPassed kept.old.items range.now.base at }
    requires room { HasRoom range.now }
    requires free { range_fault kept.old.items index range.now ≡ None }
    ensures { OnOk result (IsPlaced (kept.old.items ++ range.now ∷ []) kept.new.items) }
{
    if range.len == 0 {
        return Ok(());
    }
    let whole = range.filled(alloc)?;
    kept.insert(at, whole)?;
    Ok(())
}
