//! Ranges by their bases, and the first one at fault.
//!
//! Ranges in order are tested by their neighbours alone. Only where they have a fault, the first range at fault is looked for, by
//! halves. So both take n log n steps, in whatever order the ranges come.
ghost use Rattle.std.specs.Prelude.{◌≡◌, ◌++◌, ◌-◌, ◌+◌, ◌<◌, ◌⊎◌, [], true, MatchResult, IfOk, OnOk, None, Some};
ghost use Rattle.std.specs.List.{list_any};
ghost use Rattle.paged_space.specs.Faults.{passes_end, ranges_fault};
ghost use Rattle.paged_space.specs.Sorting.{Between, HasFault, IsClear, IsOrder, goes_on, kept, nonempty, rises, the_fault, values};

use crate::fault::SpaceFault;
use crate::range::Range;
use std::alloc::{AllocError, Global};

/// The end of the last address.
const END: u64 = 0x1_0000_0000;

/// The ranges that are not empty, by their bases, or the first fault of all.
pub(crate) fn sorted_or_fault<'a>(
    alloc: Global,
    ranges: &'a [Range],
) -> Result<Vec<&'a Range>, SpaceFault>
    ensures { MatchResult result
        (λ v. IsOrder ranges.now (values v.items) × (rises 0 (values v.items) ≡ true) × (ranges_fault [] ranges.now ≡ None))
        (λ f. (f ≡ SpaceFault.NoMemory) ⊎ (ranges_fault [] ranges.now ≡ Some f)) }
{
    if any_past(ranges) {
        return Err(fault_or_want(first_fault(alloc, ranges)));
    }
    let Ok(order) = in_order(alloc, ranges) else {
        return Err(SpaceFault::NoMemory);
    };
    if is_rising(&order) {
        return Ok(order);
    }
    Err(fault_or_want(first_fault(alloc, ranges)))
}

/// A fault, or want of memory.
fn fault_or_want(found: Result<SpaceFault, AllocError>) -> SpaceFault
    ensures { MatchResult found (λ f. result ≡ f) (λ _. result ≡ SpaceFault.NoMemory) }
{
    match found {
        Ok(fault) => fault,
        Err(_) => SpaceFault::NoMemory,
    }
}

/// The ranges that are not empty, by their bases.
fn in_order<'a>(alloc: Global, ranges: &'a [Range]) -> Result<Vec<&'a Range>, AllocError>
    ensures { IfOk result (λ v. IsOrder ranges.now (values v.items)) }
{
    let mut order = gather(alloc, ranges)?;
    order.sort_unstable_by_key(|range| range.base);
    Ok(order)
}

/// The ranges that are not empty.
fn gather<'a>(alloc: Global, ranges: &'a [Range]) -> Result<Vec<&'a Range>, AllocError>
    ensures { IfOk result (λ v. values v.items ≡ nonempty ranges.now) }
{
    let mut some = Vec::new(alloc);
    for range in ranges {
        keep(&mut some, range)?;
    }
    Ok(some)
}

/// Puts a range behind others, unless it is empty.
fn keep<'a>(some: &mut Vec<&'a Range>, range: &'a Range) -> Result<(), AllocError>
    ensures { OnOk result (values some.new.items ≡ values some.old.items ++ kept range.now) }
{
    if range.len != 0 {
        some.push(range)?;
    }
    Ok(())
}

/// Whether ranges stand in order and share no address.
fn is_rising(order: &[&Range]) -> bool
    ensures { result ≡ rises 0 (values order.now) }
{
    let mut low = 0;
    for range in order {
        if !may_follow(range, low) {
            return false;
        }
        low = range.end();
    }
    true
}

/// Whether a range may stand next where the one before ends here.
fn may_follow(range: &Range, low: u64) -> bool
    ensures { result ≡ goes_on low range.now }
{
    low <= u64::from(range.base) && range.len > 0 && range.end() <= END
}

/// Whether a range goes past the last address.
fn any_past(ranges: &[Range]) -> bool
    ensures { result ≡ list_any passes_end ranges.now }
{
    ranges.iter().any(|range| range.end() > END)
}

/// Whether ranges have no fault.
fn is_clear(alloc: Global, ranges: &[Range]) -> Result<bool, AllocError>
    ensures { IfOk result (λ b. IsClear b ranges.now) }
{
    if any_past(ranges) {
        return Ok(false);
    }
    let order = in_order(alloc, ranges)?;
    Ok(is_rising(&order))
}

/// How many ranges have no fault together, and how many have one.
#[derive(Clone, Copy, Drop)]
pub(crate) struct Bounds {
    pub low: usize,
    pub high: usize,
}

/// The first fault of ranges that have one.
fn first_fault(alloc: Global, ranges: &[Range]) -> Result<SpaceFault, AllocError>
    requires { HasFault ranges.now }
    ensures { IfOk result (λ f. ranges_fault [] ranges.now ≡ Some f) }
{
    let mut bounds = Bounds {
        low: 0,
        high: ranges.len(),
    };
    while bounds.high - bounds.low > 1 {
        bounds = half(alloc, ranges, bounds)?;
    }
    let range = &ranges[bounds.low];
    Ok(fault_at(range, bounds.low))
}

/// The bounds nearer to one another.
fn half(alloc: Global, ranges: &[Range], bounds: Bounds) -> Result<Bounds, AllocError>
    requires between { Between ranges.now bounds.low bounds.high }
    requires apart { bounds.low + 1 < bounds.high }
    ensures { IfOk result (λ b. Between ranges.now b.low b.high × (b.high - b.low < bounds.high - bounds.low)) }
{
    let middle = bounds.low + (bounds.high - bounds.low) / 2;
    let (front, _) = ranges.split_at(middle);
    let clear = is_clear(alloc, front)?;
    if clear {
        return Ok(Bounds {
            low: middle,
            high: bounds.high,
        });
    }
    Ok(Bounds {
        low: bounds.low,
        high: middle,
    })
}

/// The fault of a range that has one.
fn fault_at(range: &Range, index: usize) -> SpaceFault
    ensures { result ≡ the_fault range.now index }
{
    let index = index.min(u32::MAX as usize) as u32;
    if range.end() > END {
        SpaceFault::PastEnd { index }
    } else {
        SpaceFault::Overlap { index }
    }
}
