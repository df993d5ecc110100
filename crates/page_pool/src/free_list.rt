//! Numbers of holders, beside a list of the frames that have none.
//!
//! The list has a place for each frame; the numbers stand in the first `spare` of them, the one that is taken next at the end.
ghost use Rattle.std.specs.Prelude.{◌≡◌, ◌==◌, ◌<◌, ◌≤◌, ◌+◌, ◌-◌, ◌^◌, ℕ, length, slice_index, slice_set, if◌then◌else◌, IfOk};
ghost use Rattle.page_pool.specs.FreeList.{ListsFree};

use std::alloc::{AllocError, Global};

/// A frame without a holder gets its first one.
pub(crate) fn lend(holders: &mut [u16], free: &[u32], spare: u32) -> u32
    requires listed { ListsFree holders.old free.now spare }
    requires some { 1 ≤ spare }
    ensures within { result < length holders.old }
    ensures free { slice_index holders.old result ≡ 0 }
    ensures holders { holders.new ≡ slice_set holders.old result 1 }
    ensures listed { ListsFree holders.new free.now (spare - 1) }
{
    let number = free[(spare - 1) as usize];
    holders[number as usize] = 1;
    number
}

/// One of several holders of a frame gets another frame, which had none.
pub(crate) fn part(holders: &mut [u16], free: &[u32], spare: u32, n: usize) -> u32
    requires listed { ListsFree holders.old free.now spare }
    requires some { 1 ≤ spare }
    requires within { n < length holders.old }
    requires shared { 2 ≤ slice_index holders.old n }
    ensures within { result < length holders.old }
    ensures free { slice_index holders.old result ≡ 0 }
    ensures holders { holders.new ≡ slice_set (slice_set holders.old n (slice_index holders.old n - 1)) result 1 }
    ensures listed { ListsFree holders.new free.now (spare - 1) }
{
    holders[n] -= 1;
    lend(holders, free, spare)
}

/// A frame that has a holder gets one more.
pub(crate) fn join(holders: &mut [u16], free: &[u32], spare: u32, n: usize)
    requires listed { ListsFree holders.old free.now spare }
    requires within { n < length holders.old }
    requires held { 1 ≤ slice_index holders.old n }
    requires room { slice_index holders.old n < 65535 }
    ensures holders { holders.new ≡ slice_set holders.old n (slice_index holders.old n + 1) }
    ensures listed { ListsFree holders.new free.now spare }
{
    holders[n] += 1;
}

/// A frame loses a holder; answers how many have none then.
pub(crate) fn leave(holders: &mut [u16], free: &mut [u32], spare: u32, number: u32) -> u32
    requires listed { ListsFree holders.old free.old spare }
    requires few { length holders.old < 2 ^ 32 }
    requires within { number < length holders.old }
    requires held { 1 ≤ slice_index holders.old number }
    ensures holders { holders.new ≡ slice_set holders.old number (slice_index holders.old number - 1) }
    ensures spare { result ≡ (if slice_index holders.old number == 1 then spare + 1 else spare) }
    ensures listed { ListsFree holders.new free.new result }
{
    let n = number as usize;
    if holders[n] > 1 {
        holders[n] -= 1;
        return spare;
    }
    holders[n] = 0;
    free[spare as usize] = number;
    spare + 1
}

/// The numbers below one.
pub(crate) fn numbers(alloc: Global, end: u32) -> Result<Vec<u32>, AllocError>
    ensures { IfOk result (λ v. (length v.items ≡ end) × ((k : ℕ) → k < end → slice_index v.items k ≡ k)) }
{
    let mut list = vec![in alloc; 0; end as usize]?;
    for n in 0..end {
        list[n as usize] = n;
    }
    Ok(list)
}
