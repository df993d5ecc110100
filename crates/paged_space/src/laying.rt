//! Taking pages for ranges.
ghost use Rattle.std.specs.Prelude.{◌≡◌, ◌++◌, ◌∷◌, [], true, replicate, ℕ, ◌+◌, ◌≤◌, ◌<◌, ◌^◌, length, vec_len, vec_capacity};
ghost use Rattle.page_pool.specs.Frames.{Frames, spare_of};
ghost use Rattle.paged_space.specs.LaidOut.{HasGrown, Laid, pages_in, pages_of_all};
ghost use Rattle.paged_space.specs.Ranges.{end_of};
ghost use Rattle.paged_space.specs.Sorting.{rises, values};

use crate::extent::Extent;
use crate::range::Range;
use page_pool::{Frame, Pool};

/// Lays ranges on pages of their own, one behind the other.
pub(crate) fn lay(
    order: &[&Range],
    extents: &mut Vec<Extent>,
    frames: &mut Vec<Frame>,
    writes: &mut Vec<bool>,
    pool: &mut Pool,
)
    requires rises { rises 0 (values order.now) ≡ true }
    requires no_extents { extents.old.items ≡ [] }
    requires no_frames { frames.old.items ≡ [] }
    requires no_writes { writes.old.items ≡ [] }
    requires room { length order.now ≤ vec_capacity extents.old }
    requires room_frames { pages_of_all (values order.now) ≤ vec_capacity frames.old }
    requires room_writes { pages_of_all (values order.now) ≤ vec_capacity writes.old }
    requires spare { pages_of_all (values order.now) ≤ spare_of pool.old }
    ensures { Laid (values order.now) [] extents.new.items frames.new.items writes.new.items pool.old pool.new }
{
    for range in order {
        lay_one(range, extents, frames, writes, pool);
    }
}

/// Lays one more range.
fn lay_one(
    range: &Range,
    extents: &mut Vec<Extent>,
    frames: &mut Vec<Frame>,
    writes: &mut Vec<bool>,
    pool: &mut Pool,
)
    requires some { 1 ≤ range.now.len }
    requires end { end_of range.now ≤ 2 ^ 32 }
    requires room { vec_len extents.old < vec_capacity extents.old }
    requires room_frames { vec_len frames.old + pages_in range.now ≤ vec_capacity frames.old }
    requires room_writes { vec_len writes.old + pages_in range.now ≤ vec_capacity writes.old }
    requires spare { pages_in range.now ≤ spare_of pool.old }
    ensures extents { extents.new.items ≡ extents.old.items ++ record { base = range.now.base; len = range.now.len; first = length frames.old.items } ∷ [] }
    ensures grown { HasGrown range.now (pages_in range.now) frames.old.items frames.new.items pool.old pool.new }
    ensures writes { writes.new.items ≡ writes.old.items ++ replicate (pages_in range.now) range.now.write }
    ensures capacity { vec_capacity extents.new ≡ vec_capacity extents.old }
    ensures capacity_frames { vec_capacity frames.new ≡ vec_capacity frames.old }
    ensures capacity_writes { vec_capacity writes.new ≡ vec_capacity writes.old }
{
    let extent = Extent {
        base: range.base,
        len: range.len,
        first: frames.len(),
    };
    extents.push_reserved(extent);
    take_pages(range, frames, pool);
    push_flags(writes, range.pages(), range.write);
}

/// Puts a flag behind others, some times over.
fn push_flags(writes: &mut Vec<bool>, count: usize, flag: bool)
    requires { vec_len writes.old + count ≤ vec_capacity writes.old }
    ensures items { writes.new.items ≡ writes.old.items ++ replicate count flag }
    ensures capacity { vec_capacity writes.new ≡ vec_capacity writes.old }
{
    for _ in 0..count {
        writes.push_reserved(flag);
    }
}

/// Takes a frame for each page of a range.
pub(crate) fn take_pages(range: &Range, frames: &mut Vec<Frame>, pool: &mut Pool)
    requires some { 1 ≤ range.now.len }
    requires end { end_of range.now ≤ 2 ^ 32 }
    requires room { vec_len frames.old + pages_in range.now ≤ vec_capacity frames.old }
    requires spare { pages_in range.now ≤ spare_of pool.old }
    ensures grown { HasGrown range.now (pages_in range.now) frames.old.items frames.new.items pool.old pool.new }
    ensures capacity { vec_capacity frames.new ≡ vec_capacity frames.old }
{
    for j in 0..range.pages() {
        let frame = pool.take_with(range.start(j), range.piece(j));
        frames.push_reserved(frame);
    }
}
