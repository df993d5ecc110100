//! Taking and giving back a holder of each of some frames.
ghost use Rattle.std.specs.Prelude.{◌≡◌, ◌==◌, ◌&&◌, nat_le, ◌≤◌, ◌<◌, ◌^◌, ℕ, [], true, false, length, slice_index, count_by, vec_capacity};
ghost use Rattle.page_pool.specs.Frames.{IsHeld, holders_of};
ghost use Rattle.paged_space.specs.Moves.{StandIn, one_if};
ghost use Rattle.paged_space.specs.Follows.{shared_in};
ghost use Rattle.paged_space.specs.Sharing.{HasFull, HasRoomIn, IsGiven, IsShared};

use page_pool::{Frame, Pool};

/// Whether one of some frames has as many holders as it may have.
pub(crate) fn any_full(frames: &[Frame], pool: &Pool) -> bool
    requires { StandIn frames.now pool.now }
    ensures full { result ≡ true → HasFull frames.now pool.now }
    ensures room { result ≡ false → HasRoomIn frames.now pool.now }
{
    for frame in frames {
        if pool.holders(frame) == u16::MAX {
            return true;
        }
    }
    false
}

/// One more holder of each of some frames.
pub(crate) fn share_all(frames: &[Frame], out: &mut Vec<Frame>, pool: &mut Pool)
    requires stand { StandIn frames.now pool.old }
    requires once { (n : ℕ) → count_by (λ f. f == n) frames.now ≤ 1 }
    requires room { HasRoomIn frames.now pool.old }
    requires empty { out.old.items ≡ [] }
    requires capacity { length frames.now ≤ vec_capacity out.old }
    ensures same { out.new.items ≡ frames.now }
    ensures shared { IsShared frames.now pool.old pool.new }
{
    for frame in frames {
        out.push_reserved(pool.hold(frame));
    }
}

/// Gives some frames back.
pub(crate) fn give_frames(frames: Vec<Frame>, pool: &mut Pool)
    requires { StandIn frames.items pool.old }
    ensures { IsGiven frames.items pool.old pool.new }
{
    let mut frames = frames;
    while let Some(frame) = frames.pop() {
        pool.give_back(frame);
    }
    frames.destroy_empty();
}

/// How many of the pages that may be written have a frame with another holder.
pub(crate) fn count_shared(frames: &[Frame], writes: &[bool], pool: &Pool) -> u32
    requires stand { StandIn frames.now pool.now }
    requires long { length writes.now ≡ length frames.now }
    requires few { length frames.now < 2 ^ 32 }
    ensures { result ≡ shared_in writes.now frames.now pool.now }
{
    let mut count = 0;
    for (k, frame) in frames.iter().enumerate() {
        count += shared_page(frame, writes[k], pool);
    }
    count
}

/// 1 where a page may be written and its frame has another holder, else 0.
fn shared_page(frame: &Frame, write: bool, pool: &Pool) -> u32
    requires { IsHeld pool.now frame.now }
    ensures { result ≡ one_if (write && nat_le 2 (holders_of pool.now frame.now)) }
{
    if write && pool.holders(frame) > 1 {
        1
    } else {
        0
    }
}
