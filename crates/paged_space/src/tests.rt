//! Values worked by hand.
ghost use Rattle.std.specs.Prelude.{◌≡◌, ◌<◌, ◌-◌, ◌^◌, ℕ, List, [], ◌∷◌, length, MatchOption};
ghost use Rattle.page_pool.specs.Frames.{IsHeld};
ghost use Rattle.paged_space.specs.Moves.{StandIn};
ghost use Rattle.paged_space.specs.Together.{StandTogether};

use super::*;
use page_pool::{Frame, Pool};
use rtl_core::{Memory, Order};
use sqlite_items::Items;
use std::alloc::{AllocError, Global};
use std::test::Fail;

/// A range of zeros that may be written.
fn zeros(alloc: Global, base: u32, len: u32) -> Range {
    Range {
        base,
        len,
        write: true,
        bytes: Items::from_vec(Vec::new(alloc)),
    }
}

/// Why a pool of so many frames has no Space of these ranges, if it has none, and how many frames are spare after the try.
fn tried(
    alloc: Global,
    frames: u32,
    ranges: &[Range],
) -> Result<(Option<SpaceFault>, u32), AllocError>
    requires { length ranges.now < 2 ^ 32 - 1 }
{
    let mut pool = Pool::reserve(alloc, frames)?;
    match Space::build(alloc, &mut pool, ranges) {
        Ok(space) => {
            let spare = pool.spare();
            space.give_back(&mut pool);
            Ok((None, spare))
        }
        Err(fault) => Ok((Some(fault), pool.spare())),
    }
}

#[test]
fn each_range_has_frames_of_its_own(rt: HostRuntime) -> Result<(), Fail> {
    let alloc = rt.alloc();
    let apart = [zeros(alloc, 0x1000, 1), zeros(alloc, 0x3000, 1)];
    assert_eq!(rt; tried(alloc, 1, &apart)?, (Some(SpaceFault::NoFrames), 1));
    assert_eq!(rt; tried(alloc, 2, &apart)?, (None, 0));
    // Two ranges on one page, and one over two pages.
    let near = [zeros(alloc, 0x1FFF, 2), zeros(alloc, 0x1FFE, 1)];
    assert_eq!(rt; frames_of(&near), 3);
    assert_eq!(rt; tried(alloc, 3, &near)?, (None, 0));
    let over = [zeros(alloc, 0x1FFF, 2), zeros(alloc, 0x2000, 1)];
    assert_eq!(rt;
        tried(alloc, 3, &over)?,
        (Some(SpaceFault::Overlap { index: 1 }), 3)
    );
    let past = [zeros(alloc, 0xFFFF_FFFF, 1), zeros(alloc, 0xFFFF_FFFF, 2)];
    assert_eq!(rt;
        tried(alloc, 3, &past)?,
        (Some(SpaceFault::PastEnd { index: 1 }), 3)
    );
    Ok(())
}

/// What a store of 4 bytes answers, where the pool has the frames that it asks.
fn stored(space: &mut Space, pool: &mut Pool, a: u32, v: u64) -> Option<Result<(), AccessFault>>
    requires { StandIn space.old.frames pool.old }
    ensures { StandIn space.new.frames pool.new }
{
    if space.shared(pool) > pool.spare() {
        return None;
    }
    Some(space.store(pool, Order::Little, 4, a, v))
}

/// What a store past the end of a range of 6 bytes answers, and a byte of it after the store.
fn past_the_end(
    alloc: Global,
) -> Result<Option<(Result<(), AccessFault>, Result<u64, AccessFault>)>, AllocError> {
    let mut pool = Pool::reserve(alloc, 1)?;
    let ranges = [zeros(alloc, 0x1000, 6)];
    match Space::build(alloc, &mut pool, &ranges) {
        Ok(space) => {
            let mut space = space;
            let answer = stored(&mut space, &mut pool, 0x1004, 0x1122_3344);
            let byte = space.load(&pool, Order::Little, 1, 0x1004);
            space.give_back(&mut pool);
            Ok(answer.map(|answer| (answer, byte)))
        }
        Err(_) => Ok(None),
    }
}

#[test]
fn a_store_past_the_end_of_a_range_writes_nothing(rt: HostRuntime) -> Result<(), Fail> {
    let alloc = rt.alloc();
    let fault = Err(AccessFault { address: 0x1006 });
    assert_eq!(rt; past_the_end(alloc)?, Some((fault, Ok(0))));
    Ok(())
}

/// Spare frames, and how many of a Space's pages may need one.
#[derive(Clone, Copy, Debug, PartialEq, Eq, Drop)]
struct Counts {
    spare: u32,
    shared: u32,
}

/// The counts of a Space in its pool.
fn counted(space: &Space, pool: &Pool) -> Counts
    requires { StandIn space.now.frames pool.now }
{
    Counts {
        spare: pool.spare(),
        shared: space.shared(pool),
    }
}

/// A store through one of two Spaces that stand together.
fn stored_beside(
    space: &mut Space,
    twin: &Space,
    pool: &mut Pool,
    a: u32,
    v: u64,
) -> Option<Result<(), AccessFault>>
    requires { StandTogether (space.old ∷ twin.now ∷ []) pool.old }
    ensures { StandTogether (space.new ∷ twin.now ∷ []) pool.new }
{
    if space.shared(pool) > pool.spare() {
        return None;
    }
    Some(space.store(pool, Order::Little, 4, a, v))
}

/// What is seen of a Space and its twin around a store of 4 bytes through the first.
#[derive(Clone, Copy, Debug, PartialEq, Eq, Drop)]
struct Seen {
    before: Counts,
    answer: Option<Result<(), AccessFault>>,
    after: Counts,
    first: Result<u64, AccessFault>,
    twin: Result<u64, AccessFault>,
}

/// A store through a Space that has a twin.
fn seen_beside(space: &mut Space, twin: &Space, pool: &mut Pool) -> Seen
    requires { StandTogether (space.old ∷ twin.now ∷ []) pool.old }
    ensures { StandTogether (space.new ∷ twin.now ∷ []) pool.new }
{
    let before = counted(space, pool);
    let answer = stored_beside(space, twin, pool, 0x1FFE, 0xFFFF_FFFF);
    Seen {
        before,
        answer,
        after: counted(space, pool),
        first: space.load(pool, Order::Little, 4, 0x1FFE),
        twin: twin.load(pool, Order::Little, 4, 0x1FFE),
    }
}

/// The same where the twin is made, and given back at the end.
fn seen_of_twins(space: &mut Space, pool: &mut Pool) -> Option<Seen>
    requires { StandIn space.old.frames pool.old }
    ensures { StandIn space.new.frames pool.new }
{
    match space.twin(pool) {
        Ok(twin) => {
            let seen = seen_beside(space, &twin, pool);
            twin.give_back(pool);
            Some(seen)
        }
        Err(_) => None,
    }
}

/// The spare frames behind `build`, what is seen of a Space of two pages and its twin, and the spare frames at the end.
fn twins(alloc: Global, frames: u32) -> Result<Option<(u32, Option<Seen>, u32)>, AllocError> {
    let mut pool = Pool::reserve(alloc, frames)?;
    let ranges = [zeros(alloc, 0x1000, 8192)];
    match Space::build(alloc, &mut pool, &ranges) {
        Ok(space) => {
            let mut space = space;
            let built = pool.spare();
            let seen = seen_of_twins(&mut space, &mut pool);
            space.give_back(&mut pool);
            Ok(Some((built, seen, pool.spare())))
        }
        Err(_) => Ok(None),
    }
}

#[test]
fn a_twin_shares_until_one_of_the_two_writes(rt: HostRuntime) -> Result<(), Fail> {
    let seen = Seen {
        before: Counts {
            spare: 2,
            shared: 2,
        },
        answer: Some(Ok(())),
        after: Counts {
            spare: 0,
            shared: 0,
        },
        first: Ok(0xFFFF_FFFF),
        twin: Ok(0),
    };
    assert_eq!(rt; twins(rt.alloc(), 4)?, Some((2, Some(seen), 4)));
    Ok(())
}

/// Whether no frame is spare.
fn is_spent(pool: &mut Pool) -> bool
    ensures { (fs : List ℕ) → StandIn fs pool.old → StandIn fs pool.new }
{
    match pool.take() {
        Some(frame) => {
            pool.give_back(frame);
            false
        }
        None => true,
    }
}

/// Whether a 1 is written at place 7 of a frame.
fn marked(pool: &mut Pool, frame: &mut Frame) -> bool
    requires { IsHeld pool.old frame.old }
    ensures { (fs : List ℕ) → StandIn (frame.old ∷ fs) pool.old → StandIn (frame.new ∷ fs) pool.new }
{
    pool.write(frame, 7, 1)
}

/// What two holders of a frame see around two tries of one of them to write.
#[derive(Clone, Copy, Debug, PartialEq, Eq, Drop)]
struct Attempts {
    first_try: bool,
    kept: u8,
    second_try: bool,
    other: u8,
    own: u8,
}

/// Tries to write before and after another frame is given back.
fn tries(pool: &mut Pool, frame: &Frame, again: &mut Frame, spared: Frame) -> Attempts
    requires { StandIn (again.old ∷ spared ∷ frame.now ∷ []) pool.old }
    ensures { StandIn (again.new ∷ frame.now ∷ []) pool.new }
{
    let first_try = marked(pool, again);
    let kept = pool.read(frame, 7);
    pool.give_back(spared);
    let second_try = marked(pool, again);
    Attempts {
        first_try,
        kept,
        second_try,
        other: pool.read(frame, 7),
        own: pool.read(again, 7),
    }
}

/// The same with a second holder of the first of two frames.
fn tries_of_two(pool: &mut Pool, first: Frame, second: Frame) -> Option<Attempts>
    requires { StandIn (second ∷ first ∷ []) pool.old }
{
    match pool.share(&first) {
        Some(again) => {
            let mut again = again;
            let tries = tries(pool, &first, &mut again, second);
            pool.give_back(again);
            pool.give_back(first);
            Some(tries)
        }
        None => {
            pool.give_back(second);
            pool.give_back(first);
            None
        }
    }
}

/// The same with two frames of a pool, and whether it has a third one.
fn tries_of(pool: &mut Pool) -> Option<(bool, Option<Attempts>)> {
    let first = pool.take()?;
    match pool.take() {
        Some(second) => {
            let spent = is_spent(pool);
            Some((spent, tries_of_two(pool, first, second)))
        }
        None => {
            pool.give_back(first);
            None
        }
    }
}

#[test]
fn a_write_reaches_one_holder(rt: HostRuntime) -> Result<(), Fail> {
    let seen = Attempts {
        first_try: false,
        kept: 0,
        second_try: true,
        other: 0,
        own: 1,
    };
    let mut pool = Pool::reserve(rt.alloc(), 2)?;
    assert_eq!(rt; tries_of(&mut pool), Some((true, Some(seen))));
    assert_eq!(rt; pool.spare(), 2);
    Ok(())
}
