//! Building a Space, sharing it, and giving it back.
ghost use Rattle.std.specs.Prelude.{◌≡◌, ◌≤◌, ◌<◌, ◌-◌, ◌^◌, ℕ, Ok, true, length, IfSome, MatchResult};
ghost use Rattle.page_pool.specs.Frames.{Frames, spare_of};
ghost use Rattle.rtl_core.specs.Contents.{byte_of, is_writable, put};
ghost use Rattle.paged_space.specs.PageTable.{table, contents_of};
ghost use Rattle.paged_space.specs.Moves.{StandIn};
ghost use Rattle.paged_space.specs.Follows.{Follows, shared_of};
ghost use Rattle.paged_space.specs.Stored.{IsPieceStored};
ghost use Rattle.paged_space.specs.LaidOut.{IsBuilt, pages_of_all};
ghost use Rattle.paged_space.specs.Sorting.{rises, values};
ghost use Rattle.paged_space.specs.Built.{IsBuiltFrom, IsRefused};
ghost use Rattle.rtl_core.specs.Access.{is_size};
ghost use Rattle.paged_space.specs.Accesses.{load_answer};
ghost use Rattle.paged_space.specs.Sharing.{HasRoomIn};
ghost use Rattle.paged_space.specs.Twinned.{HasNoTwin, IsGivenBack, IsTwinOf};

use crate::fault::{SpaceFault, TwinFault};
use crate::laying::lay;
use crate::pages::{load_in, load_word, store_in, store_piece_in, writable_in};
use crate::range::{Range, frames_of};
use crate::search::Extents;
use crate::sharing::{any_full, count_shared, give_frames, share_all};
use crate::sorting::sorted_or_fault;
use page_pool::{Frame, Pool};
use rtl_core::Order;
use std::alloc::{AllocError, Global};
use std::marker::Model;

/// A map of bytes at 32-bit addresses, each of which may be read, and written where its range says so.
///
/// Each range that it was built from has frames of its own, one for each page that it touches, so a page of addresses that two
/// ranges touch has two frames. Every call with a Space and a pool asks that the Space stands in this pool: no frame is held in it
/// more often than it has holders. A Space has to be given back to its pool.
pub struct Space {
    alloc: Global,
    // By address. They share no address.
    extents: Extents,
    // For each page of each extent its frame, and whether it may be written.
    frames: Vec<Frame>,
    writes: Vec<bool>,
}

/// Want of memory, with the Space that was handed in, as it was.
pub struct Unbuilt {
    pub space: Space,
}

impl Model for Space {
    ghost use Rattle.paged_space.specs.PageTable.{table, IsSound, PageTable};

    ghost Value = { PageTable };

    ghost view = { λ s. record { extents = s.extents; frames = s.frames.items; writes = s.writes.items } };

    ghost invariant = { λ s. IsSound (table s.extents s.frames.items s.writes.items) };
}

impl Space {
    /// The memory of ranges, on spare frames: an address in a range holds its byte, 0 behind its `bytes`, and may be written where the
    /// range has `write`. No other address is mapped.
    ///
    /// Where a range goes past 2^32 or shares an address with an earlier one, the first such range is told. `NoFrames` comes exactly
    /// where there is none and fewer frames are spare than `frames_of` counts.
    pub fn build(alloc: Global, pool: &mut Pool, ranges: &[Range]) -> Result<Space, SpaceFault>
        requires { length ranges.now < 2 ^ 32 - 1 }
        ensures { MatchResult result
            (λ s. IsBuiltFrom ranges.now s pool.old pool.new)
            (λ f. IsRefused ranges.now (spare_of pool.old) f × (pool.new ≡ pool.old)) }
    {
        let order = match sorted_or_fault(alloc, ranges) {
            Ok(order) => order,
            Err(fault) => return Err(fault),
        };
        let pages = frames_of(ranges);
        if pages > u64::from(pool.spare()) {
            return Err(SpaceFault::NoFrames);
        }
        match Space::of_sorted(alloc, pool, &order, pages as usize) {
            Ok(space) => Ok(space),
            Err(_) => Err(SpaceFault::NoMemory),
        }
    }

    /// The memory of ranges that stand in order and share no address.
    fn of_sorted(
        alloc: Global,
        pool: &mut Pool,
        order: &[&Range],
        pages: usize,
    ) -> Result<Space, AllocError>
        requires rises { rises 0 (values order.now) ≡ true }
        requires pages { pages ≡ pages_of_all (values order.now) }
        requires few { pages < 2 ^ 32 }
        requires spare { pages ≤ spare_of pool.old }
        ensures { MatchResult result (λ s. IsBuilt (values order.now) s pool.old pool.new) (λ _. pool.new ≡ pool.old) }
    {
        let mut extents = Vec::with_capacity(alloc, order.len())?;
        let mut writes = Vec::with_capacity(alloc, pages)?;
        let mut frames = Vec::with_capacity(alloc, pages)?;
        lay(order, &mut extents, &mut frames, &mut writes, pool);
        Ok(Space {
            alloc,
            extents: Extents::new(extents),
            frames,
            writes,
        })
    }

    /// How many of its pages that may be written have a frame with another holder. Each may need a spare frame when it is written.
    pub fn shared(&self, pool: &Pool) -> u32
        requires { StandIn self.now.frames pool.now }
        ensures { result ≡ shared_of self.now pool.now }
    {
        count_shared(&self.frames, &self.writes, pool)
    }

    /// A second Space with the same map, on the same frames. No frame is taken.
    ///
    /// `Holders` comes exactly where a frame has 65,535 holders. After a fault the pool is as it was.
    pub fn twin(&mut self, pool: &mut Pool) -> Result<Space, TwinFault>
        requires { StandIn self.old.frames pool.old }
        ensures itself { self.new ≡ self.old }
        ensures twin { MatchResult result
            (λ t. IsTwinOf self.old t pool.old pool.new)
            (λ f. HasNoTwin self.old pool.old f × (pool.new ≡ pool.old)) }
    {
        if any_full(&self.frames, pool) {
            return Err(TwinFault::Holders);
        }
        match self.shared_again(pool) {
            Ok(space) => Ok(space),
            Err(_) => Err(TwinFault::NoMemory),
        }
    }

    /// The same Space once more, where each frame may have one more holder.
    fn shared_again(&self, pool: &mut Pool) -> Result<Space, AllocError>
        requires stands { StandIn self.now.frames pool.old }
        requires room { HasRoomIn self.now.frames pool.old }
        ensures { MatchResult result (λ t. IsTwinOf self.now t pool.old pool.new) (λ _. pool.new ≡ pool.old) }
    {
        let extents = self.extents.copied(self.alloc)?;
        let writes = Vec::from_slice(self.alloc, &self.writes)?;
        let mut frames = Vec::with_capacity(self.alloc, self.frames.len())?;
        share_all(&self.frames, &mut frames, pool);
        Ok(Space {
            alloc: self.alloc,
            extents,
            frames,
            writes,
        })
    }

    /// Gives all its frames back to the pool.
    pub fn give_back(self, pool: &mut Pool)
        requires { StandIn self.frames pool.old }
        ensures { IsGivenBack self pool.old pool.new }
    {
        let Space {
            alloc: _,
            extents: _,
            frames,
            writes: _,
        } = self;
        give_frames(frames, pool);
    }

    /// A number whose bytes lie together on one page; `None` says nothing.
    pub(crate) fn load_on_page(&self, pool: &Pool, order: Order, bytes: u8, a: u32) -> Option<u64>
        requires stands { StandIn self.now.frames pool.now }
        requires size { is_size bytes ≡ true }
        ensures { IfSome result (λ v. load_answer (contents_of self.now pool.now) order bytes a ≡ Ok v) }
    {
        load_word(
            &self.extents,
            &self.frames,
            &self.writes,
            pool,
            order,
            bytes,
            a,
        )
    }

    /// The byte at an address; `None` exactly where none is mapped.
    pub(crate) fn load8(&self, pool: &Pool, a: u32) -> Option<u8>
        requires { StandIn self.now.frames pool.now }
        ensures { result ≡ byte_of (contents_of self.now pool.now a) }
    {
        load_in(&self.extents, &self.frames, &self.writes, pool, a)
    }

    /// Whether a byte is mapped at an address and may be written.
    pub(crate) fn writable8(&self, a: u32) -> bool
        ensures { (s : Frames) → result ≡ is_writable (contents_of self.now s a) }
    {
        writable_in(&self.extents, &self.frames, &self.writes, a)
    }

    /// Writes the byte at an address, where it may be written, and answers whether it may.
    pub(crate) fn store8(&mut self, pool: &mut Pool, a: u32, v: u8) -> bool
        requires stands { StandIn self.old.frames pool.old }
        requires ready { shared_of self.old pool.old ≤ spare_of pool.old }
        ensures written { result ≡ is_writable (contents_of self.old pool.old a) }
        ensures contents { contents_of self.new pool.new ≡ put (contents_of self.old pool.old) a v }
        ensures stands { StandIn self.new.frames pool.new }
        ensures ready { shared_of self.new pool.new ≤ spare_of pool.new }
        ensures follows { Follows self.old self.new pool.old pool.new }
    {
        store_in(&self.extents, &mut self.frames, &self.writes, pool, a, v)
    }

    /// Writes some bytes that lie together on one page, and answers whether it did; else nothing changed.
    pub(crate) fn store_piece(&mut self, pool: &mut Pool, a: u32, piece: &[u8]) -> bool
        requires stands { StandIn self.old.frames pool.old }
        requires ready { shared_of self.old pool.old ≤ spare_of pool.old }
        requires some { 1 ≤ length piece.now }
        requires few { length piece.now ≤ 8 }
        ensures { IsPieceStored self.old self.new pool.old pool.new a piece.now result }
    {
        store_piece_in(
            &self.extents,
            &mut self.frames,
            &self.writes,
            pool,
            a,
            piece,
        )
    }
}
