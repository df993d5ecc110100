//! Frames and the pool that they belong to.
ghost use Rattle.std.specs.Prelude.{◌≡◌, ◌==◌, ◌<◌, ◌≤◌, ◌+◌, ◌-◌, ◌*◌, ℕ, [], ◌∷◌, length, replicate, slice_set, if◌then◌else◌, true, false, IfOk, MatchOption};
ghost use Rattle.page_pool.specs.Frames.{Frames, HasBytes, HasJoined, HoldsAlone, IsHeld, IsPieceWritten, IsTaken, IsWritten, LacksFrame, frame_byte, frame_bytes, holders_of, placed, spare_of, zeros};

use crate::bytes::{copy_bytes, put_bytes, set_bytes};
use crate::free_list::{join, leave, lend, numbers, part};
use std::alloc::{AllocError, Global};
use std::marker::Model;

/// How many bytes a frame has.
pub const FRAME_BYTES: usize = 4096;

/// A holder of one of a pool's frames, seen as the frame's number.
///
/// It can't be copied, and has to be given back to its pool.
pub struct Frame {
    number: u32,
}

impl Model for Frame {
    ghost use Rattle.std.specs.Prelude.{ℕ};

    ghost Value = { ℕ };

    ghost view = { λ f. f.number };
}

/// Frames by number: the bytes of each, and how many holders it has, 65,535 at most.
///
/// Only `reserve` takes memory. Each call with a frame asks that it is one of this pool's: its number is that of a frame that has
/// a holder.
#[derive(Drop)]
pub struct Pool {
    holders: Vec<u16>,
    bytes: Vec<u8>,
    // The numbers of the frames without a holder stand in the first `spare` places.
    free: Vec<u32>,
    spare: u32,
}

impl Model for Pool {
    ghost use Rattle.std.specs.Prelude.{◌≡◌, ◌*◌, ◌<◌, ◌^◌, length};
    ghost use Rattle.page_pool.specs.Frames.{Frames};
    ghost use Rattle.page_pool.specs.FreeList.{ListsFree};

    ghost Value = { Frames };

    ghost view = { λ p. record { holders = p.holders.items; bytes = p.bytes.items } };

    ghost invariant = { λ p. (length p.bytes.items ≡ 4096 * length p.holders.items) × (length p.holders.items < 2 ^ 32) × ListsFree p.holders.items p.free.items p.spare };
}

impl Pool {
    /// A pool of so many frames, none of which has a holder. Takes all the memory that the pool will ever need.
    pub fn reserve(alloc: Global, frames: u32) -> Result<Pool, AllocError>
        ensures { IfOk result (λ p. p ≡ record { holders = replicate frames 0; bytes = replicate (4096 * frames) 0 }) }
    {
        let count = frames as usize;
        Ok(Pool {
            holders: vec![in alloc; 0; count]?,
            bytes: vec![in alloc; 0; FRAME_BYTES * count]?,
            free: numbers(alloc, frames)?,
            spare: frames,
        })
    }

    /// How many frames have no holder.
    pub fn spare(&self) -> u32
        ensures { result ≡ spare_of self.now }
    {
        self.spare
    }

    /// A frame of zeros; `None` exactly where no frame is spare.
    pub fn take(&mut self) -> Option<Frame>
        ensures { MatchOption result ((spare_of self.old ≡ 0) × (self.new ≡ self.old)) (λ n. IsTaken self.old self.new n zeros) }
    {
        if self.spare == 0 {
            return None;
        }
        Some(self.take_with(0, &[]))
    }

    /// A frame with these bytes from a place on, and zeros elsewhere. A frame has to be spare.
    pub fn take_with(&mut self, at: usize, piece: &[u8]) -> Frame
        requires some { 1 ≤ spare_of self.old }
        requires room { at + length piece.now ≤ 4096 }
        ensures { IsTaken self.old self.new result (placed at piece.now) }
    {
        let number = lend(&mut self.holders, &self.free, self.spare);
        self.spare -= 1;
        set_bytes(&mut self.bytes, number as usize, at, piece);
        Frame { number }
    }

    /// How many holders a frame has.
    pub fn holders(&self, frame: &Frame) -> u16
        requires { IsHeld self.now frame.now }
        ensures { result ≡ holders_of self.now frame.now }
    {
        self.holders[frame.number as usize]
    }

    /// One more holder of the same bytes; `None` exactly where the frame has 65,535.
    pub fn share(&mut self, frame: &Frame) -> Option<Frame>
        requires { IsHeld self.old frame.now }
        ensures shared { MatchOption result
            ((holders_of self.old frame.now ≡ 65535) × (self.new ≡ self.old))
            (λ n. (n ≡ frame.now) × HasJoined self.old self.new n) }
        ensures spare { spare_of self.new ≡ spare_of self.old }
    {
        if self.holders(frame) == u16::MAX {
            return None;
        }
        Some(self.hold(frame))
    }

    /// One more holder of the same bytes, where the frame has fewer than 65,535.
    pub fn hold(&mut self, frame: &Frame) -> Frame
        requires held { IsHeld self.old frame.now }
        requires room { holders_of self.old frame.now < 65535 }
        ensures frame { result ≡ frame.now }
        ensures joined { HasJoined self.old self.new frame.now }
        ensures spare { spare_of self.new ≡ spare_of self.old }
    {
        let number = frame.number;
        join(&mut self.holders, &self.free, self.spare, number as usize);
        Frame { number }
    }

    /// The byte of a frame at a place below 4,096.
    pub fn read(&self, frame: &Frame, at: u16) -> u8
        requires held { IsHeld self.now frame.now }
        requires within { at < 4096 }
        ensures { result ≡ frame_byte self.now frame.now at }
    {
        self.bytes[FRAME_BYTES * frame.number as usize + usize::from(at)]
    }

    /// The 4,096 bytes of a frame.
    pub fn page(&self, frame: &Frame) -> &[u8]
        requires { IsHeld self.now frame.now }
        ensures bytes { result.now ≡ frame_bytes self.now frame.now }
        ensures length { length result.now ≡ 4096 }
    {
        let (_, from) = self.bytes.split_at(FRAME_BYTES * frame.number as usize);
        let (page, _) = from.split_at(FRAME_BYTES);
        page
    }

    /// Writes one byte at a place below 4,096, for this holder alone: a frame with other holders is split first, and they keep their
    /// bytes. `false` exactly where that needs a frame and none is spare; then nothing changed.
    pub fn write(&mut self, frame: &mut Frame, at: u16, byte: u8) -> bool
        requires held { IsHeld self.old frame.old }
        requires within { at < 4096 }
        ensures written { result ≡ true → IsWritten self.old self.new frame.old frame.new at byte }
        ensures refused { result ≡ false → LacksFrame self.old frame.old × (self.new ≡ self.old) × (frame.new ≡ frame.old) }
    {
        if !self.own(frame) {
            return false;
        }
        self.bytes[FRAME_BYTES * frame.number as usize + usize::from(at)] = byte;
        true
    }

    /// Writes some bytes from a place on, as `write` does one.
    pub fn write_piece(&mut self, frame: &mut Frame, at: usize, piece: &[u8]) -> bool
        requires held { IsHeld self.old frame.old }
        requires within { at + length piece.now ≤ 4096 }
        ensures written { result ≡ true → IsPieceWritten self.old self.new frame.old frame.new at piece.now }
        ensures refused { result ≡ false → LacksFrame self.old frame.old × (self.new ≡ self.old) × (frame.new ≡ frame.old) }
    {
        if !self.own(frame) {
            return false;
        }
        put_bytes(&mut self.bytes, frame.number as usize, at, piece);
        true
    }

    /// Makes the holder the only one of a frame with the same bytes.
    fn own(&mut self, frame: &mut Frame) -> bool
        requires { IsHeld self.old frame.old }
        ensures alone { result ≡ true → HoldsAlone self.old self.new frame.old frame.new }
        ensures bytes { result ≡ true → HasBytes self.old self.new frame.old frame.new }
        ensures held { result ≡ true → IsHeld self.new frame.new }
        ensures refused { result ≡ false → LacksFrame self.old frame.old × (self.new ≡ self.old) × (frame.new ≡ frame.old) }
    {
        let n = frame.number as usize;
        if self.holders[n] == 1 {
            return true;
        }
        if self.spare == 0 {
            return false;
        }
        let number = part(&mut self.holders, &self.free, self.spare, n);
        self.spare -= 1;
        copy_bytes(&mut self.bytes, n, number as usize);
        frame.number = number;
        true
    }

    /// Gives a holder back. A frame that has none then is spare.
    pub fn give_back(&mut self, frame: Frame)
        requires { IsHeld self.old frame }
        ensures holders { self.new ≡ record self.old { holders = slice_set self.old.holders frame (holders_of self.old frame - 1) } }
        ensures spare { spare_of self.new ≡ (if holders_of self.old frame == 1 then spare_of self.old + 1 else spare_of self.old) }
    {
        let Frame { number } = frame;
        self.spare = leave(&mut self.holders, &mut self.free, self.spare, number);
    }
}
