//! One range of addresses.
ghost use Rattle.std.specs.Prelude.{◌≡◌, ◌-◌, ◌↔◌, ◌++◌, length, replicate, slice_index, true, IfOk, IsTrue};
ghost use Rattle.space.specs.Ranges.{HasRoom, InBoth, end_of, holds, shares};
ghost use Rattle.space.specs.Order.{is_whole, written};

use sqlite_items::Items;
use std::alloc::{AllocError, Global};

/// The `len` bytes from `base` on, all of which can be read, and where `write` is set be written.
///
/// `bytes` holds the first of them and is no longer than `len`; those past it are zeros.
#[derive(Debug, Drop)]
pub struct Range {
    pub base: u32,
    pub len: u32,
    pub write: bool,
    pub bytes: Items<u8>,
}

impl Range {
    /// The first address behind it, 2^33 - 2 at most.
    pub fn end(&self) -> u64
        ensures { result ≡ end_of self.now }
    {
        u64::from(self.base) + u64::from(self.len)
    }

    /// Whether some address lies in both; none lies in a range of length 0.
    pub fn shares(&self, other: &Range) -> bool
        ensures test { result ≡ shares self.now other.now }
        ensures meaning { IsTrue result ↔ InBoth self.now other.now }
    {
        let base = self.base.max(other.base);
        u64::from(base) < self.end().min(other.end())
    }

    /// The same range with its zeros among its bytes.
    pub(crate) fn filled(&self, alloc: Global) -> Result<Range, AllocError>
        requires { HasRoom self.now }
        ensures { IfOk result (λ r. r ≡ record self.now { bytes = self.now.bytes ++ replicate (self.now.len - length self.now.bytes) 0 }) }
    {
        let len = self.len as usize;
        let mut bytes = Vec::with_capacity(alloc, len)?;
        bytes.extend_from_slice(self.bytes.as_slice())?;
        bytes.resize(len, 0)?;
        Ok(Range {
            base: self.base,
            len: self.len,
            write: self.write,
            bytes: Items::from_vec(bytes),
        })
    }

    /// The byte at one of its addresses.
    pub(crate) fn byte_at(&self, a: u32) -> u8
        requires lies { holds self.now a ≡ true }
        requires whole { is_whole self.now ≡ true }
        ensures { result ≡ slice_index self.now.bytes (a - self.now.base) }
    {
        self.bytes.as_slice()[(a - self.base) as usize]
    }

    /// Writes the byte at one of its addresses, where its bytes may be written, and answers whether they may.
    pub(crate) fn write_at(&mut self, a: u32, v: u8) -> bool
        requires lies { holds self.old a ≡ true }
        requires whole { is_whole self.old ≡ true }
        ensures answer { result ≡ self.old.write }
        ensures range { self.new ≡ written self.old a v }
    {
        if self.write {
            self.bytes.set((a - self.base) as usize, v);
        }
        self.write
    }
}
