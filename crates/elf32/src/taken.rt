//! The addresses that the segments so far take.
ghost use Rattle.std.specs.Prelude.{◌≡◌, ◌≤◌, ◌<◌, List, [], ◌∷◌, ◌++◌, false, length, OnOk};
ghost use Rattle.std.specs.List.{list_any};
ghost use Rattle.elf32.specs.Faults.{shares_byte};
ghost use Rattle.elf32.specs.Spans.{span_end, IsPlace, AreOrdered, Shows};

use super::headers::ProgramHeader;
use std::alloc::{AllocError, Global};

/// The addresses of one segment, of which there is at least one.
#[derive(Clone, Copy, Debug)]
struct Span {
    base: u32,
    len: u32,
}

impl Span {
    fn end(&self) -> u64
        ensures { result ≡ span_end self.now }
    {
        u64::from(self.base) + u64::from(self.len)
    }
}

/// Spans that share no address, in ascending order, so that an overlap is found by halving.
#[derive(Drop)]
pub struct Taken {
    spans: Vec<Span>,
}

impl Taken {
    pub fn new(alloc: Global) -> Taken
        ensures { Shows result [] }
    {
        Taken {
            spans: Vec::new(alloc),
        }
    }

    /// Whether a segment has an address that is taken.
    pub fn shares_byte(&self, h: &ProgramHeader) -> bool
        ensures { (before : List ProgramHeader) → Shows self.now before → 0 < h.now.memory_size → result ≡ list_any (shares_byte h.now) before }
    {
        let place = self.place(h.address);
        if place == self.spans.len() {
            return false;
        }
        let next = self.spans[place];
        u64::from(next.base) < h.end()
    }

    /// Takes the addresses of a segment that shares none.
    pub fn add(&mut self, h: &ProgramHeader) -> Result<(), AllocError>
        ensures { OnOk result ((before : List ProgramHeader) → Shows self.old before → 0 < h.now.memory_size → list_any (shares_byte h.now) before ≡ false → Shows self.new (before ++ h.now ∷ [])) }
    {
        let place = self.place(h.address);
        self.spans.insert(
            place,
            Span {
                base: h.address,
                len: h.memory_size,
            },
        )?;
        Ok(())
    }

    /// The first place whose span ends behind an address.
    fn place(&self, a: u32) -> usize
        ensures within { result ≤ length self.now.spans.items }
        ensures place { AreOrdered self.now.spans.items → IsPlace a self.now.spans.items result }
    {
        self.spans.partition_point(|s| s.end() <= u64::from(a))
    }
}
