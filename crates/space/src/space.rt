//! The memory.
ghost use Rattle.std.specs.Prelude.{◌≡◌, ◌⊎◌, [], true, None, Some, Ok, Err, All, MatchResult};
ghost use Rattle.rtl_core.specs.Access.{is_size};
ghost use Rattle.space.specs.Ranges.{HasRoom, IsMapOf, memory_of};
ghost use Rattle.space.specs.Faults.{ranges_fault};
ghost use Rattle.space.specs.Accesses.{fault_of, load_answer, store_answer};

use crate::fault::{AccessFault, SpaceFault};
use crate::placing::{keep, told};
use crate::range::Range;
use crate::search::{load_in, store_in, writable_in};
use rtl_core::{Memory, Order, Trap, load, store};
use std::alloc::Global;
use std::marker::Model;

/// Ranges of bytes that share no address, by address.
#[derive(Debug, Drop)]
pub struct Space {
    ranges: Vec<Range>,
}

impl Model for Space {
    ghost use Rattle.std.specs.Prelude.{◌≡◌, List, true};
    ghost use Rattle.space.specs.declared.range.Range.{Range};
    ghost use Rattle.space.specs.Order.{ascends};

    ghost Value = { List Range };

    ghost view = { λ s. s.ranges.items };

    ghost invariant = { λ s. ascends 0 s.ranges.items ≡ true };
}

impl Space {
    /// The memory of ranges: an address in a range holds its byte, 0 behind its `bytes`, and may be written where the range has
    /// `write`. No other address is mapped.
    ///
    /// Where a range goes past 2^32 or shares an address with an earlier one, the first such range is told.
    pub fn build(alloc: Global, ranges: &[Range]) -> Result<Space, SpaceFault>
        requires { All HasRoom ranges.now }
        ensures { MatchResult result
            (λ s. (ranges_fault [] ranges.now ≡ None) × (memory_of s ≡ memory_of ranges.now) × IsMapOf ranges.now (memory_of s))
            (λ f. (f ≡ SpaceFault.NoMemory) ⊎ (ranges_fault [] ranges.now ≡ Some f)) }
    {
        let mut kept = Vec::new(alloc);
        for (index, range) in ranges.iter().enumerate() {
            keep(alloc, &mut kept, told(index), range)?;
        }
        Ok(Space { ranges: kept })
    }

    /// Loads a number of 1, 2, 4 or 8 bytes, at any address.
    ///
    /// Where one of the bytes is not mapped, the first such is told, modulo 2 to the 32.
    pub fn load(&self, order: Order, bytes: u8, a: u32) -> Result<u64, AccessFault>
        requires { is_size bytes ≡ true }
        ensures { result ≡ load_answer (memory_of self.now) order bytes a }
    {
        match load(self, order, false, bytes, u64::from(a)) {
            Ok(v) => Ok(v),
            Err(trap) => Err(fault_of(trap)),
        }
    }

    /// Stores a number in 1, 2, 4 or 8 bytes, modulo 2 to the bits of the size, at any address.
    ///
    /// Where one of the bytes may not be written, the first such is told, modulo 2 to the 32, and nothing is written.
    pub fn store(&mut self, order: Order, bytes: u8, a: u32, v: u64) -> Result<(), AccessFault>
        requires { is_size bytes ≡ true }
        ensures { MatchResult result
            (λ _. store_answer (memory_of self.old) order bytes a v ≡ Ok (memory_of self.new))
            (λ f. (store_answer (memory_of self.old) order bytes a v ≡ Err f) × (memory_of self.new ≡ memory_of self.old)) }
    {
        match store(self, order, false, bytes, u64::from(a), v) {
            Ok(()) => Ok(()),
            Err(trap) => Err(fault_of(trap)),
        }
    }
}

/// The fault that a trap tells. An access that asks for no alignment traps at its bytes alone.
fn fault_of(trap: Trap) -> AccessFault
    ensures { result ≡ fault_of trap }
{
    match trap {
        Trap::Memory(address) | Trap::Misaligned(address) => AccessFault { address },
        Trap::Divide => AccessFault { address: 0 },
    }
}

impl Memory for Space {
    ghost use Rattle.space.specs.Ranges.{memory_of};

    ghost contents = { λ s. memory_of s };

    ghost whole = { λ _. Unit {0} };

    ghost ready = { λ _. Unit {0} };

    ghost follows = { λ _ _. Unit {0} };

    fn load8(&self, a: u32) -> Option<u8> {
        load_in(&self.ranges, a)
    }

    fn writable8(&self, a: u32) -> bool {
        writable_in(&self.ranges, a)
    }

    fn store8(&mut self, a: u32, v: u8) -> bool {
        store_in(&mut self.ranges, a, v)
    }

    ghost follows_itself = { λ _. tt };

    ghost follows_on = { λ _ _ _ _ _. tt };
}
