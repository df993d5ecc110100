//! Loads and stores of a Space.
//!
//! A number whose bytes lie together on one page is found by one search and read or written at once. Any other access goes byte by byte.
ghost use Rattle.std.specs.Prelude.{◌≡◌, ◌<◌, ◌≤◌, ◌^◌, Ok, Err, None, true, length, IfSome, MatchResult};
ghost use Rattle.rtl_core.specs.Access.{is_size};
ghost use Rattle.rtl_core.specs.Contents.{byte_of, bytes_from, first_fault, held_at, is_mapped};
ghost use Rattle.page_pool.specs.Frames.{spare_of};
ghost use Rattle.paged_space.specs.Accesses.{fault_of, load_answer, store_answer};
ghost use Rattle.paged_space.specs.PageTable.{contents_of};
ghost use Rattle.paged_space.specs.Moves.{StandIn};
ghost use Rattle.paged_space.specs.Follows.{Follows, shared_of};
ghost use Rattle.paged_space.specs.Together.{LeavesOthers};

use crate::fault::AccessFault;
use crate::space::Space;
use crate::view::View;
use crate::word::{number_in, put_number};
use page_pool::Pool;
use rtl_core::{Order, Trap, store};

/// The end of the last address.
const END: u64 = 0x1_0000_0000;

impl Space {
    /// Loads a number of 1, 2, 4 or 8 bytes, at any address.
    ///
    /// Where one of the bytes is not mapped, the first such is told, modulo 2 to the 32.
    pub fn load(&self, pool: &Pool, order: Order, bytes: u8, a: u32) -> Result<u64, AccessFault>
        requires stands { StandIn self.now.frames pool.now }
        requires size { is_size bytes ≡ true }
        ensures { result ≡ load_answer (contents_of self.now pool.now) order bytes a }
    {
        match self.load_on_page(pool, order, bytes, a) {
            Some(v) => Ok(v),
            None => self.load_bytes(pool, order, bytes, a),
        }
    }

    /// Loads a number byte by byte.
    fn load_bytes(&self, pool: &Pool, order: Order, bytes: u8, a: u32) -> Result<u64, AccessFault>
        requires stands { StandIn self.now.frames pool.now }
        requires size { is_size bytes ≡ true }
        ensures { result ≡ load_answer (contents_of self.now pool.now) order bytes a }
    {
        let n = usize::from(bytes);
        let mut buffer = [0; 8];
        match self.bytes_at(pool, u64::from(a), &mut buffer[..n]) {
            Some(address) => Err(AccessFault { address }),
            None => Ok(number_in(&buffer[..n], order, bytes)),
        }
    }

    /// Reads the bytes from an address on, or tells the first that is not mapped.
    fn bytes_at(&self, pool: &Pool, a: u64, into: &mut [u8]) -> Option<u32>
        requires stands { StandIn self.now.frames pool.now }
        requires address { a < 2 ^ 32 }
        requires few { length into.old ≤ 8 }
        ensures length { length into.new ≡ length into.old }
        ensures fault { result ≡ first_fault is_mapped (contents_of self.now pool.now) a (length into.old) }
        ensures bytes { result ≡ None → into.new ≡ bytes_from (contents_of self.now pool.now) a (length into.old) }
    {
        let count = into.len();
        for i in 0..count {
            let at = a + i as u64;
            match self.byte_at(pool, at) {
                Some(byte) => into[i] = byte,
                None => return Some((at % END) as u32),
            }
        }
        None
    }

    /// The byte at an address; `None` exactly where none is mapped.
    #[tactic(auto, unfolding(rtl_core::specs::Contents::held_at))]
    fn byte_at(&self, pool: &Pool, a: u64) -> Option<u8>
        requires { StandIn self.now.frames pool.now }
        ensures value { result ≡ byte_of (held_at (contents_of self.now pool.now) a) }
        ensures byte { IfSome result (λ byte. byte < 256) }
    {
        if a < END {
            self.load8(pool, a as u32)
        } else {
            None
        }
    }

    /// Stores a number in 1, 2, 4 or 8 bytes, modulo 2 to the bits of the size, at any address. The pool needs a spare frame for each
    /// that `shared` counts.
    ///
    /// Where one of the bytes may not be written, the first such is told, modulo 2 to the 32, and nothing is written.
    pub fn store(
        &mut self,
        pool: &mut Pool,
        order: Order,
        bytes: u8,
        a: u32,
        v: u64,
    ) -> Result<(), AccessFault>
        requires stands { StandIn self.old.frames pool.old }
        requires ready { shared_of self.old pool.old ≤ spare_of pool.old }
        requires size { is_size bytes ≡ true }
        ensures done { MatchResult result
            (λ _. store_answer (contents_of self.old pool.old) order bytes a v ≡ Ok (contents_of self.new pool.new))
            (λ f. (store_answer (contents_of self.old pool.old) order bytes a v ≡ Err f) × (contents_of self.new pool.new ≡ contents_of self.old pool.old)) }
        ensures stands { StandIn self.new.frames pool.new }
        ensures ready { shared_of self.new pool.new ≤ spare_of pool.new }
        ensures follows { Follows self.old self.new pool.old pool.new }
        ensures others { LeavesOthers self.old self.new pool.old pool.new }
    {
        let mut buffer = [0; 8];
        put_number(&mut buffer, order, bytes, v);
        let n = usize::from(bytes);
        if self.store_piece(pool, a, &buffer[..n]) {
            return Ok(());
        }
        self.store_bytes(pool, order, bytes, a, v)
    }

    /// Stores a number byte by byte.
    fn store_bytes(
        &mut self,
        pool: &mut Pool,
        order: Order,
        bytes: u8,
        a: u32,
        v: u64,
    ) -> Result<(), AccessFault>
        requires stands { StandIn self.old.frames pool.old }
        requires ready { shared_of self.old pool.old ≤ spare_of pool.old }
        requires size { is_size bytes ≡ true }
        ensures done { MatchResult result
            (λ _. store_answer (contents_of self.old pool.old) order bytes a v ≡ Ok (contents_of self.new pool.new))
            (λ f. (store_answer (contents_of self.old pool.old) order bytes a v ≡ Err f) × (contents_of self.new pool.new ≡ contents_of self.old pool.old)) }
        ensures stands { StandIn self.new.frames pool.new }
        ensures ready { shared_of self.new pool.new ≤ spare_of pool.new }
        ensures follows { Follows self.old self.new pool.old pool.new }
    {
        let mut view = View { space: self, pool };
        match store(&mut view, order, false, bytes, u64::from(a), v) {
            Ok(()) => Ok(()),
            Err(trap) => Err(fault_of(trap)),
        }
    }
}

/// The fault that a trap tells. An access that asks for no alignment traps at its bytes alone.
fn fault_of(trap: Trap) -> AccessFault
    ensures { result ≡ fault_of trap }
{
    match trap {
        Trap::Memory(address) | Trap::Misaligned(address) => AccessFault { address },
        Trap::Divide => AccessFault { address: 0 },
    }
}
