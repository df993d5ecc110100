//! Some bytes in a row, in any memory.
ghost use Rattle.std.specs.Prelude.{◌≡◌, ◌%◌, ◌^◌, length};
ghost use Rattle.rtl_core.specs.Contents.{first_fault, is_mapped, is_writable, held_at, byte_of, put_at, bytes_from, put_all};

use crate::memory::Memory;

/// The first address at which nothing is ever mapped.
const END: u64 = 0x1_0000_0000;

/// An address as traps tell it: modulo 2 to the 32.
pub fn told(a: u64) -> u32
    ensures { result ≡ a % 2 ^ 32 }
{
    (a % END) as u32
}

/// The byte at an address; `None` exactly where none is mapped, as at 2 to the 32 or more.
#[tactic(auto, unfolding(crate::specs::Contents::held_at))]
pub fn byte_at<M: Memory>(mem: &M, a: u64) -> Option<u8>
    requires { M.whole mem.now }
    ensures { result ≡ byte_of (held_at (M.contents mem.now) a) }
{
    if a < END { mem.load8(a as u32) } else { None }
}

/// Whether a byte is mapped at an address and may be written, which none is at 2 to the 32 or more.
#[tactic(auto, unfolding(crate::specs::Contents::held_at))]
pub fn writable_at<M: Memory>(mem: &M, a: u64) -> bool
    requires { M.whole mem.now }
    ensures { result ≡ is_writable (held_at (M.contents mem.now) a) }
{
    a < END && mem.writable8(a as u32)
}

/// Writes the byte at an address where one may be written, and else nothing.
#[tactic(auto, unfolding(crate::specs::Contents::put_at))]
pub fn write_at<M: Memory>(mem: &mut M, a: u64, v: u8)
    requires whole { M.whole mem.old }
    requires ready { M.ready mem.old }
    ensures contents { M.contents mem.new ≡ put_at (M.contents mem.old) a v }
    ensures whole { M.whole mem.new }
    ensures ready { M.ready mem.new }
    ensures follows { M.follows mem.old mem.new }
{
    if a < END {
        let _ = mem.store8(a as u32, v);
    }
}

/// The first of `count` addresses from `a` on at which no byte is mapped, modulo 2 to the 32; `None` exactly where all are.
pub fn first_unmapped<M: Memory>(mem: &M, a: u64, count: u32) -> Option<u32>
    requires { M.whole mem.now }
    ensures { result ≡ first_fault is_mapped (M.contents mem.now) a count }
{
    for i in 0..count {
        let at = a + i as u64;
        if byte_at(mem, at).is_none() {
            return Some(told(at));
        }
    }
    None
}

/// The first of `count` addresses from `a` on at which no byte may be written, modulo 2 to the 32; `None` exactly where all may.
pub fn first_unwritable<M: Memory>(mem: &M, a: u64, count: u32) -> Option<u32>
    requires { M.whole mem.now }
    ensures { result ≡ first_fault is_writable (M.contents mem.now) a count }
{
    for i in 0..count {
        let at = a + i as u64;
        if !writable_at(mem, at) {
            return Some(told(at));
        }
    }
    None
}

/// Reads bytes from `a` on, 0 where none is mapped.
pub fn copy_out<M: Memory>(mem: &M, a: u32, into: &mut [u8])
    requires { M.whole mem.now }
    ensures { into.new ≡ bytes_from (M.contents mem.now) a (length into.old) }
{
    let count = into.len();
    for i in 0..count {
        into[i] = byte_at(mem, a as u64 + i as u64).unwrap_or(0);
    }
}

/// Writes bytes from `a` on, each where it may be written.
pub fn copy_in<M: Memory>(mem: &mut M, a: u32, bytes: &[u8])
    requires whole { M.whole mem.old }
    requires ready { M.ready mem.old }
    ensures contents { M.contents mem.new ≡ put_all (M.contents mem.old) a bytes.now }
    ensures whole { M.whole mem.new }
    ensures ready { M.ready mem.new }
    ensures follows { M.follows mem.old mem.new }
{
    for (i, v) in bytes.iter().enumerate() {
        write_at(mem, a as u64 + i as u64, *v);
    }
}
