//! Loads and stores of numbers of 1, 2, 4 or 8 bytes, in any memory.
ghost use Rattle.std.specs.Prelude.{◌≡◌, ◌<◌, ◌≤◌, ◌%◌, ◌^◌, length, Ok, Err, true, MatchResult};
ghost use Rattle.rtl_core.specs.Contents.{is_mapped, is_writable, bytes_from, put_all};
ghost use Rattle.rtl_core.specs.Access.{number, spelled, is_size, is_misaligned, access_fault, loaded, stored};

use crate::bytes::{copy_in, copy_out, first_unmapped, first_unwritable, told};
use crate::expr::Order;
use crate::memory::Memory;
use crate::stop::Trap;
use byteorder::{BigEndian, ByteOrder, LittleEndian};

/// Loads a number of 1, 2, 4 or 8 bytes.
///
/// Where `align` is set and the size does not divide the address, the answer is `Trap::Misaligned` with the address; else, where a
/// byte is not mapped, `Trap::Memory` with the first that is not. Both tell addresses modulo 2 to the 32.
#[tactic(auto, unfolding(crate::specs::Access::loaded))]
pub fn load<M: Memory>(mem: &M, order: Order, align: bool, bytes: u8, a: u64) -> Result<u64, Trap>
    requires whole { M.whole mem.now }
    requires size { is_size bytes ≡ true }
    ensures { result ≡ loaded order align (M.contents mem.now) bytes a }
{
    match load_fault(mem, align, bytes, a) {
        Some(trap) => Err(trap),
        None => Ok(number_at(mem, order, bytes, a as u32)),
    }
}

/// Stores a number in 1, 2, 4 or 8 bytes, modulo 2 to the bits of the size.
///
/// Where `align` is set and the size does not divide the address, the answer is `Trap::Misaligned` with the address; else, where a
/// byte may not be written, `Trap::Memory` with the first that may not. Both tell addresses modulo 2 to the 32, and leave the memory
/// as it was.
#[tactic(auto, unfolding(crate::specs::Access::stored))]
pub fn store<M: Memory>(
    mem: &mut M,
    order: Order,
    align: bool,
    bytes: u8,
    a: u64,
    v: u64,
) -> Result<(), Trap>
    requires whole { M.whole mem.old }
    requires ready { M.ready mem.old }
    requires size { is_size bytes ≡ true }
    ensures done { MatchResult result
        (λ u. stored order align (M.contents mem.old) bytes a v ≡ Ok (M.contents mem.new))
        (λ trap. (stored order align (M.contents mem.old) bytes a v ≡ Err trap) × (M.contents mem.new ≡ M.contents mem.old)) }
    ensures whole { M.whole mem.new }
    ensures ready { M.ready mem.new }
    ensures follows { M.follows mem.old mem.new }
{
    match store_fault(mem, align, bytes, a) {
        Some(fault) => Err(fault),
        None => {
            put_number(mem, order, bytes, a as u32, v);
            Ok(())
        }
    }
}

/// Why a load has no value, if it has none.
fn load_fault<M: Memory>(mem: &M, align: bool, bytes: u8, a: u64) -> Option<Trap>
    requires whole { M.whole mem.now }
    requires size { is_size bytes ≡ true }
    ensures { result ≡ access_fault align is_mapped (M.contents mem.now) bytes a }
{
    if misaligns(align, bytes, a) {
        return Some(Trap::Misaligned(told(a)));
    }
    Some(Trap::Memory(first_unmapped(mem, a, u32::from(bytes))?))
}

/// Why a store may not be done, if it may not.
fn store_fault<M: Memory>(mem: &M, align: bool, bytes: u8, a: u64) -> Option<Trap>
    requires whole { M.whole mem.now }
    requires size { is_size bytes ≡ true }
    ensures { result ≡ access_fault align is_writable (M.contents mem.now) bytes a }
{
    if misaligns(align, bytes, a) {
        return Some(Trap::Misaligned(told(a)));
    }
    Some(Trap::Memory(first_unwritable(mem, a, u32::from(bytes))?))
}

/// Whether the size does not divide the address, where that matters.
fn misaligns(align: bool, bytes: u8, a: u64) -> bool
    requires { is_size bytes ≡ true }
    ensures { result ≡ is_misaligned align bytes a }
{
    align && a % u64::from(bytes) != 0
}

/// The number that the bytes from `a` on spell.
fn number_at<M: Memory>(mem: &M, order: Order, bytes: u8, a: u32) -> u64
    requires whole { M.whole mem.now }
    requires size { is_size bytes ≡ true }
    ensures { result ≡ number order bytes (bytes_from (M.contents mem.now) a bytes) }
{
    let n = usize::from(bytes);
    let mut buffer = [0; 8];
    copy_out(mem, a, &mut buffer[..n]);
    match order {
        Order::Little => LittleEndian::read_uint(&buffer[..n], n),
        Order::Big => BigEndian::read_uint(&buffer[..n], n),
    }
}

/// Writes the bytes that spell a number modulo 2 to the bits of its size.
fn put_number<M: Memory>(mem: &mut M, order: Order, bytes: u8, a: u32, v: u64)
    requires whole { M.whole mem.old }
    requires ready { M.ready mem.old }
    requires size { is_size bytes ≡ true }
    ensures contents { M.contents mem.new ≡ put_all (M.contents mem.old) a (spelled order bytes v) }
    ensures whole { M.whole mem.new }
    ensures ready { M.ready mem.new }
    ensures follows { M.follows mem.old mem.new }
{
    let n = usize::from(bytes);
    let low = low_bytes(bytes, v);
    let mut buffer = [0; 8];
    match order {
        Order::Little => LittleEndian::write_uint(&mut buffer[..n], low, n),
        Order::Big => BigEndian::write_uint(&mut buffer[..n], low, n),
    }
    copy_in(mem, a, &buffer[..n]);
}

/// A number modulo 2 to the bits of a size.
fn low_bytes(bytes: u8, v: u64) -> u64
    requires { is_size bytes ≡ true }
    ensures { result ≡ v % 256 ^ bytes }
{
    match bytes {
        1 => v % 0x100,
        2 => v % 0x1_0000,
        4 => v % 0x1_0000_0000,
        _ => v,
    }
}
