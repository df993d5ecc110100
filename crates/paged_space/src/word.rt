//! Numbers of 1, 2, 4 or 8 bytes, each with a conversion of its size.
ghost use Rattle.std.specs.Prelude.{◌≡◌, ◌≤◌, ◌<◌, ◌%◌, ◌^◌, ℕ, length, slice_index, take, true};
ghost use Rattle.byteorder.specs.Endian.{big_bytes, big_number, little_bytes, little_number};
ghost use Rattle.rtl_core.specs.Access.{is_size, number, spelled};

use byteorder::{BigEndian, ByteOrder, LittleEndian};
use rtl_core::Order;

/// The number that some bytes begin with.
pub(crate) fn number_in(from: &[u8], order: Order, bytes: u8) -> u64
    requires size { is_size bytes ≡ true }
    requires long { bytes ≤ length from.now }
    ensures number { result ≡ number order bytes from.now }
    ensures bytes { (i : ℕ) → slice_index from.now i < 256 }
{
    match order {
        Order::Little => little_in(from, bytes),
        Order::Big => big_in(from, bytes),
    }
}

/// The number that some bytes begin with, the lowest first.
fn little_in(from: &[u8], bytes: u8) -> u64
    requires size { is_size bytes ≡ true }
    requires long { bytes ≤ length from.now }
    ensures { result ≡ little_number bytes from.now }
{
    match bytes {
        1 => u64::from(from[0]),
        2 => u64::from(LittleEndian::read_u16(from)),
        4 => u64::from(LittleEndian::read_u32(from)),
        _ => LittleEndian::read_u64(from),
    }
}

/// The number that some bytes begin with, the highest first.
fn big_in(from: &[u8], bytes: u8) -> u64
    requires size { is_size bytes ≡ true }
    requires long { bytes ≤ length from.now }
    ensures { result ≡ big_number bytes from.now }
{
    match bytes {
        1 => u64::from(from[0]),
        2 => u64::from(BigEndian::read_u16(from)),
        4 => u64::from(BigEndian::read_u32(from)),
        _ => BigEndian::read_u64(from),
    }
}

/// Puts a number modulo its size into the first of eight bytes.
pub(crate) fn put_number(into: &mut [u8], order: Order, bytes: u8, v: u64)
    requires size { is_size bytes ≡ true }
    requires long { 8 ≤ length into.old }
    ensures length { length into.new ≡ length into.old }
    ensures bytes { take bytes into.new ≡ spelled order bytes v }
{
    match order {
        Order::Little => put_little(into, bytes, v),
        Order::Big => put_big(into, bytes, v),
    }
}

/// Puts a number modulo its size into the first of eight bytes, the lowest first.
fn put_little(into: &mut [u8], bytes: u8, v: u64)
    requires size { is_size bytes ≡ true }
    requires long { 8 ≤ length into.old }
    ensures length { length into.new ≡ length into.old }
    ensures bytes { take bytes into.new ≡ little_bytes bytes (v % 256 ^ bytes) }
{
    match bytes {
        1 => into[0] = (v % 0x100) as u8,
        2 => LittleEndian::write_u16(into, (v % 0x1_0000) as u16),
        4 => LittleEndian::write_u32(into, (v % 0x1_0000_0000) as u32),
        _ => LittleEndian::write_u64(into, v),
    }
}

/// Puts a number modulo its size into the first of eight bytes, the highest first.
fn put_big(into: &mut [u8], bytes: u8, v: u64)
    requires size { is_size bytes ≡ true }
    requires long { 8 ≤ length into.old }
    ensures length { length into.new ≡ length into.old }
    ensures bytes { take bytes into.new ≡ big_bytes bytes (v % 256 ^ bytes) }
{
    match bytes {
        1 => into[0] = (v % 0x100) as u8,
        2 => BigEndian::write_u16(into, (v % 0x1_0000) as u16),
        4 => BigEndian::write_u32(into, (v % 0x1_0000_0000) as u32),
        _ => BigEndian::write_u64(into, v),
    }
}
