//! The numbers of an ELF file.
ghost use Rattle.std.specs.Prelude.{◌≡◌, ◌≤◌, ◌+◌, length};
ghost use Rattle.elf32.specs.Numbers.{half, word};

use byteorder::{BigEndian, ByteOrder, LittleEndian};
use rtl_core::Order;

/// The number of the two bytes at a place.
#[tactic(auto, unfolding(crate::specs::Numbers::half))]
pub fn half(order: Order, file: &[u8], at: usize) -> u16
    requires { at + 2 ≤ length file.now }
    ensures { result ≡ half order file.now at }
{
    match order {
        Order::Little => LittleEndian::read_u16(&file[at..]),
        Order::Big => BigEndian::read_u16(&file[at..]),
    }
}

/// The number of the four bytes at a place.
#[tactic(auto, unfolding(crate::specs::Numbers::word))]
pub fn word(order: Order, file: &[u8], at: usize) -> u32
    requires { at + 4 ≤ length file.now }
    ensures { result ≡ word order file.now at }
{
    match order {
        Order::Little => LittleEndian::read_u32(&file[at..]),
        Order::Big => BigEndian::read_u32(&file[at..]),
    }
}
