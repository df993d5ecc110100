//! Looking up an address among the ranges of a Space.
ghost use Rattle.std.specs.Prelude.{◌≡◌, true, None, MatchOption};
ghost use Rattle.rtl_core.specs.Contents.{byte_of, is_writable, put};
ghost use Rattle.space.specs.Ranges.{memory_of};
ghost use Rattle.space.specs.Order.{IsAt, IsPassed, ascends};

use crate::range::Range;

/// How many ranges end at or below an address.
pub(crate) fn passed(ranges: &[Range], a: u32) -> usize
    requires { ascends 0 ranges.now ≡ true }
    ensures { IsPassed ranges.now a result }
{
    ranges.partition_point(|range| range.end() <= u64::from(a))
}

/// The place of the range in which an address lies; `None` exactly where it lies in none.
fn place_of(ranges: &[Range], a: u32) -> Option<usize>
    requires { ascends 0 ranges.now ≡ true }
    ensures { MatchOption result (memory_of ranges.now a ≡ None) (λ n. IsAt ranges.now a n) }
{
    let at = passed(ranges, a);
    if at == ranges.len() {
        return None;
    }
    let range = &ranges[at];
    if range.base <= a { Some(at) } else { None }
}

/// The byte at an address; `None` exactly where none is mapped.
pub(crate) fn load_in(ranges: &[Range], a: u32) -> Option<u8>
    requires { ascends 0 ranges.now ≡ true }
    ensures { result ≡ byte_of (memory_of ranges.now a) }
{
    match place_of(ranges, a) {
        Some(at) => {
            let range = &ranges[at];
            Some(range.byte_at(a))
        }
        None => None,
    }
}

/// Whether a byte is mapped at an address and may be written.
pub(crate) fn writable_in(ranges: &[Range], a: u32) -> bool
    requires { ascends 0 ranges.now ≡ true }
    ensures { result ≡ is_writable (memory_of ranges.now a) }
{
    match place_of(ranges, a) {
        Some(at) => {
            let range = &ranges[at];
            range.write
        }
        None => false,
    }
}

/// Writes the byte at an address, where it may be written, and answers whether it may.
pub(crate) fn store_in(ranges: &mut [Range], a: u32, v: u8) -> bool
    requires { ascends 0 ranges.old ≡ true }
    ensures written { result ≡ is_writable (memory_of ranges.old a) }
    ensures contents { memory_of ranges.new ≡ put (memory_of ranges.old) a v }
    ensures ordered { ascends 0 ranges.new ≡ true }
{
    match place_of(ranges, a) {
        Some(at) => {
            let range = &mut ranges[at];
            range.write_at(a, v)
        }
        None => false,
    }
}
