//! The table of services.
ghost use Rattle.std.specs.Prelude.{◌≡◌, [], min, None};
ghost use Rattle.rtl_core.specs.Services.{served, reading, writing, breaking};
ghost use Rattle.sysemu.specs.Streams.{world_of, flow_after};

use crate::streams::{MOST_WRITTEN, Streams};
use rtl_core::{Memory, Numbers, Reply, copy_in, first_unmapped, first_unwritable};

/// Does the service of this number with the arguments `x`, `y` and `z`.
///
/// `Exit(x)` comes exactly where the number is that of exit. `Error` holds the number of an error: `unknown` for a number that is
/// none of the four, `descriptor` for a read of a descriptor other than 0 or a write to one other than 1 and 2, `fault` where a byte
/// that a read would fill may not be written, or one that a write would take is not mapped. Any other answer is `Value`: the bytes
/// that were read or written, or the break. What was written is pending then.
#[tactic(auto, unfolding(rtl_core::specs::Services::served))]
pub fn reply<M: Memory>(
    numbers: &Numbers,
    number: u32,
    x: u32,
    y: u32,
    z: u32,
    mem: &mut M,
    streams: &mut Streams,
) -> Reply
    requires whole { M.whole mem.old }
    requires ready { M.ready mem.old }
    requires empty { streams.old.pending ≡ [] }
    ensures reply { result ≡ (served numbers.now number x y z (world_of (M.contents mem.old) streams.old)).reply }
    ensures memory { M.contents mem.new ≡ (served numbers.now number x y z (world_of (M.contents mem.old) streams.old)).world.memory }
    ensures streams { streams.new ≡ flow_after (served numbers.now number x y z (world_of (M.contents mem.old) streams.old)) }
    ensures whole { M.whole mem.new }
    ensures ready { M.ready mem.new }
    ensures follows { M.follows mem.old mem.new }
{
    if number == numbers.exit {
        Reply::Exit(x)
    } else if number == numbers.read {
        read(numbers, x, y, z, mem, streams)
    } else if number == numbers.write {
        write(numbers, x, y, z, mem, streams)
    } else if number == numbers.brk {
        move_break(numbers, x, streams)
    } else {
        Reply::Error(numbers.unknown)
    }
}

/// Reads of descriptor `x` into `z` bytes from `y` on.
fn read<M: Memory>(
    numbers: &Numbers,
    x: u32,
    y: u32,
    z: u32,
    mem: &mut M,
    streams: &mut Streams,
) -> Reply
    requires whole { M.whole mem.old }
    requires ready { M.ready mem.old }
    requires empty { streams.old.pending ≡ [] }
    ensures reply { result ≡ (reading numbers.now x y z (world_of (M.contents mem.old) streams.old)).reply }
    ensures memory { M.contents mem.new ≡ (reading numbers.now x y z (world_of (M.contents mem.old) streams.old)).world.memory }
    ensures streams { streams.new ≡ flow_after (reading numbers.now x y z (world_of (M.contents mem.old) streams.old)) }
    ensures whole { M.whole mem.new }
    ensures ready { M.ready mem.new }
    ensures follows { M.follows mem.old mem.new }
{
    if x != 0 {
        return Reply::Error(numbers.descriptor);
    }
    let count = at_most(z, streams.rest().len());
    if first_unwritable(mem, u64::from(y), count).is_some() {
        return Reply::Error(numbers.fault);
    }
    copy_in(mem, y, &streams.rest()[..count as usize]);
    streams.skip(count);
    Reply::Value(count)
}

/// Writes `z` bytes from `y` on, of which it takes 65,536 at most, to descriptor `x`.
fn write<M: Memory>(
    numbers: &Numbers,
    x: u32,
    y: u32,
    z: u32,
    mem: &M,
    streams: &mut Streams,
) -> Reply
    requires whole { M.whole mem.now }
    requires empty { streams.old.pending ≡ [] }
    ensures reply { result ≡ (writing numbers.now x y z (world_of (M.contents mem.now) streams.old)).reply }
    ensures memory { M.contents mem.now ≡ (writing numbers.now x y z (world_of (M.contents mem.now) streams.old)).world.memory }
    ensures streams { streams.new ≡ flow_after (writing numbers.now x y z (world_of (M.contents mem.now) streams.old)) }
{
    if x != 1 && x != 2 {
        return Reply::Error(numbers.descriptor);
    }
    let count = z.min(MOST_WRITTEN);
    if first_unmapped(mem, u64::from(y), count).is_some() {
        return Reply::Error(numbers.fault);
    }
    streams.fill(mem, y, count);
    Reply::Value(count)
}

/// Moves the break to `x` where `x` lies in the heap or at its end, and tells where it is then.
fn move_break(numbers: &Numbers, x: u32, streams: &mut Streams) -> Reply
    requires { streams.old.pending ≡ [] }
    ensures reply { result ≡ (breaking numbers.now x (world_of (λ a. None) streams.old)).reply }
    ensures streams { streams.new ≡ flow_after (breaking numbers.now x (world_of (λ a. None) streams.old)) }
{
    if x >= numbers.heap_base && x - numbers.heap_base <= numbers.heap_size {
        streams.set_heap_end(x);
    }
    Reply::Value(streams.heap_end())
}

/// The lesser of a number and a length.
fn at_most(z: u32, len: usize) -> u32
    ensures { result ≡ min z len }
{
    if len < z as usize { len as u32 } else { z }
}
