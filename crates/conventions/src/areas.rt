//! Areas of memory that may stand.
ghost use Rattle.std.specs.Prelude.{◌≡◌, ◌<◌, ◌^◌, if◌then◌else◌, Some, None};
ghost use Rattle.conventions.specs.Areas.{is_area, is_offset, is_room, is_stack, is_zero, meets_heap, meets_stack, shares};
ghost use Rattle.conventions.specs.Facts.{area, stack_area};

use super::fact::{Area, StackArea};
use conv_syntax::StackLine;
use rtl_core::Machine;

/// The greatest size of a stack.
const STACK_LIMIT: u64 = 0x0080_0000;
/// The greatest size of a heap.
pub const HEAP_LIMIT: u64 = 0x0100_0000;

const PAGE: u64 = 4096;

const END: u64 = 0x1_0000_0000;

/// An area of whole pages, not of none, not over the limit, up to 2^32 at most.
pub fn area(limit: u64, base: u64, size: u64) -> Option<Area>
    requires { limit < 2 ^ 32 }
    ensures { result ≡ (if is_area limit base size then Some (area base size) else None) }
{
    if base % PAGE != 0 || size % PAGE != 0 || size == 0 || size > limit || base > END - size {
        return None;
    }
    Some(Area {
        base: base as u32,
        size: size as u32,
    })
}

/// The room lies in the area and is a multiple of 8, and below it an address of 32 bits is left.
fn is_room(area: Area, room: u64) -> bool
    ensures { result ≡ is_room area.base area.size room }
{
    let size = u64::from(area.size);
    room <= size && room % 8 == 0 && u64::from(area.base) + size - room < END
}

/// The cell is the zero cell.
fn is_zero(zero: Option<u8>, cell: u8) -> bool
    ensures { result ≡ is_zero zero cell }
{
    match zero {
        None => false,
        Some(zeroed) => zeroed == cell,
    }
}

/// The stack of a line with this cell.
pub fn stack(machine: &Machine, line: &StackLine, cell: u8) -> Option<StackArea>
    ensures { result ≡ (if is_stack machine.now (stack_area line.now cell) then Some (stack_area line.now cell) else None) }
{
    let area = area(STACK_LIMIT, line.base, line.size)?;
    if !is_room(area, line.room) || is_zero(machine.zero, cell) {
        return None;
    }
    Some(StackArea {
        cell,
        base: area.base,
        size: area.size,
        room: line.room as u32,
    })
}

/// The offset of the arguments above the first value of the stack cell: within the room, and a multiple of 4.
pub fn offset(stack: StackArea, offset: u64) -> Option<u32>
    ensures { result ≡ (if is_offset (Some stack) offset then Some offset else None) }
{
    if offset > u64::from(stack.room) || offset % 4 != 0 {
        return None;
    }
    Some(offset as u32)
}

/// Two areas share a byte.
fn shares(a: Area, b: Area) -> bool
    ensures { result ≡ shares a.base a.size b.base b.size }
{
    let (first, second) = (u64::from(a.base), u64::from(b.base));
    first < second + u64::from(b.size) && second < first + u64::from(a.size)
}

fn area_of(stack: StackArea) -> Area
    ensures { result ≡ area stack.base stack.size }
{
    Area {
        base: stack.base,
        size: stack.size,
    }
}

/// The stack shares a byte with the heap, where there is one.
pub fn meets_heap(heap: Option<Area>, stack: StackArea) -> bool
    ensures { result ≡ meets_heap heap stack }
{
    match heap {
        None => false,
        Some(heap) => shares(heap, area_of(stack)),
    }
}

/// The heap shares a byte with the stack, where there is one.
pub fn meets_stack(stack: Option<StackArea>, heap: Area) -> bool
    ensures { result ≡ meets_stack stack heap }
{
    match stack {
        None => false,
        Some(stack) => shares(heap, area_of(stack)),
    }
}
