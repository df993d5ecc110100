//! The checks of an executable, one group after another.
ghost use Rattle.std.specs.Prelude.{◌≡◌, ◌≤◌, ◌<◌, List, [], All, IfOk, length};
ghost use Rattle.std.specs.List.{list_any};
ghost use Rattle.elf32.specs.declared.headers.ProgramHeader.{ProgramHeader};
ghost use Rattle.elf32.specs.Faults.{order_byte, are_headers_cut, header_fault, interp_fault, load_fault, loads_fault, total, is_in_code, image_fault};
ghost use Rattle.elf32.specs.Spans.{Shows};

use super::fault::ElfFault;
use super::headers::{FILE_HEADER, PROGRAM_HEADER, ProgramHeader};
use super::numbers::{half, word};
use super::taken::Taken;
use rtl_core::{Conv, Order};
use std::alloc::{AllocError, Global};

/// 7F 45 4C 46 as one number.
const MAGIC: u32 = 0x7F45_4C46;

/// `ELFCLASS32`, and `ET_EXEC`.
const CLASS: u8 = 1;

const EXECUTABLE: u16 = 2;

/// The most bytes that the segments may take in memory.
const MOST: u64 = 16_777_216;

/// `EI_DATA` of a byte order.
fn order_byte(order: Order) -> u8
    ensures { result ≡ order_byte order }
{
    match order {
        Order::Little => 1,
        Order::Big => 2,
    }
}

/// Whether the program headers are cut.
fn are_headers_cut(order: Order, file: &[u8]) -> bool
    requires { 52 ≤ length file.now }
    ensures { result ≡ are_headers_cut order file.now }
{
    let count = half(order, file, 44) as usize;
    let end = word(order, file, 28) as usize + PROGRAM_HEADER * count;
    count != 0 && (half(order, file, 42) as usize != PROGRAM_HEADER || end > file.len())
}

/// The fault of the file header.
#[tactic(auto, unfolding(crate::specs::Faults::header_fault))]
pub fn header_fault(file: &[u8], conv: &Conv, order: Order) -> Option<ElfFault>
    ensures { result ≡ header_fault file.now conv.now order }
{
    if file.len() < FILE_HEADER {
        return Some(ElfFault::Short);
    }
    if word(Order::Big, file, 0) != MAGIC {
        return Some(ElfFault::Magic);
    }
    if file[4] != CLASS {
        return Some(ElfFault::Class);
    }
    if file[5] != order_byte(order) {
        return Some(ElfFault::Order);
    }
    let found = half(order, file, 16);
    if found != EXECUTABLE {
        return Some(ElfFault::FileType { found });
    }
    let found = half(order, file, 18);
    if found != conv.elf {
        return Some(ElfFault::MachineKind { found });
    }
    if are_headers_cut(order, file) {
        return Some(ElfFault::HeadersCut);
    }
    None
}

/// The fault of the first header that asks for an interpreter.
#[tactic(auto, unfolding(crate::specs::Faults::interp_fault))]
pub fn interp_fault(headers: &[ProgramHeader]) -> Option<ElfFault>
    ensures { result ≡ interp_fault headers.now }
{
    let found = headers.iter().find(|h| h.is_interp())?;
    Some(ElfFault::Interp { index: found.index })
}

/// The fault of a segment, with the addresses that earlier ones take.
#[tactic(auto, unfolding(crate::specs::Faults::load_fault))]
fn load_fault(len: usize, taken: &Taken, h: &ProgramHeader) -> Option<ElfFault>
    ensures { (before : List ProgramHeader) → Shows taken.now before → 0 < h.now.memory_size → result ≡ load_fault len before h.now }
{
    let index = h.index;
    if h.offset as usize + h.file_size as usize > len {
        return Some(ElfFault::SegmentCut { index });
    }
    if h.file_size > h.memory_size {
        return Some(ElfFault::SegmentSizes { index });
    }
    if h.end() > 1 << 32 {
        return Some(ElfFault::SegmentRange { index });
    }
    if taken.shares_byte(h) {
        return Some(ElfFault::SegmentOverlap { index });
    }
    None
}

/// The fault of the first segment that has one.
pub fn loads_fault(
    alloc: Global,
    len: usize,
    loads: &[ProgramHeader],
) -> Result<Option<ElfFault>, AllocError>
    requires { All (λ h. 0 < h.memory_size) loads.now }
    ensures { IfOk result (λ fault. fault ≡ loads_fault len [] loads.now) }
{
    let mut taken = Taken::new(alloc);
    for h in loads {
        let fault = load_fault(len, &taken, h);
        if fault.is_some() {
            return Ok(fault);
        }
        taken.add(h)?;
    }
    Ok(None)
}

/// Whether an address lies in a segment that may be executed and not written.
fn is_in_code(a: u32, h: &ProgramHeader) -> bool
    ensures { result ≡ is_in_code a h.now }
{
    h.runs() && !h.writes() && h.address <= a && u64::from(a) < h.end()
}

/// The fault of all segments together.
#[tactic(auto, unfolding(crate::specs::Faults::image_fault))]
pub fn image_fault(entry: u32, loads: &[ProgramHeader]) -> Option<ElfFault>
    requires { length loads.now ≤ 65535 }
    ensures { result ≡ image_fault entry loads.now }
{
    if loads.is_empty() {
        return Some(ElfFault::NoLoad);
    }
    let total = total(loads);
    if total > MOST {
        return Some(ElfFault::ImageTooLarge { total });
    }
    if !holds_code(entry, loads) {
        return Some(ElfFault::EntryOutside { entry });
    }
    None
}

/// Whether an address lies in one of these segments that may be executed and not written.
fn holds_code(a: u32, loads: &[ProgramHeader]) -> bool
    ensures { result ≡ list_any (is_in_code a) loads.now }
{
    loads.iter().any(|h| is_in_code(a, h))
}

/// How many bytes the segments take.
fn total(loads: &[ProgramHeader]) -> u64
    requires { length loads.now ≤ 65535 }
    ensures { result ≡ total loads.now }
{
    loads.iter().map(|h| u64::from(h.memory_size)).sum()
}
