//! An executable as its segments, entry and symbols.
ghost use Rattle.std.specs.Prelude.{◌≡◌, ◌≢◌, ◌≤◌, ◌+◌, None, All, map, length, IfOk, IfErr};
ghost use Rattle.elf32.specs.Headers.{loads};
ghost use Rattle.elf32.specs.Faults.{first_fault};
ghost use Rattle.elf32.specs.Reading.{segment_of, contents};
ghost use Rattle.elf32.specs.declared.fault.ElfFault.TheVariants as faults;

use super::checks::{header_fault, image_fault, interp_fault, loads_fault};
use super::elf::{Elf, Segment};
use super::fault::ElfFault;
use super::headers::{ProgramHeader, headers, loads};
use super::numbers::word;
use super::symbols::symbols;
use rtl_core::{Conv, Order};
use sqlite_items::Items;
use std::alloc::{AllocError, Global};

/// The headers of the segments of an executable, or its first fault.
#[tactic(auto, unfolding(crate::specs::Faults::first_fault))]
pub fn checked_loads(
    alloc: Global,
    file: &[u8],
    conv: &Conv,
    order: Order,
) -> Result<Vec<ProgramHeader>, ElfFault>
    ensures sound { IfOk result (λ _. first_fault file.now conv.now order ≡ None) }
    ensures loads { IfOk result (λ found. found.items ≡ loads order file.now) }
    ensures fault { IfErr result (λ fault. fault ≢ faults.NoMemory → first_fault file.now conv.now order ≡ Some fault) }
{
    if let Some(fault) = header_fault(file, conv, order) {
        return Err(fault);
    }
    let headers = headers(alloc, order, file)?;
    if let Some(fault) = interp_fault(&headers) {
        return Err(fault);
    }
    let loads = loads(alloc, &headers)?;
    if let Some(fault) = loads_fault(alloc, file.len(), &loads)? {
        return Err(fault);
    }
    if let Some(fault) = image_fault(word(order, file, 24), &loads) {
        return Err(fault);
    }
    Ok(loads)
}

/// The segment of a program header.
fn segment_of(alloc: Global, file: &[u8], h: &ProgramHeader) -> Result<Segment, AllocError>
    requires { h.now.offset + h.now.file_size ≤ length file.now }
    ensures { IfOk result (λ segment. segment ≡ segment_of file.now h.now) }
{
    let start = h.offset as usize;
    Ok(Segment {
        header: h.index,
        base: h.address,
        len: h.memory_size,
        write: h.writes(),
        exec: h.runs(),
        bytes: Items::from_slice(alloc, &file[start..start + h.file_size as usize])?,
    })
}

/// The segments of program headers whose bytes lie in the file.
pub fn segments_of(
    alloc: Global,
    file: &[u8],
    loads: &[ProgramHeader],
) -> Result<Items<Segment>, AllocError>
    requires { All (λ h. h.offset + h.file_size ≤ length file.now) loads.now }
    ensures { IfOk result (λ segments. segments ≡ map (segment_of file.now) loads.now) }
{
    let mut segments = Items::new(alloc);
    for h in loads {
        segments.push(segment_of(alloc, file, h)?)?;
    }
    Ok(segments)
}
