//! The file header and the program headers (System V ABI, "Object Files").
ghost use Rattle.std.specs.Prelude.{◌≡◌, ◌≤◌, ◌<◌, ◌+◌, ◌*◌, length, filter, All, IfOk};
ghost use Rattle.elf32.specs.Headers.{header_from, header_count, headers_at, headers, is_interp, is_load, runs, writes};
ghost use Rattle.elf32.specs.Faults.{end_of};

use super::numbers::{half, word};
use rtl_core::Order;
use std::alloc::{AllocError, Global};

/// The bytes of a file header and of a program header.
pub const FILE_HEADER: usize = 52;

pub const PROGRAM_HEADER: usize = 32;

/// `PT_LOAD` and `PT_INTERP`, kinds of program headers.
const LOAD: u32 = 1;

const INTERP: u32 = 3;

/// A program header, as far as it matters here.
#[derive(Clone, Copy, Debug)]
pub struct ProgramHeader {
    /// Its number, counted from 0.
    pub index: u32,
    pub kind: u32,
    /// Where the bytes stand in the file.
    pub offset: u32,
    pub address: u32,
    pub file_size: u32,
    pub memory_size: u32,
    pub flags: u32,
}

/// The program header at a place.
#[tactic(auto, unfolding(crate::specs::Headers::header_from))]
fn header_from(order: Order, file: &[u8], index: u32, at: usize) -> ProgramHeader
    requires { at + 32 ≤ length file.now }
    ensures { result ≡ header_from order file.now index at }
{
    ProgramHeader {
        index,
        kind: word(order, file, at),
        offset: word(order, file, at + 4),
        address: word(order, file, at + 8),
        file_size: word(order, file, at + 16),
        memory_size: word(order, file, at + 20),
        flags: word(order, file, at + 24),
    }
}

/// The program headers, which lie in the file.
pub fn headers(alloc: Global, order: Order, file: &[u8]) -> Result<Vec<ProgramHeader>, AllocError>
    requires long { 52 ≤ length file.now }
    requires whole { 0 < header_count order file.now → headers_at order file.now + 32 * header_count order file.now ≤ length file.now }
    ensures headers { IfOk result (λ found. found.items ≡ headers order file.now) }
    ensures few { IfOk result (λ found. length found.items ≤ 65535) }
{
    let count = half(order, file, 44);
    let start = word(order, file, 28) as usize;
    let mut found = Vec::new(alloc);
    for i in 0..count as u32 {
        found.push(header_from(order, file, i, start + PROGRAM_HEADER * i as usize))?;
    }
    Ok(found)
}

impl ProgramHeader {
    pub fn is_interp(&self) -> bool
        ensures { result ≡ is_interp self.now }
    {
        self.kind == INTERP
    }

    fn is_load(&self) -> bool
        ensures { result ≡ is_load self.now }
    {
        self.kind == LOAD && self.memory_size > 0
    }

    /// Whether the segment may be executed (`PF_X`).
    pub fn runs(&self) -> bool
        ensures { result ≡ runs self.now }
    {
        self.flags & 1 != 0
    }

    /// Whether the segment may be written (`PF_W`).
    pub fn writes(&self) -> bool
        ensures { result ≡ writes self.now }
    {
        self.flags & 2 != 0
    }

    /// Where the segment ends.
    pub fn end(&self) -> u64
        ensures { result ≡ end_of self.now }
    {
        u64::from(self.address) + u64::from(self.memory_size)
    }
}

/// The headers of segments that have a byte in memory.
pub fn loads(alloc: Global, headers: &[ProgramHeader]) -> Result<Vec<ProgramHeader>, AllocError>
    ensures loads { IfOk result (λ found. found.items ≡ filter is_load headers.now) }
    ensures some { IfOk result (λ found. All (λ h. 0 < h.memory_size) found.items) }
    ensures few { IfOk result (λ found. length found.items ≤ length headers.now) }
{
    headers
        .iter()
        .copied()
        .filter(|h| h.is_load())
        .collect(alloc)
}
