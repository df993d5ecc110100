//! What refuses an executable.
ghost use Rattle.std.specs.Prelude.{◌≡◌};
ghost use Rattle.elf32.specs.declared.fault.ElfFault.TheVariants as faults;

use std::alloc::{AllocError, AllocFailed};
use thiserror::Error;

/// The first thing that is wrong with an executable, in the order in which they stand here; the four faults of
/// segments are looked for in one header after another. `index` is the number of a program header, counted from 0.
/// The names in backquotes are those of the System V ABI.
#[derive(Clone, Copy, Debug, PartialEq, Eq, Drop, Error)]
pub enum ElfFault {
    /// The file has fewer than the 52 bytes of a file header.
    #[error("the file is too short")]
    Short,
    /// It does not begin with 7F 45 4C 46.
    #[error("not an ELF file")]
    Magic,
    /// `EI_CLASS` is not that of 32 bits.
    #[error("not a 32-bit file")]
    Class,
    /// `EI_DATA` is not the byte order of the machine.
    #[error("not the byte order of the machine")]
    Order,
    /// `e_type` is not that of an executable.
    #[error("file type {found} is not that of an executable")]
    FileType { found: u16 },
    /// `e_machine` is not the number that the conventions ask for.
    #[error("machine {found} is not the described one")]
    MachineKind { found: u16 },
    /// There are program headers, and they have not 32 bytes each, or do not lie in the file.
    #[error("the program headers are cut")]
    HeadersCut,
    /// This header, and none before it, asks for an interpreter.
    #[error("program header {index} asks for an interpreter")]
    Interp { index: u32 },
    /// The bytes of this segment do not lie in the file.
    #[error("program header {index}: the segment is cut")]
    SegmentCut { index: u32 },
    /// This segment has more bytes in the file than in memory.
    #[error("program header {index}: more bytes in the file than in memory")]
    SegmentSizes { index: u32 },
    /// This segment ends behind 2^32.
    #[error("program header {index}: the segment ends behind the address space")]
    SegmentRange { index: u32 },
    /// This segment shares a byte with one of an earlier header.
    #[error("program header {index}: the segment overlaps an earlier one")]
    SegmentOverlap { index: u32 },
    /// No segment has a byte in memory.
    #[error("nothing to load")]
    NoLoad,
    /// The segments take more than 16,777,216 bytes of memory.
    #[error("{total} bytes to load are too many")]
    ImageTooLarge { total: u64 },
    /// The entry does not lie in a segment that may be executed and not written.
    #[error("the entry {entry} is not in code")]
    EntryOutside { entry: u32 },
    /// Memory ran out.
    #[error("out of memory")]
    NoMemory,
}

impl From<AllocError> for ElfFault {
    ghost from_gives = { λ _ made. made ≡ faults.NoMemory };

    fn from(_error: AllocError) -> ElfFault {
        ElfFault::NoMemory
    }
}

impl<T: Drop> From<AllocFailed<T>> for ElfFault {
    ghost from_gives = { λ _ made. made ≡ faults.NoMemory };

    fn from(_error: AllocFailed<T>) -> ElfFault {
        ElfFault::NoMemory
    }
}
