ghost use Rattle.std.specs.Prelude.{◌≡◌};
ghost use Rattle.conventions.specs.declared.fault.ConvFault.TheVariants as faults;

use std::alloc::{AllocError, AllocFailed};
use thiserror::Error;

/// What is wrong with the lines of a convention file. `line` is the number of the line.
#[derive(Clone, Copy, Debug, PartialEq, Eq, Drop, Error)]
pub enum ConvFault {
    /// A cell that the machine does not have, an index at or over its file's count, a name of no instruction, or
    /// `args` where no `stack` line stands before it.
    #[error("line {line}: an unknown name")]
    Unknown { line: u32 },
    /// A second line of a kind that stands once.
    #[error("line {line}: given twice")]
    Twice { line: u32 },
    /// A number that its place cannot hold, an area that cannot stand or that shares a byte with the other area,
    /// the zero cell as the stack cell, or an offset of `args` that is over the room or no multiple of 4.
    #[error("line {line}: out of range")]
    FieldRange { line: u32 },
    /// A cell of `right` bits where `left` are asked for.
    #[error("line {line}: a cell of {right} bits, not {left}")]
    WidthDiffers { line: u32, left: u8, right: u8 },
    /// A kind of line that is not there: 1 elf, 2 stack, 3 heap, 4 service, 5 exit, 6 read, 7 write, 8 brk, 9 errors.
    #[error("no line of kind {kind}")]
    Missing { kind: u8 },
    /// Memory ran out.
    #[error("out of memory")]
    NoMemory,
}

impl From<AllocError> for ConvFault {
    ghost from_gives = { λ _ made. made ≡ faults.NoMemory };

    fn from(_error: AllocError) -> ConvFault {
        ConvFault::NoMemory
    }
}

impl<T: Drop> From<AllocFailed<T>> for ConvFault {
    ghost from_gives = { λ _ made. made ≡ faults.NoMemory };

    fn from(_error: AllocFailed<T>) -> ConvFault {
        ConvFault::NoMemory
    }
}
