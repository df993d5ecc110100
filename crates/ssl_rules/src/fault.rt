ghost use Rattle.std.specs.Prelude.{◌≡◌};
ghost use Rattle.ssl_rules.specs.declared.fault.SslFault.TheVariants as faults;

use std::alloc::{AllocError, AllocFailed};
use thiserror::Error;

/// What is wrong with the lines of a description of instructions. A line is told by its number.
#[derive(Clone, Copy, Debug, PartialEq, Eq, Drop, Error)]
pub enum SslFault {
    /// A name that no earlier line gives, of the kind that its place asks.
    #[error("line {line}: an unknown name")]
    Unknown { line: u32 },
    /// A name that is given or reserved, a line that may stand once, or a second template.
    #[error("line {line}: given twice")]
    Twice { line: u32 },
    /// More than 120 cells, or than 4,096 files and functions.
    #[error("line {line}: too many")]
    TooMany { line: u32 },
    /// The number of operands, arguments or parts differs.
    #[error("line {line}: another number of operands")]
    OperandCount { line: u32 },
    /// A number outside its range.
    #[error("line {line}: a number out of range")]
    IndexRange { line: u32 },
    /// What is assigned is not always a place.
    #[error("line {line}: not a place")]
    NotPlace { line: u32 },
    /// Two widths that must agree. `left` is the one that is asked for, or that stands first.
    #[error("line {line}: {left} bits and {right} bits")]
    WidthDiffers { line: u32, left: u8, right: u8 },
    /// Two jumps, annuls, services or window moves, or a service that is not last.
    #[error("line {line}: two jumps")]
    TwoJumps { line: u32 },
    /// More than 256 nodes after expansion.
    #[error("line {line}: too many nodes")]
    TooWide { line: u32 },
    /// The first constructor without a template.
    #[error("constructor {constructor} has no template")]
    Missing { constructor: u16 },
    /// Memory ran out.
    #[error("out of memory")]
    NoMemory,
}

impl From<AllocError> for SslFault {
    ghost from_gives = { λ _ made. made ≡ faults.NoMemory };

    fn from(_error: AllocError) -> SslFault {
        SslFault::NoMemory
    }
}

impl<T: Drop> From<AllocFailed<T>> for SslFault {
    ghost from_gives = { λ _ made. made ≡ faults.NoMemory };

    fn from(_error: AllocFailed<T>) -> SslFault {
        SslFault::NoMemory
    }
}
