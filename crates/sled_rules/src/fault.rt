//! What refuses a description of encodings.
ghost use Rattle.std.specs.Prelude.{◌≡◌};
ghost use Rattle.sled_rules.specs.declared.fault.SledFault.TheVariants as faults;

use std::alloc::{AllocError, AllocFailed};
use thiserror::Error;

/// The first thing that is wrong with the lines of a description of encodings: that of the first line that has
/// a fault, and on it the one that stands first here. `line` is the line's number.
#[derive(Clone, Copy, Debug, PartialEq, Eq, Drop, Error)]
pub enum SledFault {
    /// A name that no earlier line gives, of the kind that its place asks; `fields` before `order`; an operand that
    /// some sequence does not bind.
    #[error("line {line}: an unknown name")]
    Unknown { line: u32 },
    /// A name that is given already or reserved; a second `order`; an operand listed or bound twice.
    #[error("line {line}: a name given twice")]
    Twice { line: u32 },
    /// A token that has not 8, 16 or 32 bits; a field outside its token; a number that does not fit its field.
    #[error("line {line}: out of range")]
    FieldRange { line: u32 },
    /// Parts joined by `&` that are over two tokens, or one of them a typed operand or a sequence.
    #[error("line {line}: parts over different tokens")]
    TokenMixed { line: u32 },
    /// A constructor of a type that this line or an earlier one uses as operand.
    #[error("line {line}: a constructor behind a use of its type")]
    TypeOrder { line: u32 },
    /// Operands that can come to more than 8 numbers.
    #[error("line {line}: more than 8 numbers as operands")]
    TooManyOperands { line: u32 },
    /// More than 4,096 fields or constructors, 256 alternatives, 16 items or 32 bytes.
    #[error("line {line}: over a limit")]
    TooMany { line: u32 },
    /// Memory ran out.
    #[error("out of memory")]
    NoMemory,
}

impl From<AllocError> for SledFault {
    ghost from_gives = { λ _ made. made ≡ faults.NoMemory };

    fn from(_error: AllocError) -> SledFault {
        SledFault::NoMemory
    }
}

impl<T: Drop> From<AllocFailed<T>> for SledFault {
    ghost from_gives = { λ _ made. made ≡ faults.NoMemory };

    fn from(_error: AllocFailed<T>) -> SledFault {
        SledFault::NoMemory
    }
}
