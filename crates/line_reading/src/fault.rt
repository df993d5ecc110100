ghost use Rattle.std.specs.Prelude.{◌≡◌};
ghost use Rattle.line_reading.specs.declared.fault.SyntaxFault.TheVariants as faults;

use std::alloc::{AllocError, AllocFailed};
use text_lex::LexFault;
use thiserror::Error;

/// What is wrong with the form of a description's text.
#[derive(Clone, Copy, Debug, PartialEq, Eq, Drop, Error)]
pub enum SyntaxFault {
    /// Its bytes or lines.
    #[error("{0}")]
    Lex(LexFault),
    /// The logical line that begins at this physical line is of no form; none before it is.
    #[error("line {line}: no form of a line")]
    BadLine { line: u32 },
    /// Memory ran out.
    #[error("out of memory")]
    NoMemory,
}

impl From<AllocError> for SyntaxFault {
    ghost from_gives = { λ _ made. made ≡ faults.NoMemory };

    fn from(_error: AllocError) -> SyntaxFault {
        SyntaxFault::NoMemory
    }
}

impl<T: Drop> From<AllocFailed<T>> for SyntaxFault {
    ghost from_gives = { λ _ made. made ≡ faults.NoMemory };

    fn from(_error: AllocFailed<T>) -> SyntaxFault {
        SyntaxFault::NoMemory
    }
}
