//! The faults of a C text.
ghost use Rattle.std.specs.Prelude.{◌≡◌};
ghost use Rattle.c_read.specs.declared.fault.CFault.TheVariants as faults;

use std::alloc::{AllocError, AllocFailed};

/// The first fault of a C text. Lex comes before BadItem, and BadItem before Static.
#[derive(Clone, Copy, Debug, PartialEq, Eq, Drop)]
pub enum CFault {
    /// On this line, counted from 1, stands the first byte behind the first line that is no blank and begins no token.
    Lex { line: u32 },
    /// The items before this one stand, and no item that may stand next begins what follows; 0 is the first line. The
    /// number behind that of `uq_main` tells that something follows it.
    BadItem { index: u32 },
    /// The least item that breaks a static rule, and the least rule that it breaks.
    Static { index: u32, rule: u8 },
    /// There is not enough memory.
    NoMemory,
}

impl From<AllocError> for CFault {
    ghost from_gives = { λ _ made. made ≡ faults.NoMemory };

    fn from(_error: AllocError) -> CFault {
        CFault::NoMemory
    }
}

impl<T: Drop> From<AllocFailed<T>> for CFault {
    ghost from_gives = { λ _ made. made ≡ faults.NoMemory };

    fn from(_error: AllocFailed<T>) -> CFault {
        CFault::NoMemory
    }
}
