ghost use Rattle.std.specs.Prelude.{◌≡◌};
ghost use Rattle.line_reading.specs.declared.stop.Stop.TheVariants as stops;

use std::alloc::{AllocError, AllocFailed};

/// Why a reader gave up.
#[derive(Clone, Copy, Debug, PartialEq, Eq, Drop)]
pub enum Stop {
    /// The tokens do not begin with what was to be read.
    Malformed,
    NoMemory,
}

impl From<AllocError> for Stop {
    ghost from_gives = { λ _ made. made ≡ stops.NoMemory };

    fn from(_error: AllocError) -> Stop {
        Stop::NoMemory
    }
}

impl<T: Drop> From<AllocFailed<T>> for Stop {
    ghost from_gives = { λ _ made. made ≡ stops.NoMemory };

    fn from(_error: AllocFailed<T>) -> Stop {
        Stop::NoMemory
    }
}
