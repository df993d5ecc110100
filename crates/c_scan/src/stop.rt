//! Why a reader gave up.
ghost use Rattle.std.specs.Prelude.{◌≡◌};
ghost use Rattle.c_scan.specs.declared.stop.Stop.TheVariants as stops;

use std::alloc::{AllocError, AllocFailed};

/// Why a reader tells no value.
#[derive(Clone, Copy, Debug, PartialEq, Eq, Drop)]
pub enum Stop {
    /// Other tokens stand there.
    Malformed,
    NoMemory,
}

impl From<AllocError> for Stop {
    ghost from_gives = { λ _ made. made ≡ stops.NoMemory };

    fn from(_error: AllocError) -> Stop {
        Stop::NoMemory
    }
}

impl<T: Drop> From<AllocFailed<T>> for Stop {
    ghost from_gives = { λ _ made. made ≡ stops.NoMemory };

    fn from(_error: AllocFailed<T>) -> Stop {
        Stop::NoMemory
    }
}
