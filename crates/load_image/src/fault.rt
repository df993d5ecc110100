//! Why an executable makes no image.
ghost use Rattle.std.specs.Prelude.{◌≡◌};
ghost use Rattle.load_image.specs.declared.fault.ImageFault.TheVariants as faults;

use std::alloc::{AllocError, AllocFailed};
use thiserror::Error;

/// Why an executable makes no image under its conventions.
#[derive(Clone, Copy, Debug, PartialEq, Eq, Drop, Error)]
pub enum ImageFault {
    /// The segment of this program header, counted from 0, shares a byte with the heap or the stack; none before it does.
    #[error("program header {index}: the segment overlaps the heap or the stack")]
    AreaOverlap { index: u32 },
    /// Memory ran out.
    #[error("out of memory")]
    NoMemory,
}

impl From<AllocError> for ImageFault {
    ghost from_gives = { λ _ made. made ≡ faults.NoMemory };

    fn from(_error: AllocError) -> ImageFault {
        ImageFault::NoMemory
    }
}

impl<T: Drop> From<AllocFailed<T>> for ImageFault {
    ghost from_gives = { λ _ made. made ≡ faults.NoMemory };

    fn from(_error: AllocFailed<T>) -> ImageFault {
        ImageFault::NoMemory
    }
}
