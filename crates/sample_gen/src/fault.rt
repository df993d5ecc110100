//! Why there is no sample.
ghost use Rattle.std.specs.Prelude.{◌≡◌};
ghost use Rattle.sample_gen.specs.declared.fault.SampleFault.TheVariants as faults;

use std::alloc::AllocError;
use thiserror::Error;

/// Why there is no sample.
#[derive(Clone, Copy, Debug, PartialEq, Eq, Drop, Error)]
pub enum SampleFault {
    /// The count of instructions is 0 or over 20,000.
    #[error("the count of instructions is not from 1 to 20,000")]
    Count,
    /// Memory ran out.
    #[error("out of memory")]
    NoMemory,
}

impl From<AllocError> for SampleFault {
    ghost from_gives = { λ _ made. made ≡ faults.NoMemory };

    fn from(_error: AllocError) -> SampleFault {
        SampleFault::NoMemory
    }
}
