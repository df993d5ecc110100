//! Why a Space can't be built or shared, and why an access can't be made.
use thiserror::Error;

/// Why ranges make no Space. `index` is the place of the range, counted from 0; a place over 2^32 - 1 is told as 2^32 - 1.
///
/// The first range that is at fault is told. One that is both past the end and over an earlier one is `PastEnd`.
#[derive(Clone, Copy, Debug, PartialEq, Eq, Drop, Error)]
pub enum SpaceFault {
    /// The range goes past 2^32.
    #[error("range {index} goes past the last address")]
    PastEnd { index: u32 },
    /// The range shares an address with an earlier one.
    #[error("range {index} overlaps an earlier one")]
    Overlap { index: u32 },
    /// The pool has fewer spare frames than the ranges touch pages.
    #[error("too few spare frames")]
    NoFrames,
    /// Memory ran out.
    #[error("out of memory")]
    NoMemory,
}

/// Why a Space has no twin.
#[derive(Clone, Copy, Debug, PartialEq, Eq, Drop, Error)]
pub enum TwinFault {
    /// A frame of the Space has 65,535 holders.
    #[error("a frame has as many holders as it may have")]
    Holders,
    /// Memory ran out.
    #[error("out of memory")]
    NoMemory,
}

/// The first byte of an access that is not mapped, or for a store not writable.
#[derive(Clone, Copy, Debug, PartialEq, Eq, Drop, Error)]
#[error("no such access at {address}")]
pub struct AccessFault {
    pub address: u32,
}
