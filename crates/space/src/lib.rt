//! A memory of plain ranges: bytes at 32-bit addresses, each of which may be read, and written where its range says so.
#![tactic(auto)]

mod fault;
mod placing;
mod range;
mod search;
mod space;

pub use fault::{AccessFault, SpaceFault};
pub use range::Range;
pub use space::Space;
