//! The memory of a run: bytes at 32-bit addresses, on pages that are frames of a pool.
#![tactic(auto)]

mod access;
mod extent;
mod fault;
mod laws;
mod laying;
mod pages;
mod range;
mod search;
mod sharing;
mod sorting;
mod space;
#[cfg(test)]
mod tests;
mod view;
mod word;

pub use extent::Extent;
pub use fault::{AccessFault, SpaceFault, TwinFault};
pub use laws::{together_law, twins_law, twins_stay_law};
pub use range::{Range, frames_of};
pub use space::{Space, Unbuilt};
pub use view::View;
