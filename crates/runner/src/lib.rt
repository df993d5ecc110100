//! The described machine as a program that walks the graph of its program, over pages of a pool.
#![tactic(auto)]

mod guest;
mod one_step;
mod run_state;

pub use guest::Guest;
pub use paged_space::Unbuilt;
