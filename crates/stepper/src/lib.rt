//! The described machine as a program that steps.
#![tactic(auto)]

mod ends;
mod guest;
mod one_step;
mod run_state;

pub use ends::line_ends;
pub use guest::{Guest, Unbuilt};
