//! What is reached from some starts by steps, each thing once; and lists as sets whose items ascend.
#![tactic(auto)]

mod laws;
mod search;
mod sets;

pub use laws::ascending_lists_are_one;
pub use search::{ClosureFault, Successors, closure};
pub use sets::{ascending, ascending_set};
