//! The variables of a run of the C text in slots, and the values of expressions over them.
#![tactic(auto)]

mod slots;
mod values;
mod variables;

pub use slots::{is_global, slot_of};
pub use variables::Variables;
