//! Which variables the functions of a C text declare, and how many slots a call needs for them.
#![tactic(auto)]

mod sheet;

pub use sheet::{Sheet, sheet_of, slots_of};
