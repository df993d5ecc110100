//! Which cells each procedure of a program may read or assign.
#![tactic(auto)]

mod arrivals;
mod columns;
pub mod laws;
mod listing;
mod named;
pub mod parts;
mod rows;
mod search;

pub use listing::{summaries, whole_summaries};
