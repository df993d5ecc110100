//! The statements of a C text by numbers of places, and its labels by numbers of blocks, so that a run looks nothing up by name.
#![tactic(auto)]

mod items;
mod labels;

pub use items::{Item, add, item_at};
pub use labels::{add_ways, number_of};
