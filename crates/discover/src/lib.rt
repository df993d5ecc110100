//! The graph of a program: all that control can reach.
#![tactic(auto)]

mod bodies;
mod discovery;
mod jumps;
pub mod laws;
mod nodes;
mod outline;
mod place;
mod program;
mod search;

pub use discovery::{DiscoverFault, discover_in};
pub use laws::{graph_is_one, graph_serves, only_jumps_have_tables, reached_goes_on};
pub use program::Program;
