//! Control on the graph of a program: where each node's step leads, arrivals, calls and returns, without a search for what is known
//! before the run.
#![tactic(auto)]

mod calls;
mod charted;
mod control;
mod finding;
mod lookup;
mod position;
mod ways;

pub use calls::{Calls, MOST_CALLS};
pub use charted::Charted;
pub use lookup::{Lookup, lookup_of};
pub use position::Position;
pub use ways::{Way, Ways};
