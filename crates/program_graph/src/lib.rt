//! The graph of a described program.
#![tactic(auto)]

mod described;
mod discovery;

ghost use Rattle.program_graph.specs.Flows.{FlowsRunAlike};

pub use discover::DiscoverFault;
pub use discovery::discover;

/// What control asks of a program is one: two answers that are right run alike, on every memory and input.
pub fn flows_run_alike()
    ensures { FlowsRunAlike }
{}
