//! The C text of a program from its graph.
#![tactic(auto)]

ghost use Rattle.c_program.specs.Choosing.{HalvesChoose};
ghost use Rattle.c_program.specs.Planning.{GraphIsPlanned, GraphIsSame};

mod arrivals;
mod blocks;
mod control;
mod emission;
mod ends;
mod entering;
mod expressions;
mod functions;
mod header;
mod pieces;
mod program;
mod service;
mod sources;

pub use emission::emit;

/// The choice among at most 131,072 ascending procedures leads each to itself and nothing to another place, by at most 17
/// conditions in one another.
pub fn halves_choose()
    ensures { HalvesChoose }
{}

/// The program of a graph with closed summaries is the C text of its plan.
pub fn graph_is_planned()
    ensures { GraphIsPlanned }
{}

/// So it is the same as the described machine, on every input.
pub fn graph_is_same()
    ensures { GraphIsSame }
{}
