//! The list of a graph: its procedures, their points, and the tables of its computed jumps.
#![tactic(auto)]

ghost use Rattle.listing.specs.Listable.{GraphIsListable};

mod lines;
mod list;
mod pieces;
mod tables;
mod words;

pub use list::list_all;

/// The graph of a program, with a summary for each of its procedures in their order, can be listed.
pub fn graph_is_listable()
    ensures { GraphIsListable }
{}
