//! What follows of a graph of a program.
ghost use Rattle.discover.specs.GraphLaws.{GraphIsOne, GraphServes, ReachedGoesOn, OnlyJumpsHaveTables};

use points::Point;
use worklist::ascending_lists_are_one;

/// A program has one graph.
pub fn graph_is_one()
    ensures { GraphIsOne }
{
    ascending_lists_are_one::<Point>();
}

/// What a graph has for a run and for a translation: the node of each reached point, the procedures of roots and
/// calls, bodies that are closed, tables and pads.
pub fn graph_serves()
    ensures { GraphServes }
{}

/// Roots are reached, and so is all that a reached point leads to.
pub fn reached_goes_on()
    ensures { ReachedGoesOn }
{}

/// Tables matter only where computed plain jumps stand: programs that differ elsewhere have the same bodies and graphs.
pub fn only_jumps_have_tables()
    ensures { OnlyJumpsHaveTables }
{}
