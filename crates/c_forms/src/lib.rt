//! The program of a graph has a C text.
#![tactic(auto)]

ghost use Rattle.c_forms.specs.Spelled.{GraphIsSpelled};

/// The program of a graph with closed summaries has a spelling: nothing in it nests too deep, and each number has no
/// more bits than its place leaves it.
pub fn graph_is_spelled()
    ensures { GraphIsSpelled }
{}
