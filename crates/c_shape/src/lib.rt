//! The C program of a graph has the shape that is promised to who reads it.
#![tactic(auto)]

ghost use Rattle.c_shape.specs.Laws.{GraphHasItsFunctions, GraphHasItsCells, GraphHasItsImage, GraphPerforms, GraphHasFullShape};

/// One function for each procedure and no other, with exactly its cells as parameters and exactly its blocks.
pub fn graph_has_its_functions()
    ensures { GraphHasItsFunctions }
{}

/// The cells that a function gets and hands back are exactly those of its procedure's summary.
pub fn graph_has_its_cells()
    ensures { GraphHasItsCells }
{}

/// The segments, the heap and the stack are those of the image, and so is the first memory.
pub fn graph_has_its_image()
    ensures { GraphHasItsImage }
{}

/// Each block enters and leaves procedures only as a step at its point can, with exactly their cells, and reads no temporary that it
/// has not assigned.
pub fn graph_performs()
    ensures { GraphPerforms }
{}

/// All of it together.
pub fn graph_has_full_shape()
    ensures { GraphHasFullShape }
{}
