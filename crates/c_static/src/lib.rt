//! The C program of a graph keeps the static rules of a C text.
#![tactic(auto)]

ghost use Rattle.c_static.specs.Images.{SegmentsArePlaced};
ghost use Rattle.c_static.specs.Laws.{GraphKeepsOnce, GraphKeepsKnown, GraphKeepsCounted, GraphKeepsSized, GraphKeepsPlaced, GraphIsStatic};

/// Nothing is declared twice: the addresses of functions, their parameters, and the labels in each of them.
pub fn graph_keeps_once()
    ensures { GraphKeepsOnce }
{}

/// Each variable, function and label that a function names is declared.
pub fn graph_keeps_known()
    ensures { GraphKeepsKnown }
{}

/// Each call has as many arguments as its function has parameters.
pub fn graph_keeps_counted()
    ensures { GraphKeepsCounted }
{}

/// Accesses have 1, 2, 4 or 8 bytes, and arrays their lengths.
pub fn graph_keeps_sized()
    ensures { GraphKeepsSized }
{}

/// Segments, heap and stack lie apart, below 2^32 and within their limits, where the parts of the image do.
pub fn graph_keeps_placed()
    ensures { GraphKeepsPlaced }
{}

/// All five rules together.
pub fn graph_is_static()
    ensures { GraphIsStatic }
{}

/// The segments of an executable without fault that share no byte with heap and stack are parts in their places.
pub fn segments_are_placed()
    ensures { SegmentsArePlaced }
{}
