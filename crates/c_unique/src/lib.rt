//! No two programs have one C text.
#![tactic(auto)]

ghost use Rattle.c_unique.specs.Unique.{NoTwoSpellings, OneProgram};

/// The tokens of a C text determine its program: programs with the same tokens are the same, if both have a
/// spelling.
pub fn no_two_spellings()
    ensures { NoTwoSpellings }
{}

/// A C text determines its program: a text spells at most one.
pub fn one_program()
    ensures { OneProgram }
{}
