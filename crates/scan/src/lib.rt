//! The tokens of a text, the longest at each place: definitions and laws that every lexer shares.
#![tactic(auto)]

ghost use Rattle.std.specs.Prelude.{ℕ, Bool, List, Option};
ghost use Rattle.scan.specs.Laws.{IsSeparated, SplitsAtBlanks, WritesText, WritesBoth, WritesAll};

/// A blank separates tokens: those of `a`, a blank and `b` are those of `a` and then those of `b`.
pub fn blanks_separate<T>()
    ensures { (token_of : List ℕ → Option ℕ → Option T) → (is_blank : ℕ → Bool) → IsSeparated token_of is_blank → SplitsAtBlanks token_of is_blank }
{}

/// A text is written piece by piece: the tokens of pieces with a blank behind each are those of the pieces in order.
pub fn pieces_compose<T>()
    ensures text { (token_of : List ℕ → Option ℕ → Option T) → (is_blank : ℕ → Bool) → IsSeparated token_of is_blank → WritesText token_of is_blank }
    ensures both { (token_of : List ℕ → Option ℕ → Option T) → (is_blank : ℕ → Bool) → WritesBoth token_of is_blank }
    ensures all { (token_of : List ℕ → Option ℕ → Option T) → (is_blank : ℕ → Bool) → WritesAll token_of is_blank }
{}
