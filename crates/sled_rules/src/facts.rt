//! What is known of the types.
ghost use Rattle.std.specs.Prelude.{◌≡◌, ◌<◌, IfSome, length, slice_get};
ghost use Rattle.sled_rules.specs.Starts.{start_of};
ghost use Rattle.sled_rules.specs.Sizes.{most_of, longest_of};
ghost use Rattle.sled_rules.specs.Faults.{is_used};

use crate::meaning::Start;

/// What is known of a type from its constructors so far: the token that they start with, the most numbers of their
/// operands, the most bytes; and whether some line uses it as operand.
#[derive(Clone, Copy, Debug, PartialEq, Eq)]
pub struct Facts {
    pub start: Start,
    pub most: usize,
    pub longest: usize,
    pub used: bool,
}

/// The facts of a type.
pub fn facts_of(facts: &[Facts], kind: u16) -> Option<Facts>
    ensures found { result ≡ slice_get facts.now kind }
    ensures within { IfSome result (λ f. kind < length facts.now) }
{
    facts.get(usize::from(kind)).copied()
}

/// The token that the constructors of a type start with.
pub fn start_of(facts: &[Facts], kind: u16) -> Start
    ensures { result ≡ start_of facts.now kind }
{
    match facts_of(facts, kind) {
        None => Start::Nothing,
        Some(known) => known.start,
    }
}

/// The most numbers in the operands of a type's constructors.
pub fn most_of(facts: &[Facts], kind: u16) -> usize
    ensures { result ≡ most_of facts.now kind }
{
    match facts_of(facts, kind) {
        None => 0,
        Some(known) => known.most,
    }
}

/// The most bytes that a type's constructors take.
pub fn longest_of(facts: &[Facts], kind: u16) -> usize
    ensures { result ≡ longest_of facts.now kind }
{
    match facts_of(facts, kind) {
        None => 0,
        Some(known) => known.longest,
    }
}

/// Some line uses the type as operand.
pub fn is_used(facts: &[Facts], kind: u16) -> bool
    ensures { result ≡ is_used facts.now kind }
{
    match facts_of(facts, kind) {
        None => false,
        Some(known) => known.used,
    }
}
