//! What names stand for.
ghost use Rattle.std.specs.Prelude.{◌≡◌};
ghost use Rattle.sled_rules.specs.Starts.{join};
ghost use Rattle.sled_rules.specs.Faults.{is_several};

use rtl_core::Item;
use sqlite_items::Items;

/// A token, told apart by the place of its name among all names, and its width in bits.
#[derive(Clone, Copy, Debug, PartialEq, Eq)]
pub struct Token {
    pub place: usize,
    pub bits: u8,
}

/// The bits `lo` to `hi` of a token, both included, bit 0 the least.
#[derive(Clone, Copy, Debug, PartialEq, Eq)]
pub struct Field {
    pub token: Token,
    pub lo: u8,
    pub hi: u8,
}

/// The token that all of some alternatives start with, where there is one.
#[derive(Clone, Copy, Debug, PartialEq, Eq)]
pub enum Start {
    Nothing,
    One(Token),
    Several,
}

impl Start {
    /// What starts over the tokens of both.
    pub fn join(self, other: Start) -> Start
        ensures { result ≡ join self other }
    {
        match (self, other) {
            (Start::Nothing, _) => other,
            (Start::One(_), Start::Nothing) => self,
            (Start::One(left), Start::One(right)) => {
                if left.place == right.place && left.bits == right.bits {
                    self
                } else {
                    Start::Several
                }
            },
            (Start::One(_), Start::Several) | (Start::Several, _) => Start::Several,
        }
    }

    /// Not all start with the same token.
    pub fn is_several(self) -> bool
        ensures { result ≡ is_several self }
    {
        matches!(self, Start::Several)
    }
}

/// The alternatives of a named pattern, and the token that they start with.
#[derive(Debug, Drop)]
pub struct NamedPattern {
    pub alternatives: Items<Items<Item>>,
    pub start: Start,
}

/// What a name stands for. A type is known by its number.
#[derive(Debug, Drop)]
pub enum Meaning {
    Token,
    Field(Field),
    Pattern(NamedPattern),
    Constructor,
    Type(u16),
}
