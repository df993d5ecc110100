//! A cursor over the tokens of a text.
ghost use Rattle.std.specs.Prelude.{◌≡◌, ◌<◌, ◌≤◌, ◌∷◌, [], IfSome, MatchOption, drop, false, length};
ghost use Rattle.c_text.specs.Tokens.{long, name, sign, tokens};
ghost use Rattle.c_text.specs.Expressions.{op_sign};
ghost use Rattle.c_text.specs.Words.{function_word, label_word, segment_word, var_word};
ghost use Rattle.c_lang.specs.declared.tree.Var.TheVariants.{Cell};
ghost use Rattle.c_scan.specs.Found.{HasDigits, token};
ghost use Rattle.c_scan.specs.Left.{IsAhead, IsLexed, left};
ghost use Rattle.c_scan.specs.Names.{cell_of, function_of, label_of, operator_of, segment_of, var_of};
ghost use Rattle.c_scan.specs.Readings.{Tells, at, at_any_sign, at_end, at_function, at_name, long_ahead, plain_ahead, name_of, exactly, below_taken, long_taken, plain_taken, sign_of};

use super::front::{Found, Kind};
use super::lexed::next;
use super::names::{cell_of, function_of, label_of, operator_of, segment_of, var_of};
use super::numbers::value_of;
use super::stop::Stop;
use c_lang::{COp, Point, Var};
use std::marker::Model;

/// The tokens that are left of a text: the next one, and those from a place on.
#[derive(Drop)]
pub struct Cursor<'a> {
    text: &'a [u8],
    front: Option<Found<'a>>,
    behind: usize,
}

impl<'a> Model for Cursor<'a> {
    ghost use Rattle.std.specs.Prelude.{List};
    ghost use Rattle.c_text.specs.Tokens.{Token};

    ghost Value = { List Token };

    ghost use Rattle.c_scan.specs.Cursors.{tokens_left, IsCursor};

    ghost view = { tokens_left };

    ghost invariant = { IsCursor };
}

/// The next token from a place on, if there is one, and the place behind it.
fn ahead(text: &[u8], from: usize) -> (Option<Found<'_>>, usize)
    requires within { from ≤ length text.now }
    requires lexed { IsLexed (tokens (drop from text.now)) }
    ensures { IsAhead text.now from result.0 result.1 }
{
    match next(text, from) {
        Ok((found, end)) => (Some(found), end),
        Err(_) => (None, text.len()),
    }
}

impl<'a> Cursor<'a> {
    /// A cursor over the tokens of a text from a place on.
    pub fn new(text: &'a [u8], from: usize) -> Cursor<'a>
        requires within { from ≤ length text.now }
        requires lexed { IsLexed (tokens (drop from text.now)) }
        ensures { result ≡ left (drop from text.now) }
    {
        let (front, behind) = ahead(text, from);
        Cursor {
            text,
            front,
            behind,
        }
    }

    /// The next token.
    fn front(&self) -> Option<Found<'a>>
        ensures first { MatchOption result (self.now ≡ []) (λ f. self.now ≡ token f ∷ drop 1 self.now) }
        ensures digits { IfSome result HasDigits }
    {
        self.front
    }

    /// Goes past the next token.
    #[tactic(auto, using(crate::proofs::Steps::past_front))]
    fn step(&mut self)
        requires { 0 < length self.old }
        ensures { self.new ≡ drop 1 self.old }
    {
        let (front, behind) = ahead(self.text, self.behind);
        self.front = front;
        self.behind = behind;
    }

    /// The next token's bytes, where it is a name.
    #[tactic(auto, using(crate::proofs::Fronts::front_kinds))]
    fn name(&self) -> Option<&'a [u8]>
        ensures { MatchOption result (at_name self.now ≡ false) (λ w. self.now ≡ name w.now ∷ drop 1 self.now) }
    {
        match self.front() {
            Some(found) => match found.kind {
                Kind::Name => Some(found.bytes),
                _ => None,
            },
            None => None,
        }
    }

    /// The next token's bytes, where it is a sign.
    #[tactic(auto, using(crate::proofs::Fronts::front_kinds))]
    fn sign_bytes(&self) -> Option<&'a [u8]>
        ensures { MatchOption result (at_any_sign self.now ≡ false) (λ b. self.now ≡ sign b.now ∷ drop 1 self.now) }
    {
        match self.front() {
            Some(found) => match found.kind {
                Kind::Sign => Some(found.bytes),
                _ => None,
            },
            None => None,
        }
    }

    /// The next token's number, where it is one without a suffix and below 2^64.
    #[tactic(auto, using(crate::proofs::Fronts::front_kinds))]
    fn plain_value(&self) -> Option<u64>
        ensures { plain_ahead self.now ≡ result }
    {
        let found = self.front()?;
        match found.kind {
            Kind::Plain => value_of(found.bytes),
            _ => None,
        }
    }

    /// The next token's number, where it is one with a suffix and below 2^64.
    #[tactic(auto, using(crate::proofs::Fronts::front_kinds))]
    fn long_value(&self) -> Option<u64>
        ensures { long_ahead self.now ≡ result }
    {
        let found = self.front()?;
        match found.kind {
            Kind::Long => value_of(found.bytes),
            _ => None,
        }
    }

    /// Whether the next token is this name.
    #[tactic(auto, using(crate::proofs::Fronts::asked_laws))]
    pub fn at_word(&self, letters: &[u8]) -> bool
        ensures { result ≡ at (name letters.now) self.now }
    {
        match self.name() {
            Some(found) => found == letters,
            None => false,
        }
    }

    /// Whether the next token is this sign.
    #[tactic(auto, using(crate::proofs::Fronts::asked_laws))]
    pub fn at_sign(&self, bytes: &[u8]) -> bool
        ensures { result ≡ at (sign bytes.now) self.now }
    {
        match self.sign_bytes() {
            Some(found) => found == bytes,
            None => false,
        }
    }

    /// Whether the next token is a name.
    #[tactic(auto, using(crate::proofs::Fronts::asked_laws))]
    pub fn at_name(&self) -> bool
        ensures { result ≡ at_name self.now }
    {
        match self.name() {
            Some(_) => true,
            None => false,
        }
    }

    /// Whether the next token is a name that begins with `f`.
    #[tactic(auto, using(crate::proofs::Fronts::asked_laws))]
    pub fn at_function(&self) -> bool
        ensures { result ≡ at_function self.now }
    {
        match self.name() {
            Some(found) => !found.is_empty() && found[0] == b'f',
            None => false,
        }
    }

    /// Whether no token is left.
    #[tactic(auto, using(crate::proofs::Fronts::asked_laws))]
    pub fn at_end(&self) -> bool
        ensures { result ≡ at_end self.now }
    {
        match self.front() {
            Some(_) => false,
            None => true,
        }
    }

    /// Takes this name, or fails where another token stands.
    #[tactic(auto, using(crate::proofs::Fronts::past_front_laws))]
    pub fn word(&mut self, letters: &[u8]) -> Result<(), Stop>
        ensures { Tells result self.new ((exactly (name letters.now)).read self.old) }
    {
        if !self.at_word(letters) {
            return Err(Stop::Malformed);
        }
        self.step();
        Ok(())
    }

    /// Takes this sign, or fails where another token stands.
    #[tactic(auto, using(crate::proofs::Fronts::past_front_laws))]
    pub fn sign(&mut self, bytes: &[u8]) -> Result<(), Stop>
        ensures { Tells result self.new ((exactly (sign bytes.now)).read self.old) }
    {
        if !self.at_sign(bytes) {
            return Err(Stop::Malformed);
        }
        self.step();
        Ok(())
    }

    /// Takes a number of at most 64 bits without a suffix.
    #[tactic(auto, using(crate::proofs::Fronts::past_front_laws))]
    pub fn plain(&mut self) -> Result<u64, Stop>
        ensures { Tells result self.new (plain_taken self.old) }
    {
        match self.plain_value() {
            Some(value) => {
                self.step();
                Ok(value)
            },
            None => Err(Stop::Malformed),
        }
    }

    /// Takes a number below a bound, without a suffix.
    #[tactic(auto, using(crate::proofs::Fronts::past_front_laws))]
    pub fn plain_below(&mut self, bound: u64) -> Result<u64, Stop>
        ensures { Tells result self.new (below_taken bound self.old) }
    {
        match self.plain_value() {
            Some(value) if value < bound => {
                self.step();
                Ok(value)
            },
            _ => Err(Stop::Malformed),
        }
    }

    /// Takes a number of at most 64 bits with the suffix.
    #[tactic(auto, using(crate::proofs::Fronts::past_front_laws))]
    pub fn long(&mut self) -> Result<u64, Stop>
        ensures { Tells result self.new (long_taken self.old) }
    {
        match self.long_value() {
            Some(value) => {
                self.step();
                Ok(value)
            },
            None => Err(Stop::Malformed),
        }
    }

    /// Takes just this number with the suffix.
    #[tactic(auto, using(crate::proofs::Fronts::past_front_laws))]
    pub fn this_long(&mut self, value: u64) -> Result<(), Stop>
        ensures { Tells result self.new ((exactly (long value)).read self.old) }
    {
        match self.long_value() {
            Some(found) if found == value => {
                self.step();
                Ok(())
            },
            _ => Err(Stop::Malformed),
        }
    }

    /// Takes a name that is a variable's.
    #[tactic(auto, using(crate::proofs::Fronts::past_front_laws))]
    pub fn variable(&mut self) -> Result<Var, Stop>
        ensures { Tells result self.new ((name_of var_word var_of).read self.old) }
    {
        let Some(word) = self.name() else {
            return Err(Stop::Malformed);
        };
        match var_of(word) {
            Some(variable) => {
                self.step();
                Ok(variable)
            },
            None => Err(Stop::Malformed),
        }
    }

    /// Takes a name that is a cell's.
    #[tactic(auto, using(crate::proofs::Fronts::past_front_laws))]
    pub fn cell(&mut self) -> Result<u8, Stop>
        ensures { Tells result self.new ((name_of (λ i. var_word (Cell i)) cell_of).read self.old) }
    {
        let Some(word) = self.name() else {
            return Err(Stop::Malformed);
        };
        match cell_of(word) {
            Some(cell) => {
                self.step();
                Ok(cell)
            },
            None => Err(Stop::Malformed),
        }
    }

    /// Takes a sign that is an operator's.
    #[tactic(auto, using(crate::proofs::Fronts::past_front_laws))]
    pub fn operator(&mut self) -> Result<COp, Stop>
        ensures { Tells result self.new ((sign_of op_sign operator_of).read self.old) }
    {
        let Some(bytes) = self.sign_bytes() else {
            return Err(Stop::Malformed);
        };
        match operator_of(bytes) {
            Some(operator) => {
                self.step();
                Ok(operator)
            },
            None => Err(Stop::Malformed),
        }
    }

    /// Takes a name that is a function's.
    #[tactic(auto, using(crate::proofs::Fronts::past_front_laws))]
    pub fn function(&mut self) -> Result<u32, Stop>
        ensures { Tells result self.new ((name_of function_word function_of).read self.old) }
    {
        let Some(word) = self.name() else {
            return Err(Stop::Malformed);
        };
        match function_of(word) {
            Some(entry) => {
                self.step();
                Ok(entry)
            },
            None => Err(Stop::Malformed),
        }
    }

    /// Takes a name that is that of a segment's bytes.
    #[tactic(auto, using(crate::proofs::Fronts::past_front_laws))]
    pub fn segment(&mut self) -> Result<u64, Stop>
        ensures { Tells result self.new ((name_of segment_word segment_of).read self.old) }
    {
        let Some(word) = self.name() else {
            return Err(Stop::Malformed);
        };
        match segment_of(word) {
            Some(place) => {
                self.step();
                Ok(place)
            },
            None => Err(Stop::Malformed),
        }
    }

    /// Takes a name that is a label.
    #[tactic(auto, using(crate::proofs::Fronts::past_front_laws))]
    pub fn label(&mut self) -> Result<Point, Stop>
        ensures { Tells result self.new ((name_of label_word label_of).read self.old) }
    {
        let Some(word) = self.name() else {
            return Err(Stop::Malformed);
        };
        match label_of(word) {
            Some(point) => {
                self.step();
                Ok(point)
            },
            None => Err(Stop::Malformed),
        }
    }
}
