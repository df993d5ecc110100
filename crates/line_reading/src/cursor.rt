ghost use Rattle.std.specs.Prelude.{◌≡◌};
ghost use Rattle.line_reading.specs.Readings.{Told, any_name, begins, begins_name, ending, number, sign, this_name, without, without_name};

use super::stop::Stop;
use sqlite_items::Items;
use std::alloc::Global;
use text_lex::Token;

/// The tokens of a line that are left to read.
#[derive(Clone, Copy, Debug)]
pub struct Cursor<'a> {
    pub rest: &'a [Token],
}

impl<'a> Cursor<'a> {
    /// Goes past a sign, where it is the next token.
    pub fn take_sign(&mut self, index: u8) -> bool
        ensures found { result ≡ begins index self.old.rest.now }
        ensures rest { self.new.rest.now ≡ without index self.old.rest.now }
    {
        if let Some((Token::Sign(found), rest)) = self.rest.split_first() {
            if *found == index {
                self.rest = rest;
                return true;
            }
        }
        false
    }

    /// Goes past a sign.
    pub fn sign(&mut self, index: u8) -> Result<(), Stop>
        ensures { Told result self.new.rest.now (sign index self.old.rest.now) }
    {
        if let Some((Token::Sign(found), rest)) = self.rest.split_first() {
            if *found == index {
                self.rest = rest;
                return Ok(());
            }
        }
        Err(Stop::Malformed)
    }

    /// Nothing is left.
    pub fn end(&mut self) -> Result<(), Stop>
        ensures { Told result self.new.rest.now (ending self.old.rest.now) }
    {
        match self.rest.split_first() {
            None => Ok(()),
            Some(_) => Err(Stop::Malformed),
        }
    }

    /// Goes past a number.
    pub fn number(&mut self) -> Result<u64, Stop>
        ensures { Told result self.new.rest.now (number self.old.rest.now) }
    {
        match self.rest.split_first() {
            Some((Token::Number(value), rest)) => {
                self.rest = rest;
                Ok(*value)
            },
            _ => Err(Stop::Malformed),
        }
    }

    /// Goes past a name.
    pub fn any_name(&mut self, alloc: Global) -> Result<Items<u8>, Stop>
        ensures { Told result self.new.rest.now (any_name self.old.rest.now) }
    {
        match self.rest.split_first() {
            Some((Token::Name(letters), rest)) => {
                self.rest = rest;
                Ok(Items::from_slice(alloc, letters.as_slice())?)
            },
            _ => Err(Stop::Malformed),
        }
    }

    /// Goes past this name, where it is the next token.
    pub fn take_name(&mut self, name: &[u8]) -> bool
        ensures found { result ≡ begins_name name.now self.old.rest.now }
        ensures rest { self.new.rest.now ≡ without_name name.now self.old.rest.now }
    {
        if let Some((Token::Name(letters), rest)) = self.rest.split_first() {
            if letters.as_slice() == name {
                self.rest = rest;
                return true;
            }
        }
        false
    }

    /// Goes past this name.
    pub fn this_name(&mut self, name: &[u8]) -> Result<(), Stop>
        ensures { Told result self.new.rest.now (this_name name.now self.old.rest.now) }
    {
        if let Some((Token::Name(letters), rest)) = self.rest.split_first() {
            if letters.as_slice() == name {
                self.rest = rest;
                return Ok(());
            }
        }
        Err(Stop::Malformed)
    }
}
