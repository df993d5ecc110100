ghost use Rattle.std.specs.Prelude.{◌≡◌};
ghost use Rattle.text_lex.specs.declared.token.LexFault.TheVariants as faults;

use sqlite_items::Items;
use std::alloc::{AllocError, AllocFailed};
use thiserror::Error;

/// A logical line: a physical line with those that go on with it.
#[derive(Debug, Drop)]
pub struct LogicalLine {
    /// The number of its first physical line, counted from 1.
    pub number: u32,
    pub tokens: Items<Token>,
}

/// A token, the longest at its place.
#[derive(Debug, Drop)]
pub enum Token {
    /// A letter or `_`, then letters, digits and `_`.
    Name(Items<u8>),
    /// Decimal digits, or `0x` and hexadecimal digits: the value, at most 2^64 - 1.
    Number(u64),
    /// The place of a sign in the list of signs, counted from 0.
    Sign(u8),
    /// A number over 2^64 - 1 or directly before a letter or `_`, or a byte that begins no other token.
    Bad,
}

/// What is wrong with a text before its tokens are looked at.
#[derive(Clone, Copy, Debug, PartialEq, Eq, Drop, Error)]
pub enum LexFault {
    /// Outside comments, a byte that is no tab and not in 0x20 to 0x7E, on the physical line of this number.
    #[error("line {line}: a byte that no line may hold")]
    BadByte { line: u32 },
    /// A logical line of more than 65,535 bytes, its joining blanks counted, that begins at this physical line.
    #[error("line {line}: a line of more than 65535 bytes")]
    LongLine { line: u32 },
    /// More than 65,535 logical lines.
    #[error("more than 65535 lines")]
    ManyLines,
    /// Memory ran out.
    #[error("out of memory")]
    NoMemory,
}

impl From<AllocError> for LexFault {
    ghost from_gives = { λ _ made. made ≡ faults.NoMemory };

    fn from(_error: AllocError) -> LexFault {
        LexFault::NoMemory
    }
}

impl<T: Drop> From<AllocFailed<T>> for LexFault {
    ghost from_gives = { λ _ made. made ≡ faults.NoMemory };

    fn from(_error: AllocFailed<T>) -> LexFault {
        LexFault::NoMemory
    }
}
