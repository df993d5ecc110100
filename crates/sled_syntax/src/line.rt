//! The line values of descriptions of encodings.
ghost use Rattle.sled_syntax.specs.Lines.{is_line, spelled_line};

use super::reading::read_value;
use line_reading::{LineValue, SyntaxFault};
use sqlite_items::Items;
use std::alloc::Global;
use text_lex::LogicalLine;

/// A line of a description of encodings, with the number of its first physical line, counted from 1.
#[derive(Debug, Drop)]
pub struct SledLine {
    pub number: u32,
    pub body: SledBody,
}

impl LineValue for SledLine {
    ghost spelled = { spelled_line };

    ghost formed = { is_line };

    fn read(alloc: Global, line: &LogicalLine) -> Result<SledLine, SyntaxFault> {
        read_value(alloc, line)
    }
}

/// What a line says.
#[derive(Debug, Drop)]
pub enum SledBody {
    /// `order big` or `order little`.
    ByteOrder {
        big: bool,
    },
    /// `fields of TOKEN ( W )` and its fields: a token of so many bits.
    Fields {
        token: Items<u8>,
        width: u64,
        fields: Items<FieldDef>,
    },
    /// `pattern NAME is P`.
    Pattern {
        name: Items<u8>,
        pattern: SledPattern,
    },
    /// `constructor NAME OPS? TYPED? is P`; without a type it is of type instruction.
    Constructor {
        name: Items<u8>,
        ops: Items<Items<u8>>,
        of_type: Option<Items<u8>>,
        pattern: SledPattern,
    },
}

/// `NAME LO : HI`: bits of a token from the first number to the second, bit 0 the least.
#[derive(Debug, Drop)]
pub struct FieldDef {
    pub name: Items<u8>,
    pub lo: u64,
    pub hi: u64,
}

/// Alternatives with `|` between them, each some items with `;` between them.
#[derive(Debug, Drop)]
pub struct SledPattern {
    pub alternatives: Items<Items<SledItem>>,
}

/// Parts with `&` between them, and behind `... &` the name of a typed operand.
#[derive(Debug, Drop)]
pub struct SledItem {
    pub parts: Items<Part>,
    pub rest: Option<Items<u8>>,
}

/// A part of an item.
#[derive(Debug, Drop)]
pub enum Part {
    /// `NAME = NUMBER`.
    Equal(Items<u8>, u64),
    /// `NAME != NUMBER`.
    Differs(Items<u8>, u64),
    /// The name of a field that is an operand, of a pattern, or of a typed operand.
    Lone(Items<u8>),
}
