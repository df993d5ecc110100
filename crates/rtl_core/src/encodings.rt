//! Encodings: how instructions lie in bytes.
use crate::expr::Order;
use crate::width::Width;
use sqlite_items::Items;

/// What a place of an operand list holds: a field's number of so many bits, or a constructor of a type.
#[derive(Clone, Copy, Debug, PartialEq, Eq)]
pub enum OperandKind {
    Field(Width),
    Typed(u16),
}

/// A test of the bits `lo` to `hi` of a token, both included: that they are `value`, or that they are not.
#[derive(Clone, Copy, Debug, PartialEq, Eq)]
pub struct Test {
    pub lo: u8,
    pub hi: u8,
    pub equal: bool,
    pub value: u32,
}

/// The bits `lo` to `hi` of a token are the number of this operand.
#[derive(Clone, Copy, Debug, PartialEq, Eq)]
pub struct Bind {
    pub lo: u8,
    pub hi: u8,
    pub operand: u8,
}

/// A constructor of the type `kind` stands at this place; it is this operand.
#[derive(Clone, Copy, Debug, PartialEq, Eq)]
pub struct Typed {
    pub kind: u16,
    pub operand: u8,
}

/// A token of so many bits (8, 16 or 32) with its tests and binds, or a typed operand, or both at one place.
/// Of a typed operand alone `bits` is 0. Where there is one, only its length moves on.
#[derive(Debug, Drop)]
pub struct Item {
    pub bits: u8,
    pub tests: Items<Test>,
    pub binds: Items<Bind>,
    pub typed: Option<Typed>,
}

/// A constructor: its name, its operands, and the alternatives of its pattern, each a list of items.
#[derive(Debug, Drop)]
pub struct Coded {
    pub name: Items<u8>,
    pub kinds: Items<OperandKind>,
    pub alternatives: Items<Items<Item>>,
}

/// All constructors in the order of the text, and for each type the numbers of its constructors, ascending.
/// Type 0 is that of instructions.
#[derive(Debug, Drop)]
pub struct Encodings {
    pub order: Order,
    pub constructors: Items<Coded>,
    pub types: Items<Items<u16>>,
}
