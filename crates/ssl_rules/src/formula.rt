//! Expressions with names looked up and calls expanded.
use crate::tables::Stands;
use rtl_core::{Bin, CellPart, Un, Width};
use sqlite_items::Boxed;

/// A part without parts.
#[derive(Clone, Copy)]
pub enum Leaf {
    Const(Width, u64),
    Cell(u8),
    /// Bits of a cell that a file or a view gives.
    Part(CellPart),
    /// An operand whose value is a field's number.
    Field(u8),
    /// An operand that a constructor of a type stands for.
    Typed(u8, Stands),
    /// The part of a file at the index that an operand gives: the file, then the operand.
    FileAt(u16, u8),
    /// The address of the instruction.
    Pc,
    /// The address behind the instruction.
    Next,
}

/// An expression, expanded. Loads are in bytes.
#[derive(Drop)]
pub enum Formula {
    /// The parameter at this place of a function's list.
    Param(usize),
    Leaf(Leaf),
    Load(u8, Boxed<Formula>),
    Un(Un, Boxed<Formula>),
    Bin(Bin, Boxed<Formula>, Boxed<Formula>),
    Slice(Boxed<Formula>, u8, u8),
    Zext(Width, Boxed<Formula>),
    Sext(Width, Boxed<Formula>),
    If(Boxed<Formula>, Boxed<Formula>, Boxed<Formula>),
}
