//! Templates: what a constructor stands for, before its operands are put in.
use crate::expr::{Bin, Un};
use crate::width::Width;
use sqlite_items::{Boxed, Items};

/// The forms of `Expr`, and besides an operand, a part of a file that an operand chooses, the address of
/// the instruction and the address behind it.
#[derive(Debug, Drop)]
pub enum TExpr {
    Const(Width, u64),
    Cell(u8),
    Load(u8, Boxed<TExpr>),
    Un(Un, Boxed<TExpr>),
    Bin(Bin, Boxed<TExpr>, Boxed<TExpr>),
    Slice(Boxed<TExpr>, u8, u8),
    Zext(Width, Boxed<TExpr>),
    Sext(Width, Boxed<TExpr>),
    If(Boxed<TExpr>, Boxed<TExpr>, Boxed<TExpr>),
    /// The operand at this place of the operand list.
    Operand(u8),
    /// The part of a file at the index that an operand gives: the file, then the operand.
    FileAt(u16, u8),
    /// The address of the instruction.
    Pc,
    /// The address behind the instruction.
    Next,
}

/// What a template can assign.
#[derive(Debug, Drop)]
pub enum TPlace {
    Cell(u8),
    /// Bits of a cell, from the first number to the second.
    Slice(u8, u8, u8),
    /// So many bytes of memory at an address.
    Memory(u8, TExpr),
    /// The place that a typed operand stands for.
    Operand(u8),
    /// The part of a file at the index that an operand gives.
    FileAt(u16, u8),
}

/// An act over a template's expressions and places.
#[derive(Debug, Drop)]
pub enum TAct {
    Assign(TPlace, TExpr),
    Jump(TExpr),
    Annul,
    Trap(TExpr),
    Service,
    WinSave,
    WinRestore,
}

/// An act over templates, with its guard.
#[derive(Debug, Drop)]
pub struct TTransfer {
    pub guard: Option<TExpr>,
    pub act: TAct,
}

/// What a constructor stands for: a value or a place where it is an operand, the transfers of an instruction.
#[derive(Debug, Drop)]
pub enum Template {
    Value(TExpr),
    Place(TPlace),
    Acts(Items<TTransfer>),
}
