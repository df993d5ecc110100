//! The lines of a description of instructions as values.
use sqlite_items::{Boxed, Items};

/// A line, with the number of its first physical line, counted from 1.
#[derive(Debug, Drop)]
pub struct SslLine {
    pub number: u32,
    pub body: SslBody,
}

/// What a line says.
#[derive(Debug, Drop)]
pub enum SslBody {
    /// `align yes` or `align no`.
    Align {
        yes: bool,
    },
    /// `delay L`, or `delay no` where there is no number.
    Delay {
        bytes: Option<u64>,
    },
    /// `cell NAME W`.
    Cell {
        name: Items<u8>,
        width: u64,
    },
    /// `cells NAME [ N ] W`.
    Cells {
        name: Items<u8>,
        count: u64,
        width: u64,
    },
    /// `view NAME [ N ] W is REF {, REF}`.
    View {
        name: Items<u8>,
        count: u64,
        width: u64,
        parts: Items<ViewPart>,
    },
    /// `zero CELL`.
    Zero {
        cell: CellName,
    },
    /// `windows CELL CELL CELL N`.
    Windows {
        out_first: CellName,
        local_first: CellName,
        in_first: CellName,
        count: u64,
    },
    /// `function NAME ( PS? ) := E`.
    Function {
        name: Items<u8>,
        params: Items<Param>,
        body: SslExpr,
    },
    /// `operand NAME ( OPS? ) := E`.
    Operand {
        name: Items<u8>,
        ops: Items<Items<u8>>,
        body: SslExpr,
    },
    /// `instruction NAME ( OPS? ) := TS`; no transfers are `none`.
    Instruction {
        name: Items<u8>,
        ops: Items<Items<u8>>,
        transfers: Items<SslTransfer>,
    },
}

/// `NAME` or `NAME [ NUMBER ]`.
#[derive(Debug, Drop)]
pub struct CellName {
    pub name: Items<u8>,
    pub index: Option<u64>,
}

/// A part of a view: a whole cell, or bits of one from the first number to the second.
#[derive(Debug, Drop)]
pub enum ViewPart {
    Whole(CellName),
    Bits(CellName, u64, u64),
}

/// A parameter and its width.
#[derive(Debug, Drop)]
pub struct Param {
    pub name: Items<u8>,
    pub width: u64,
}

/// An act, under a guard where there is one.
#[derive(Debug, Drop)]
pub struct SslTransfer {
    pub guard: Option<SslExpr>,
    pub act: SslAct,
}

/// What a transfer does.
#[derive(Debug, Drop)]
pub enum SslAct {
    /// `* W * PLACE := E`.
    Assign(u64, SslPlace, SslExpr),
    Jump(SslExpr),
    Annul,
    Trap(SslExpr),
    Service,
    WinSave,
    WinRestore,
}

/// What an act can assign.
#[derive(Debug, Drop)]
pub enum SslPlace {
    Named(Items<u8>),
    /// `NAME [ NUMBER ]`.
    At(Items<u8>, u64),
    /// `NAME [ OP ]`.
    AtOp(Items<u8>, Items<u8>),
    /// Bits of a cell from the first number to the second.
    Bits(CellName, u64, u64),
    /// So many bits of memory at an address: 8, 16, 32 or 64.
    Load(u8, SslExpr),
}

/// An expression.
#[derive(Debug, Drop)]
pub enum SslExpr {
    /// A constant and its width.
    Number(u64, u64),
    Named(Items<u8>),
    /// `NAME [ NUMBER ]`.
    At(Items<u8>, u64),
    /// `NAME [ OP ]`.
    AtOp(Items<u8>, Items<u8>),
    /// So many bits of memory at an address: 8, 16, 32 or 64.
    Load(u8, Boxed<SslExpr>),
    Not(Boxed<SslExpr>),
    Neg(Boxed<SslExpr>),
    /// The place of the operator in the list of signs, and its two sides.
    Bin(u8, Boxed<SslExpr>, Boxed<SslExpr>),
    /// Bits from the first number to the second.
    Bits(Boxed<SslExpr>, u64, u64),
    /// With zeros to this width.
    Zext(u64, Boxed<SslExpr>),
    /// With the sign to this width.
    Sext(u64, Boxed<SslExpr>),
    /// The second where the first is not 0, else the third.
    If(Boxed<SslExpr>, Boxed<SslExpr>, Boxed<SslExpr>),
    /// A function and its arguments.
    Call(Items<u8>, Items<SslExpr>),
    Pc,
    Next,
}
