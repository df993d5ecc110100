//! What names stand for.
use crate::formula::Formula;
use crate::name_table::NameTable;
use rtl_core::{CellNames, CellPart, Width};
use sqlite_items::Items;

/// What a name that an earlier line gives stands for, by its number.
#[derive(Clone, Copy, Debug, PartialEq, Eq)]
pub enum Meaning {
    Cell(u8),
    /// A file of cells.
    Cells(u16),
    /// A view, which is numbered among the files.
    View(u16),
    Function(u16),
}

/// What the constructors of a type stand for: the width, whether each is a place, and the most nodes of one, read
/// and assigned.
#[derive(Clone, Copy, Debug, PartialEq, Eq)]
pub struct Stands {
    pub width: u8,
    pub place: bool,
    pub read: u32,
    pub assigned: u32,
}

/// What a name of the line itself stands for: an operand, by its place, or a parameter, by its place and width.
#[derive(Clone, Copy, Debug, PartialEq, Eq)]
pub enum Own {
    Field { operand: u8, width: u8 },
    Typed { operand: u8, stands: Stands },
    Param { place: usize, width: u64 },
}

/// What a name that stands alone in an expression stands for.
#[derive(Clone, Copy, Debug, PartialEq, Eq)]
pub enum Lone {
    Own(Own),
    Cell(u8),
}

/// A function: the widths of its parameters, that of its value, and its body.
#[derive(Drop)]
pub struct Function {
    pub params: Items<u8>,
    pub width: u8,
    pub body: Formula,
}

/// What the lines so far give by names: the names in order, the names of cells, the width of each cell, the parts of
/// each file and view, and the functions.
#[derive(Drop)]
pub struct Tables {
    pub names: NameTable<Meaning>,
    pub cells: CellNames,
    pub widths: Items<Width>,
    pub files: Items<Items<CellPart>>,
    pub functions: Items<Function>,
}
