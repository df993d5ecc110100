//! Machines: cells, files, windows, and what each constructor stands for.
use crate::encodings::OperandKind;
use crate::expr::Order;
use crate::names::CellNames;
use crate::template::Template;
use crate::width::Width;
use sqlite_items::Items;

/// The first out, local and in cell of a register window, and how many cells of each it has (1 to 8).
#[derive(Clone, Copy, Debug, PartialEq, Eq)]
pub struct WinShape {
    pub out_first: u8,
    pub local_first: u8,
    pub in_first: u8,
    pub count: u8,
}

/// The bits `lo` to `hi` of a cell, both included.
#[derive(Clone, Copy, Debug, PartialEq, Eq)]
pub struct CellPart {
    pub cell: u8,
    pub lo: u8,
    pub hi: u8,
}

/// A constructor's operands and what it stands for.
#[derive(Debug, Drop)]
pub struct Form {
    pub kinds: Items<OperandKind>,
    pub template: Template,
}

/// A described machine. `forms` stand in the order of the constructors, `types` are those of its encodings.
#[derive(Debug, Drop)]
pub struct Machine {
    pub order: Order,
    /// Whether a load or store at an address that its size does not divide is a stop.
    pub align: bool,
    /// The bytes of a delay slot, where the machine has one.
    pub delay: Option<u8>,
    /// The width of each cell.
    pub widths: Items<Width>,
    /// The cell that is always 0.
    pub zero: Option<u8>,
    pub windows: Option<WinShape>,
    /// Files and views: for each index a part of a cell.
    pub files: Items<Items<CellPart>>,
    pub forms: Items<Form>,
    pub types: Items<Items<u16>>,
    /// The most nodes of one instruction's template, functions and operands expanded.
    pub most_nodes: u32,
}

/// A machine and the names of its cells.
#[derive(Debug, Drop)]
pub struct NamedMachine {
    pub machine: Machine,
    pub names: CellNames,
}
