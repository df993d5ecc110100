//! The graph of a program: all that control can reach.
use crate::block::Block;
use rtl_core::Point;
use sqlite_items::Items;

/// A point that control can reach, with what stands at its address.
#[derive(Debug, Drop)]
pub struct Node {
    pub point: Point,
    pub block: Block,
}

/// A procedure: its entry, and the places of the points of its body among the nodes, ascending.
#[derive(Debug, Drop)]
pub struct Proc {
    pub entry: u32,
    pub body: Items<u32>,
}

/// The targets of the computed plain jump at an address, ascending.
#[derive(Debug, Drop)]
pub struct JumpTable {
    pub at: u32,
    pub targets: Items<u32>,
}

/// A return address at which a pad stands, and the address behind that pad, to which a procedure may return as well.
#[derive(Clone, Copy, Debug, PartialEq, Eq)]
pub struct Pad {
    pub at: u32,
    pub second: u32,
}

/// The points that control can reach, each once and ascending; the procedures, the tables and the pads, each
/// ascending by address.
#[derive(Debug, Drop)]
pub struct Graph {
    pub nodes: Items<Node>,
    pub procs: Items<Proc>,
    pub tables: Items<JumpTable>,
    pub pads: Items<Pad>,
}

/// The cells that a procedure, and all that it calls or enters by a tail jump, may read or assign, and those that
/// they may assign; both ascending.
#[derive(Debug, Drop)]
pub struct Summary {
    pub entry: u32,
    pub refs: Items<u8>,
    pub mods: Items<u8>,
}
