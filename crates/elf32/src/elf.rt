//! What is taken from an executable.
use sqlite_items::Items;

/// A part of memory that an executable asks for: its bytes at `base`, and zeros behind them up to `len` bytes.
#[derive(Debug, Drop)]
pub struct Segment {
    /// The number of its program header, counted from 0.
    pub header: u32,
    pub base: u32,
    pub len: u32,
    pub write: bool,
    pub exec: bool,
    pub bytes: Items<u8>,
}

/// An executable as its segments.
#[derive(Debug, Drop)]
pub struct Elf {
    /// The address of the first instruction.
    pub entry: u32,
    /// In the order of the program headers.
    pub segments: Items<Segment>,
    /// The addresses of the functions that its symbol table defines, in the order of the table.
    pub symbols: Items<u32>,
}
