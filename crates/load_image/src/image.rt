//! What is made of an executable.
use elf32::Segment;
use rtl_core::Frozen;
use space::Range;
use sqlite_items::Items;

/// An executable as it is before its first instruction.
#[derive(Debug, Drop)]
pub struct Image {
    /// The address of the first instruction.
    pub entry: u32,
    /// The addresses of the functions that its symbol table defines, in the order of the table.
    pub symbols: Items<u32>,
    /// What is mapped: the segments in their order, then the heap, then the stack. No two share an address.
    pub ranges: Items<Range>,
    /// The bytes that may not be written, a part for each segment; code where the segment may be executed.
    pub frozen: Frozen,
    /// The segments of the executable, in the order of the program headers.
    pub segments: Items<Segment>,
}
