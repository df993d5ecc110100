//! The lines of a convention file as values.
use sqlite_items::Items;

/// A line, with the number of its first physical line, counted from 1.
#[derive(Debug, Drop)]
pub struct ConvLine {
    pub number: u32,
    pub body: ConvBody,
}

/// What a line says. Numbers are as they are written; which of them may stand is no matter of form.
#[derive(Debug, Drop)]
pub enum ConvBody {
    /// `elf N`: the kind of machine in the header of its executables (System V ABI, `e_machine`).
    Elf(u64),
    /// `stack CELL BASE SIZE ROOM`.
    Stack(StackLine),
    /// `heap BASE SIZE`.
    Heap {
        base: u64,
        size: u64,
    },
    /// `service CELL args CELL CELL CELL result CELL error CELL`, or `error negative`.
    Service(ServiceLine),
    /// `exit N`.
    Exit(u64),
    /// `read N`.
    Read(u64),
    /// `write N`.
    Write(u64),
    /// `brk N`.
    Brk(u64),
    /// `errors fault N descriptor N unknown N`.
    Errors {
        fault: u64,
        descriptor: u64,
        unknown: u64,
    },
    /// `link CELL`.
    Link(ConvCell),
    /// `call NAME`.
    Call(Items<u8>),
    /// `return NAME`.
    Return(Items<u8>),
    /// `entry N`.
    Entry(u64),
    /// `whole N`.
    Whole(u64),
    /// `pad NAME`.
    Pad(Items<u8>),
    /// `args OFFSET`.
    Args(u64),
}

/// `NAME` or `NAME [ NUMBER ]`.
#[derive(Debug, Drop)]
pub struct ConvCell {
    pub name: Items<u8>,
    pub index: Option<u64>,
}

/// The cell that points into the stack, the stack's area, and the room above the cell's first value.
#[derive(Debug, Drop)]
pub struct StackLine {
    pub cell: ConvCell,
    pub base: u64,
    pub size: u64,
    pub room: u64,
}

/// The cells of a service.
#[derive(Debug, Drop)]
pub struct ServiceLine {
    pub number: ConvCell,
    pub arg_x: ConvCell,
    pub arg_y: ConvCell,
    pub arg_z: ConvCell,
    pub result: ConvCell,
    /// `None` for `negative`.
    pub error: Option<ConvCell>,
}
