//! Conventions: the executable's kind, stack, heap, services and calls.
use sqlite_items::Items;

/// The cells of a service (number, three arguments, result, error flag) and the numbers that it knows.
#[derive(Clone, Copy, Debug, PartialEq, Eq)]
pub struct ServiceShape {
    pub number: u8,
    pub arg_x: u8,
    pub arg_y: u8,
    pub arg_z: u8,
    pub result: u8,
    /// `None` where an error is a negative result.
    pub error: Option<u8>,
    pub exit: u32,
    pub read: u32,
    pub write: u32,
    pub brk: u32,
    pub fault: u32,
    pub descriptor: u32,
    pub unknown: u32,
}

/// The conventions of an operating system on a machine.
#[derive(Debug, Drop)]
pub struct Conv {
    /// The `e_machine` of its executables (System V ABI, ELF header).
    pub elf: u16,
    /// The cell that holds `stack_base + stack_size - room` at the start.
    pub stack_cell: u8,
    pub stack_base: u32,
    pub stack_size: u32,
    pub room: u32,
    pub heap_base: u32,
    pub heap_size: u32,
    pub service: Option<ServiceShape>,
    /// The cell in which a call leaves the address by which its procedure returns.
    pub link: Option<u8>,
    /// The constructors that make calls, and those that make returns; one in both makes calls.
    pub calls: Items<u16>,
    pub returns: Items<u16>,
    /// Procedures that no call names.
    pub entries: Items<u32>,
    /// Procedures that need every cell.
    pub wholes: Items<u32>,
    /// The constructors that may stand at a return address and be passed over by the return.
    pub pads: Items<u16>,
    /// How far above the first value of the stack cell the block of a program's arguments stands; `None` where
    /// the conventions have no place for it.
    pub args: Option<u32>,
}

/// What a service needs beside its cells, from conventions or from a C text.
#[derive(Clone, Copy, Debug, PartialEq, Eq)]
pub struct Numbers {
    pub exit: u32,
    pub read: u32,
    pub write: u32,
    pub brk: u32,
    pub fault: u32,
    pub descriptor: u32,
    pub unknown: u32,
    pub heap_base: u32,
    pub heap_size: u32,
}
