//! What one line says, its names resolved to numbers.

/// A line by numbers: of cells, and of constructors in the order of the encodings.
#[derive(Clone, Copy, Debug)]
pub enum Fact {
    Elf(u16),
    Stack(StackArea),
    Heap(Area),
    Service(ServiceCells),
    Exit(u32),
    Read(u32),
    Write(u32),
    Brk(u32),
    Errors(ErrorNumbers),
    Link(u8),
    Call(u16),
    Return(u16),
    Entry(u32),
    Whole(u32),
    Pad(u16),
    Args(u32),
}

/// An area of memory in bytes.
#[derive(Clone, Copy, Debug)]
pub struct Area {
    pub base: u32,
    pub size: u32,
}

/// The stack's cell and area, and the room above the cell's first value.
#[derive(Clone, Copy, Debug)]
pub struct StackArea {
    pub cell: u8,
    pub base: u32,
    pub size: u32,
    pub room: u32,
}

/// The cells of a service.
#[derive(Clone, Copy, Debug)]
pub struct ServiceCells {
    pub number: u8,
    pub arg_x: u8,
    pub arg_y: u8,
    pub arg_z: u8,
    pub result: u8,
    pub error: Option<u8>,
}

/// The numbers of the errors of services.
#[derive(Clone, Copy, Debug)]
pub struct ErrorNumbers {
    pub fault: u32,
    pub descriptor: u32,
    pub unknown: u32,
}
