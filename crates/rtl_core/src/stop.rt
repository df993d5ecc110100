//! How runs end.

/// A stop of a run. Numbers are addresses but for `Exit`, `Trap` and `Undefined`.
#[derive(Clone, Copy, Debug, PartialEq, Eq)]
pub enum Stop {
    /// The program's exit status.
    Exit(u32),
    /// No constructor matches the bytes at this address.
    Illegal(u32),
    /// The first byte that is not mapped, or for a store not writable.
    MemoryFault(u32),
    /// A load or store at an address that its size does not divide.
    Misaligned(u32),
    /// A division by 0 in the instruction at this address.
    Divide(u32),
    /// The number of a trap instruction.
    Trap(u32),
    /// A save where 65,536 windows are saved.
    WindowFull,
    /// A restore where none is saved.
    WindowEmpty,
    /// An address at which control stands and that is no code, or a computed target that is neither in its jump's
    /// table nor, where a procedure would be entered, the beginning of one.
    Undiscovered(u32),
    /// A return without an open call, or to an address that is neither the return address of the last one nor its
    /// second return point.
    ReturnMismatch(u32),
    /// A call or a tail jump where the call list has 65,536 members.
    CallDepth,
    /// A jump or an annul in a slot that allows none.
    Couple(u32),
    /// A C text that has no meaning at this item.
    Undefined(u32),
}

/// Why an expression has no value.
#[derive(Clone, Copy, Debug, PartialEq, Eq)]
pub enum Trap {
    /// The first byte that is not mapped, or for a store not writable.
    Memory(u32),
    /// An address that the size does not divide.
    Misaligned(u32),
    /// A division or a remainder by 0.
    Divide,
}

/// What a service answers.
#[derive(Clone, Copy, Debug, PartialEq, Eq)]
pub enum Reply {
    /// The run ends with this status.
    Exit(u32),
    /// The service's result.
    Value(u32),
    /// The error's number.
    Error(u32),
}

/// How a run of some steps ended.
#[derive(Clone, Copy, Debug, PartialEq, Eq)]
pub enum RunEnd {
    Stopped(Stop),
    /// The steps are spent without a stop.
    Spent,
    /// The output could not be written whole.
    WriteFault,
}
