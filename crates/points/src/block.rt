//! What stands at an address, and where control can go from it.
use rtl_core::{GroundInst, Point, Slot};

/// What stands at an address.
#[derive(Debug, Drop)]
pub enum Standing {
    /// No code.
    Outside,
    /// Code that is no instruction.
    Illegal,
    /// An instruction with all put in.
    Stands(GroundInst),
}

/// How an instruction jumps. A target is constant where its expression, once all is put in, has no cell, no load,
/// no division and no remainder; any other is computed. A constructor that the conventions name makes calls or
/// returns; any other makes plain jumps, and so does a call whose delay slot assigns the link cell or restores a
/// window.
#[derive(Clone, Copy, Debug, PartialEq, Eq)]
pub enum JumpKind {
    /// It has no jump.
    Never,
    /// A plain jump to a constant target.
    To(u32),
    /// A plain jump to a computed target.
    Dyn,
    /// A call of a constant target: the target, then the return address.
    CallTo(u32, u32),
    /// A call of a computed target: the return address.
    CallDyn(u32),
    /// A return.
    Ret,
}

/// What stands at an address, with how it jumps.
#[derive(Debug, Drop)]
pub enum Block {
    /// No code.
    Outside,
    /// Code that is no instruction.
    Illegal,
    /// An instruction with all put in, and how it jumps.
    Inst(GroundInst, JumpKind),
}

/// Whether an instruction does something: never, where a guard holds, or each time.
#[derive(Clone, Copy, Debug, PartialEq, Eq)]
pub enum Mode {
    Never,
    Maybe,
    Always,
}

/// Where a step leads once its transfers and its service are done.
#[derive(Clone, Copy, Debug, PartialEq, Eq)]
pub enum Course {
    /// On, at a point.
    On(Point),
    /// The jump that was to come arrives now.
    Arrives(Slot),
    /// A jump or an annul stands where none may.
    Couples,
}

/// What control can do behind a point.
#[derive(Clone, Copy, Debug, PartialEq, Eq)]
pub enum Next {
    /// It goes on at a point of the same body.
    Goes(Point),
    /// A computed plain jump arrives; the address is that of the jump.
    Table(u32),
    /// A call of a constant target arrives: the target, then the return address.
    Calls(u32, u32),
    /// A call of a computed target arrives: the return address.
    CallsAny(u32),
    /// A return arrives.
    Returns,
    /// The run stops, as a jump or an annul stands where none may.
    Couples,
}

/// A member of the call list.
#[derive(Clone, Copy, Debug, PartialEq, Eq)]
pub enum Member {
    /// An open call, with its return address.
    Call(u32),
    /// A procedure that a computed plain jump entered: it returns for the one that jumped.
    Tail,
}
