//! Points of a program: an address, and the jump that is still to come.

/// The jump that is still to come at a point; on a machine without delay always `Seq`.
#[derive(Clone, Copy, Debug, PartialEq, Eq, PartialOrd, Ord, Hash)]
pub enum Slot {
    /// None.
    Seq,
    /// To a constant target.
    To(u32),
    /// To a computed target; the address is that of the jump.
    Dyn(u32),
    /// A call of a constant target: the target, then the return address.
    CallTo(u32, u32),
    /// A call of a computed target: the return address.
    CallDyn(u32),
    /// A return.
    Ret,
}

/// An instruction's address, and the jump that is still to come there.
#[derive(Clone, Copy, Debug, PartialEq, Eq, PartialOrd, Ord, Hash)]
pub struct Point {
    pub pc: u32,
    pub slot: Slot,
}
