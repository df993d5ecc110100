//! Register transfers: what one instruction does, one act after another.
use crate::expr::Expr;

/// What a transfer does when its guard allows it.
#[derive(Debug, Drop)]
pub enum Act {
    /// Assigns a cell.
    SetCell(u8, Expr),
    /// Assigns the bits of a cell from the first number to the second, both included.
    SetSlice(u8, u8, u8, Expr),
    /// Stores so many bytes (1, 2, 4 or 8) at an address: the address, then the value.
    Store(u8, Expr, Expr),
    /// Jumps to an address of 32 bits.
    Jump(Expr),
    /// Passes the next instruction over.
    Annul,
    /// Ends the run with this number of 32 bits.
    Trap(Expr),
    /// Calls the service of the operating system.
    Service,
    /// Enters a new register window.
    WinSave,
    /// Goes back to the window before.
    WinRestore,
}

/// An act, with the condition of 1 bit under which it is done; without one it is always done.
#[derive(Debug, Drop)]
pub struct Transfer {
    pub guard: Option<Expr>,
    pub act: Act,
}
