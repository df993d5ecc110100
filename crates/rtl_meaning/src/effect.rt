//! What an instruction did.
use rtl_core::Stop;

/// What the transfers of an instruction did beside cells, memory and windows.
#[derive(Clone, Copy, Debug, PartialEq, Eq)]
pub struct Effect {
    /// The target of its jump, where it jumped.
    pub jump: Option<u32>,
    /// Whether the next instruction is passed over.
    pub annul: bool,
    /// Whether a service is due.
    pub service: bool,
    /// Why the transfers behind were not done, where they were not.
    pub stop: Option<Stop>,
}
