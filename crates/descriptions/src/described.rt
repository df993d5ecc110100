//! What is described.
use rtl_core::{Conv, Encodings, NamedMachine};

/// A machine: how its instructions are encoded, what they do, and where its programs live and how they call services.
#[derive(Debug, Drop)]
pub struct Described {
    pub encodings: Encodings,
    pub named: NamedMachine,
    pub conv: Conv,
}
