//! What is wrong with a description.
use conventions::ConvFault;
use sled_rules::SledFault;
use ssl_rules::SslFault;
use text_lex::LexFault;

/// What is wrong with one of the three texts.
#[derive(Clone, Copy, Debug, PartialEq, Eq)]
pub enum DescFault {
    /// Its bytes or lines.
    Lex(LexFault),
    /// The logical line that begins at this physical line is of no form; none before it is.
    BadLine { line: u32 },
    /// A check of the description of encodings.
    Sled(SledFault),
    /// A check of the description of instructions.
    Ssl(SslFault),
    /// A check of the convention file.
    Conv(ConvFault),
}

/// Why three texts describe no machine: the first text with a fault, and its first fault; or memory ran out.
#[derive(Clone, Copy, Debug, PartialEq, Eq)]
pub enum Undescribed {
    /// The description of encodings has it.
    Sled(DescFault),
    /// The description of instructions has it, and that of encodings has none.
    Ssl(DescFault),
    /// The convention file has it, and the others have none.
    Conv(DescFault),
    NoMemory,
}

/// What stopped the reading of one text.
#[derive(Clone, Copy, Debug)]
pub(crate) enum OneStop {
    Fault(DescFault),
    NoMemory,
}
