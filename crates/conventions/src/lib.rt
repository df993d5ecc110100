//! The convention file: its lines as conventions of a machine, or the first fault.
#![tactic(auto)]

mod areas;
mod checks;
mod fact;
mod fault;
mod instructions;
mod known;
mod normal;
mod said;

pub use conv_syntax::{
    ConvBody, ConvCell, ConvLine, ServiceLine, StackLine, SyntaxFault, read_conv, spell,
};
pub use fault::ConvFault;
pub use normal::normal_conv;
