//! The lines of a convention file: a text becomes its line values, and a line value its tokens.
#![tactic(auto)]

mod line;
mod lines;
mod reading;
mod spelling;
mod words;

pub use line::{ConvBody, ConvCell, ConvLine, ServiceLine, StackLine};
pub use line_reading::SyntaxFault;
pub use reading::{lines_differ, read_conv};
pub use spelling::spell;

#[cfg(test)]
mod tests;
