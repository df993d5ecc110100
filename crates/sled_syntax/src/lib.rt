//! The lines of a description of encodings: a text becomes its line values.
#![tactic(auto)]

mod line;
mod lines;
mod patterns;
mod reading;
mod spelling;

pub use line::{FieldDef, Part, SledBody, SledItem, SledLine, SledPattern};
pub use line_reading::SyntaxFault;
pub use reading::{lines_differ, read_sled};
pub use spelling::spell;
