//! The reader of C texts: the program that a text spells, or its first fault.
#![tactic(auto)]

mod blocks;
mod draft;
mod expressions;
mod fault;
mod functions;
mod items;
mod laws;
mod pieces;
mod program;
mod reader;
mod statements;
mod texts;

pub use fault::CFault;
pub use laws::reads_back;
pub use reader::read_c;
