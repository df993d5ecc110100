//! The C text: how a program is spelled, and the writer of texts.
#![tactic(auto)]

mod atoms;
mod blocks;
mod expressions;
mod functions;
mod items;
mod names;
mod pieces;
mod statements;
mod words;
mod writer;

pub use pieces::hex_of;
pub use writer::write_c;
