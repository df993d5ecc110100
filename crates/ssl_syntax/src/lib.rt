//! The lines of a description of instructions: a text becomes its line values.
#![tactic(auto)]

mod cells;
mod expression;
mod exprs;
mod files;
mod index;
mod line;
mod lines;
mod lists;
mod operators;
mod reading;
mod spelled_exprs;
mod spelled_lines;
mod spelled_transfers;
mod transfers;
mod words;

pub use expression::{one_spelling, read_expression};
pub use line::{
    CellName, Param, SslAct, SslBody, SslExpr, SslLine, SslPlace, SslTransfer, ViewPart,
};
pub use line_reading::SyntaxFault;
pub use reading::{lines_differ, read_ssl};
pub use spelled_lines::spell;
pub use words::is_free;
