//! The rules of descriptions of instructions: what each line gives, when it is at fault, and the machine that all
//! lines describe, as definitions in `specs/`; and the tables in which names are looked up.
#![tactic(auto)]

mod acts;
mod fault;
mod formula;
mod growth;
mod line_names;
mod lookups;
mod name_table;
mod operators;
mod tables;
mod widths;

pub use acts::Once;
pub use fault::SslFault;
pub use formula::{Formula, Leaf};
pub use line_names::LineNames;
pub use name_table::NameTable;
pub use operators::operator;
pub use tables::{Function, Lone, Meaning, Own, Stands, Tables};
pub use widths::{Measure, Mismatch};
