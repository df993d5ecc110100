//! A sink in memory that gathers what is put into it, so that many small puts become one large one.
#![tactic(auto)]

mod gather;

pub use gather::Gather;
