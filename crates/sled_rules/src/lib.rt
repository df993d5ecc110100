//! Descriptions of encodings: the checks of their lines, and the normal form of a description, as definitions in
//! `specs/` and computed.
#![tactic(auto)]

mod counting;
mod expanding;
mod facts;
mod fault;
mod known;
mod lines;
mod lists;
mod meaning;
mod names;
mod normal;
mod operands;
mod ranges;
mod sizes;
mod starts;
mod taken;
mod tokens;
mod unknown;

pub use fault::SledFault;
pub use normal::normal_form;
