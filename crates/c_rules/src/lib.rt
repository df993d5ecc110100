//! The static rules of a C text, in time that grows with the text: the least item that breaks one, and there the least rule.
#![tactic(auto)]

mod arrays;
mod distinct;
mod functions;
mod parts;
mod rules;
mod scope;
mod spans;

pub use parts::{Array, Parts, Prototype, Routine};
pub use rules::{Broken, static_fault};
