//! The three descriptions of a machine: texts become the machine that they describe, or the first fault.
#![tactic(auto)]

mod described;
mod fault;
mod reading;

pub use described::Described;
pub use fault::{DescFault, Undescribed};
pub use reading::read_descriptions;

#[cfg(test)]
mod deep_tests;
#[cfg(test)]
mod form_tests;
#[cfg(test)]
mod spelled_tests;
#[cfg(test)]
mod tests;
