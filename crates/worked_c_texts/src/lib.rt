//! C texts that are read, and the faults of those that are not.
#![tactic(auto)]

#[cfg(test)]
mod fault_tests;
#[cfg(test)]
mod limit_tests;
#[cfg(test)]
mod texts;
