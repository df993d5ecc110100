//! All that the program does, over the files, the input and the sinks that are handed in: from the words of
//! the command line to one answer, whose cause is proved.
#![tactic(auto)]

mod built;
mod checking;
mod input;
mod message;
mod outcome;
mod reading;
mod running;
mod shipping;
mod told;
mod top;
mod translating;

pub use descriptions::DescFault;
pub use outcome::{ExeFault, FileName, Outcome};
pub use top::uqbt_main;

#[cfg(test)]
mod check_tests;
#[cfg(test)]
mod run_tests;
#[cfg(test)]
mod shipping_tests;
#[cfg(test)]
mod tests;
#[cfg(test)]
mod translate_tests;
