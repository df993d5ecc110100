//! What the words of a command line ask for: the nine forms of words, and the numbers in them.
#![tactic(auto)]

mod asked;
mod forms;
mod numbers;

pub use asked::{Command, FileWords, Kind, TextWords};
pub use forms::form_of;
