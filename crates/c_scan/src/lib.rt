//! The tokens of a C text from left to right: whether each byte begins one, and a cursor over those that are left.
#![tactic(auto)]

mod bytes;
mod cursor;
mod front;
mod lexed;
mod names;
mod numbers;
mod stop;

pub use cursor::Cursor;
pub use lexed::first_unlexed;
pub use stop::Stop;
