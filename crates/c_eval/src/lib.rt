//! One step of the C text, by a plain program over any memory.
#![tactic(auto)]

pub mod calls;
pub mod copy;
pub mod ends;
pub mod evaluating;
pub mod expressions;
pub mod one_step;
pub mod places;
pub mod services;
pub mod state;
pub mod statements;
pub mod vars;

pub use one_step::plain_step;
pub use state::{PlainFrame, PlainPlace, PlainState, Setting, Taken, Way, Word};
