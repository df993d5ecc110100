//! Matching: which instruction stands at the front of bytes, by the encodings of a machine.
#![tactic(auto)]

mod allowed;
mod copies;
mod depth;
mod grow;
mod matched;
mod matcher;
mod pruning;
mod size;
mod slots;
mod split;
mod taking;
mod token;
mod tree;

pub use depth::depth_is_enough;
pub use matched::MatchedInst;
pub use matcher::Matcher;
pub use size::TreeSize;
