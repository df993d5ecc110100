//! The nodes of expressions with calls expanded, counted by sums: nothing is expanded before its nodes are few.
#![tactic(auto)]

mod body;
mod expression;

pub use body::few;
pub use expression::node_count;
