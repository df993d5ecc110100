//! The C text as trees, and what it does, one step after another.
#![tactic(auto)]

pub mod tree;

pub use rtl_core::{Order, Point, Slot};
pub use tree::{CBlock, CExpr, COp, CSeg, Case, End, Function, Header, Program, Stmt, Var};
