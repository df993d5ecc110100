//! What typed constructors and instructions stand for: expressions with names looked up and calls expanded, and the
//! templates of lines without a fault.
#![tactic(auto)]

mod assigned;
mod copies;
mod counts;
mod expressions;
mod instructions;
mod names;
mod operands;
mod places;
mod values;

pub use assigned::assigned_count;
pub use counts::transfers_count;
pub use expressions::expand;
pub use instructions::instruction_template;
pub use operands::operand_template;
