//! The statements of one instruction.
#![tactic(auto)]

ghost use Rattle.c_lower.specs.GroundBound.{AllWithin, AllInstructionsLowered};
ghost use Rattle.c_lower.specs.Theorem.{AllLowered, AllNamed};

mod expression;
mod formulas;
mod instruction;
mod operations;
mod temporary_count;
mod window_moves;

pub use c_lang::Stmt;
pub use expression::cell;
pub use instruction::{lower, set_cell};
pub use temporary_count::temporaries;

/// The law of lowering: on every machine with sound widths and windows, the statements of sound transfers do
/// what the transfers do, from any state that shows the machine, and within four steps a node and 46 more.
pub fn lowering_law()
    ensures { AllLowered }
{}

/// The cells that are named may be all cells but the zero cell.
pub fn naming_law()
    ensures { AllNamed }
{}

/// The bounds of an instruction of a sound machine, in the numbers of the machine.
pub fn bound_law()
    ensures { AllWithin }
{}

/// Every instruction of a sound machine is lowered.
pub fn instruction_law()
    ensures { AllInstructionsLowered }
{}
