//! The control of described machines, and the machine as a run.
#![tactic(auto)]

mod constants;
mod control;
mod decoding;
mod jumps;
pub mod laws;

ghost use Rattle.points.specs.SmallMachine.{ExitsWithThree, SmallIsSound};

pub mod block;
pub mod graph;

pub use block::{Block, Course, JumpKind, Member, Mode, Next, Standing};
pub use control::{after, annul_mode, course_of, halts, jump_mode, pending, sequential};
pub use decoding::standing_at;
pub use graph::{Graph, JumpTable, Node, Pad, Proc, Summary};
pub use jumps::{block_at, past_slot, second};
pub use rtl_core::{Point, Slot};

/// A program of three instructions, run by the machine's definitions alone.
pub fn small_program_exits()
    ensures { ExitsWithThree }
{}

/// The small machine is sound, so what is asked of sound machines can be met.
pub fn small_machine_is_sound()
    ensures { SmallIsSound }
{}
