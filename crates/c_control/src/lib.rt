//! The C text of a program with all of control, and the theorem that it is the same as the machine.
#![tactic(auto)]

ghost use Rattle.c_control.specs.Frames.{FramesStayRight};
ghost use Rattle.c_control.specs.Programs.{PlannedIsSame};
ghost use Rattle.c_control.specs.Shape.{PlannedHasShape};

/// The C text of a plan is the same as the described machine, on every input: whatever the machine writes within
/// n instructions the C writes within the bound times n + 1 steps, it writes nothing else, is never stuck, and stops
/// exactly when the machine does, with the same stop.
pub fn planned_is_same()
    ensures { PlannedIsSame }
{}

/// The frames of the C text stay right: after any number n of instructions the C comes, within the bound times n + 1
/// steps, to a state that stands for the machine's, or to the same stop with the same output. The function on top is
/// that of the procedure that the machine is in, at the block of its point; one frame below waits for each open call
/// and each tail jump, and agrees with the machine on the cells that it gets but for those that are handed back to it.
pub fn frames_stay_right()
    ensures { FramesStayRight }
{}

/// The C text of a plan has the shape of its procedures: each has a function under its address, whose parameters are
/// exactly the cells that it gets, which begins with the block of its first point and has a block for each point of
/// its body. A block goes on only at a successor of its point or at the further block of the point, but for what stands
/// behind an instruction that always stops the run since it may not stand in that slot.
pub fn planned_has_shape()
    ensures { PlannedHasShape }
{}
