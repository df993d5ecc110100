//! What control does on worked programs, computed from the definitions alone.
#![tactic(auto)]

ghost use Rattle.worked_control.specs.SmallText.{TextExitsWithThree, SmallBound};
ghost use Rattle.worked_control.specs.WorkedPoints.{AtOnce, FromSeq, FromSlot};
ghost use Rattle.worked_control.specs.WorkedPrograms.{AnnulledJumpPassesSlot, CallListIsFull, CallReturns, ComputedCall, Couples, JumpInSlot, OtherReturnStops, ReturnPastPad, RunsOff, SiblingIsAJump, SlotIsDone, TableLeads, TailReturns, Undelayed, UntakenPassesSlot};
ghost use Rattle.worked_control.specs.WorkedProcedures.{TailsAreProcedures};

/// The instruction in the slot of a jump is done, whether or not the jump is, and after the flag was read.
pub fn slot_is_done()
    ensures { SlotIsDone }
{}

/// A branch that annuls passes its slot over where it is not taken.
pub fn untaken_passes_slot()
    ensures { UntakenPassesSlot }
{}

/// A jump that always annuls passes its slot over.
pub fn annulled_jump_passes_slot()
    ensures { AnnulledJumpPassesSlot }
{}

/// A jump in the slot of a jump: one instruction at the first target, and then the second target.
pub fn jump_in_slot()
    ensures { JumpInSlot }
{}

/// A call, a return or a computed jump shares a slot with no other jump: the stop is `Couple`, with the address of the slot.
pub fn couples_stop()
    ensures { Couples }
{}

/// A call, its slot, the procedure, the slot of its return, and on behind the slot of the call.
pub fn call_returns()
    ensures { CallReturns }
{}

/// A call in whose slot the link is assigned is a plain jump, and the return leads to the first caller.
pub fn sibling_is_a_jump()
    ensures { SiblingIsAJump }
{}

/// A return to another address than that of the last open call stops with `ReturnMismatch`.
pub fn other_return_stops()
    ensures { OtherReturnStops }
{}

/// A procedure may return behind the pad that stands at its return address.
pub fn return_past_pad()
    ensures { ReturnPastPad }
{}

/// A computed call enters a procedure, and stops with `Undiscovered` where none begins.
pub fn computed_call()
    ensures { ComputedCall }
{}

/// A computed jump leads to each target of its table, and stops with `Undiscovered` at any other.
pub fn table_leads()
    ensures { TableLeads }
{}

/// A computed jump without a table enters a procedure that returns to the caller of the one that jumped.
pub fn tail_returns()
    ensures { TailReturns }
{}

/// The call list takes 65,536 members, calls or tail jumps; the next one stops with `CallDepth`, behind its slot.
pub fn call_list_is_full()
    ensures { CallListIsFull }
{}

/// Without slots a jump is done at once, and an annul does nothing.
pub fn undelayed_control()
    ensures { Undelayed }
{}

/// Behind the last instruction the run stops with `Undiscovered`.
pub fn runs_off()
    ensures { RunsOff }
{}

/// All that control can do with nothing to come: a jump goes on into its slot, or arrives where it annuls.
pub fn from_seq()
    ensures { FromSeq }
{}

/// All that control can do in a slot: what was to come arrives, unless a jump or an annul stands there.
pub fn from_slot()
    ensures { FromSlot }
{}

/// All that control can do on a machine without slots: each jump arrives at once.
pub fn at_once()
    ensures { AtOnce }
{}

/// The procedures of the program with a tail jump are exactly those that its entry, its symbol and its call give.
pub fn tails_are_procedures()
    ensures { TailsAreProcedures }
{}

/// A C text of a program of three instructions, run by the definitions of the C text alone.
pub fn small_text_exits()
    ensures { TextExitsWithThree }
{}

/// The bound of the small machine: 5 nodes and 33 cells make 362 steps for an instruction.
pub fn small_bound()
    ensures { SmallBound }
{}
