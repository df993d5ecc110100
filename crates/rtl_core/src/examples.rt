//! Worked values of arithmetic and of loads, as theorems.
ghost use Rattle.rtl_core.specs.Examples.{ShiftExamples, RoundingExamples, LeastExamples, OrderExamples, AlignmentExamples, FaultExamples};

/// Does nothing: its contract says what shifts and signed divisions make of some numbers.
pub fn arithmetic_examples()
    ensures shifts { ShiftExamples }
    ensures rounding { RoundingExamples }
    ensures least { LeastExamples }
{}

/// Does nothing: its contract says what some loads answer.
pub fn access_examples()
    ensures orders { OrderExamples }
    ensures alignment { AlignmentExamples }
    ensures faults { FaultExamples }
{}
