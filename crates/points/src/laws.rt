//! Laws of sound descriptions: what is matched grounds and has 1 to 32 bytes, a service that is due has a shape,
//! constant targets have one value, and tables are looked up by their jumps alone.
ghost use Rattle.points.specs.ConstantTargets.{ConstantsHaveValues, TargetsAreAddresses, TargetsAreValues};
ghost use Rattle.points.specs.ControlLaws.{CodeIsControl, NoJumpWaitsForItself};
ghost use Rattle.points.specs.MatchLengths.{MatchesHaveLength, NextIsBehind, SecondIsBehind};
ghost use Rattle.points.specs.MatchesGround.{GroundsExactly, MatchesGround};
ghost use Rattle.points.specs.ServicesHaveShape.{CallsHaveShape, DueHaveShape};

/// An instruction grounds exactly where its constructor stands for transfers and its numbers spell the
/// constructor's operands, at any address and with any address behind it.
pub fn grounds_exactly()
    ensures { GroundsExactly }
{}

/// On sound encodings and a sound machine of one kind, every match grounds, at any address and with any
/// address behind it.
pub fn matches_ground()
    ensures { MatchesGround }
{}

/// The conventions of a sound triple have a service where an instruction of the machine calls it.
pub fn calls_have_shape()
    ensures { CallsHaveShape }
{}

/// The conventions of a sound triple have a service where one is due behind an instruction's transfers.
pub fn due_have_shape()
    ensures { DueHaveShape }
{}

/// On sound encodings every match takes 1 to 32 bytes.
pub fn matches_have_length()
    ensures { MatchesHaveLength }
{}

/// On sound encodings the address behind an instruction is 1 to 32 bytes further, modulo 2^32, and so never its own.
pub fn next_is_behind()
    ensures { NextIsBehind }
{}

/// The same of the second return point of a return address.
pub fn second_is_behind()
    ensures { SecondIsBehind }
{}

/// A constant term has the same value over all cells and all memories.
pub fn constants_have_values()
    ensures { ConstantsHaveValues }
{}

/// A constant target is the value of its expression at each moment.
pub fn targets_are_values()
    ensures { TargetsAreValues }
{}

/// A constant target of 32 bits is below 2^32.
pub fn targets_are_addresses()
    ensures { TargetsAreAddresses }
{}

/// Control looks a table up at its own jump with nothing to come, or in the slot behind it, and only the jump leads
/// into that slot.
pub fn code_is_control()
    ensures { CodeIsControl }
{}

/// On sound encodings no body has a point at which the jump waits that stands there itself.
pub fn no_jump_waits_for_itself()
    ensures { NoJumpWaitsForItself }
{}
