//! A description of instructions without a fault describes a sound machine.
#![tactic(auto)]

ghost use Rattle.std.specs.Prelude.{◌≡◌, All, List, Option, None, true};
ghost use Rattle.ssl_syntax.specs.declared.line.SslLine.{SslLine};
ghost use Rattle.ssl_syntax.specs.Texts.{is_line};
ghost use Rattle.rtl_core.specs.declared.encodings.Encodings.{Encodings};
ghost use Rattle.rtl_core.specs.SoundEncodings.{IsSoundEncodings};
ghost use Rattle.rtl_core.specs.SoundMachine.{AreSound, NamesItsCells};
ghost use Rattle.ssl_rules.specs.Faults.{fault_of};
ghost use Rattle.ssl_rules.specs.Given.{given_by};
ghost use Rattle.ssl_rules.specs.Machines.{machine_of, named_machine};

/// Lines without a fault describe a machine that is sound, and belongs to the encodings that they describe.
pub fn machine_is_sound()
    ensures { (enc : Encodings) → IsSoundEncodings enc → (lines : List SslLine) → All (λ line. is_line line ≡ true) lines → fault_of enc lines ≡ None
        → AreSound enc (machine_of enc (given_by enc lines)) }
{}

/// Each name of a cell in lines without a fault names cells of their machine.
pub fn names_its_cells()
    ensures { (enc : Encodings) → IsSoundEncodings enc → (lines : List SslLine) → All (λ line. is_line line ≡ true) lines → fault_of enc lines ≡ None
        → NamesItsCells (named_machine enc (given_by enc lines)) }
{}
