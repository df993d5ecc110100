//! Descriptions of instructions: the checks of their lines, and the machine that they describe.
#![tactic(auto)]

mod building;
mod constructors;
mod faults;
mod given;
mod giving;
mod known;
mod last_checks;
mod limits;
mod lines;
mod machine;
mod normal;
mod noting;
mod once;
mod own;
mod ranges;
mod stands;
mod templates;
mod widths;

ghost use Rattle.std.specs.Prelude.{◌≡◌, ◌≢◌, All, true, Ok, Err, IfOk, IfErr};
ghost use Rattle.ssl_syntax.specs.Texts.{is_line};
ghost use Rattle.rtl_core.specs.SoundEncodings.{IsSoundEncodings};
ghost use Rattle.rtl_core.specs.SoundMachine.{AreSound, NamesItsCells};
ghost use Rattle.ssl_rules.specs.Machines.{normal};

use normal::machine_or_fault;
use rtl_core::{Encodings, NamedMachine};
pub use ssl_rules::SslFault;
use ssl_syntax::SslLine;
use std::alloc::Global;

/// The machine that the lines of a description of instructions give over these encodings, with the names of its cells,
/// or their first fault: that of the first line that has one, and on it the one that stands first in `SslFault`.
/// `Missing` comes only where no line has a fault. `NoMemory` may come in place of any answer.
pub fn normal_ssl(
    alloc: Global,
    lines: &[SslLine],
    enc: &Encodings,
) -> Result<NamedMachine, SslFault>
    requires sound { IsSoundEncodings enc.now }
    requires values { All (λ line. is_line line ≡ true) lines.now }
    ensures value { IfOk result (λ named. normal enc.now lines.now ≡ Ok named) }
    ensures fault { IfErr result (λ f. f ≢ SslFault.NoMemory → normal enc.now lines.now ≡ Err f) }
    ensures sound { IfOk result (λ named. AreSound enc.now named.machine) }
    ensures names { IfOk result NamesItsCells }
{
    machine_or_fault(alloc, lines, enc)
}
