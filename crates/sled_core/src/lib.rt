//! Descriptions of encodings, checked: their normal form, which is sound, or the first fault.
#![tactic(auto)]

ghost use Rattle.std.specs.Prelude.{◌≡◌, ◌≢◌, All, Ok, Err, IfOk, MatchResult};
ghost use Rattle.rtl_core.specs.SoundEncodings.{IsSoundEncodings};
ghost use Rattle.sled_syntax.specs.Lines.{IsSledLine};
ghost use Rattle.sled_rules.specs.Normal.{normal};

use rtl_core::Encodings;
pub use sled_rules::SledFault;
use sled_rules::normal_form;
use sled_syntax::SledLine;
use std::alloc::Global;

/// The encodings that the lines of a description give: named patterns put in, and the alternatives of each
/// constructor as lists of items, the leftmost part slowest. Types are numbered by their first constructor, and that of
/// instructions is type 0. Without a line that says it the order is the big one.
///
/// Else the first fault: that of the first line that has one, and on it the one that stands first in `SledFault`.
/// `NoMemory` may come in place of any answer.
pub fn normal_sled(alloc: Global, lines: &[SledLine]) -> Result<Encodings, SledFault>
    requires { All IsSledLine lines.now }
    ensures exact { MatchResult result (λ enc. normal lines.now ≡ Ok enc) (λ f. f ≢ SledFault.NoMemory → normal lines.now ≡ Err f) }
    ensures sound { IfOk result IsSoundEncodings }
{
    normal_form(alloc, lines)
}
