//! The normal form of a list of lines.
ghost use Rattle.std.specs.Prelude.{◌≡◌, ◌≢◌, Ok, Err, MatchResult};
ghost use Rattle.sled_rules.specs.Normal.{encodings_of, normal};

use crate::fault::SledFault;
use crate::known::{Known, nothing_known};
use crate::lines::take_line;
use rtl_core::{Encodings, Order};
use sled_syntax::SledLine;
use std::alloc::Global;

/// The encodings of what lines give.
fn encodings_of(known: Known) -> Encodings
    ensures { result ≡ encodings_of known }
{
    let Known {
        order,
        names: _,
        fields: _,
        constructors,
        types,
        facts: _,
    } = known;
    Encodings {
        order: order.unwrap_or(Order::Big),
        constructors,
        types: types.into_items(),
    }
}

/// The encodings that the lines of a description give: named patterns put in, and the alternatives of each
/// constructor as lists of items, the leftmost part slowest. Types are numbered by their first constructor, and that of
/// instructions is type 0. Without a line that says it the order is the big one.
///
/// Else the first fault: that of the first line that has one, and on it the one that stands first in `SledFault`.
/// `NoMemory` may come in place of any answer.
pub fn normal_form(alloc: Global, lines: &[SledLine]) -> Result<Encodings, SledFault>
    ensures { MatchResult result (λ enc. normal lines.now ≡ Ok enc) (λ f. f ≢ SledFault.NoMemory → normal lines.now ≡ Err f) }
{
    let mut known = nothing_known(alloc)?;
    for line in lines {
        take_line(alloc, &mut known, line)?;
    }
    Ok(encodings_of(known))
}
