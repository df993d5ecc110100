//! The command `text`.
ghost use Rattle.std.specs.Prelude.{◌≡◌, MatchOption, option_copied};
ghost use Rattle.uqbt_top.specs.Shipping.{TextKeepsOut, TextPut, shipped_text};

use crate::Outcome;
use desc_texts::shipped;
use edge_io::{Sink, Word, put_all};

/// Puts the text that is shipped under a name.
pub fn put_text<K: Sink>(name: &Word, out: &mut K) -> Outcome
    ensures put { MatchOption (shipped_text name.now) (result ≡ Outcome.Usage)
        (λ text. TextPut text (K.output out.old) (K.output out.new) result) }
    ensures refusal { TextKeepsOut result (out.new ≡ out.old) }
{
    match named_text(name.bytes()) {
        Some(text) => match put_all(out, text) {
            Ok(()) => Outcome::Done,
            Err(_) => Outcome::WriteFault,
        },
        None => Outcome::Usage,
    }
}

/// The text that is shipped under a name.
fn named_text(name: &[u8]) -> Option<&'static [u8]>
    ensures { option_copied result ≡ shipped_text name.now }
{
    shipped(name)
}
