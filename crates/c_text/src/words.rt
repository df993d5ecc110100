// Words of a text, each with what stands directly behind it, put into a sink.
ghost use Rattle.std.specs.Prelude.{◌≡◌, true, ◌∷◌, [], OnOk, OnErr};
ghost use Rattle.c_text.specs.Gaps.{ends_word, gap_toks, is_gap};
ghost use Rattle.c_text.specs.Atoms.{is_name};
ghost use Rattle.c_text.specs.Output.{Wrote, Broke};
ghost use Rattle.c_text.specs.Tokens.{is_sign, name, sign, plain, long};

use crate::pieces::{put_both, put_bytes, put_decimal};
use edge_io::{Sink, WriteFault};

/// Puts a gap: blanks, line feeds, and signs that stand in no longer one.
pub fn put_gap<K: Sink>(out: &mut K, gap: &[u8]) -> Result<(), WriteFault>
    requires { is_gap gap.now ≡ true }
    ensures wrote { OnOk result (Wrote (K.output out.old) (K.output out.new) (gap_toks gap.now)) }
    ensures broke { OnErr result (Broke (K.output out.old) (K.output out.new) (gap_toks gap.now)) }
{
    put_bytes(out, gap)
}

/// Puts a name.
pub fn put_name<K: Sink>(out: &mut K, letters: &[u8], gap: &[u8]) -> Result<(), WriteFault>
    requires letters { is_name letters.now ≡ true }
    requires gap { ends_word gap.now ≡ true }
    ensures wrote { OnOk result (Wrote (K.output out.old) (K.output out.new) (name letters.now ∷ gap_toks gap.now)) }
    ensures broke { OnErr result (Broke (K.output out.old) (K.output out.new) (name letters.now ∷ gap_toks gap.now)) }
{
    put_both(out, letters, gap)
}

/// Puts a sign and a blank.
pub fn put_sign<K: Sink>(out: &mut K, bytes: &[u8]) -> Result<(), WriteFault>
    requires { is_sign bytes.now ≡ true }
    ensures wrote { OnOk result (Wrote (K.output out.old) (K.output out.new) (sign bytes.now ∷ [])) }
    ensures broke { OnErr result (Broke (K.output out.old) (K.output out.new) (sign bytes.now ∷ [])) }
{
    put_both(out, bytes, b" ")
}

/// Puts a number without a suffix.
pub fn put_plain<K: Sink>(out: &mut K, number: u64, gap: &[u8]) -> Result<(), WriteFault>
    requires { ends_word gap.now ≡ true }
    ensures wrote { OnOk result (Wrote (K.output out.old) (K.output out.new) (plain number ∷ gap_toks gap.now)) }
    ensures broke { OnErr result (Broke (K.output out.old) (K.output out.new) (plain number ∷ gap_toks gap.now)) }
{
    put_decimal(out, number, gap)
}

/// Puts a number with the suffix `ull`.
pub fn put_long<K: Sink>(out: &mut K, number: u64, gap: &[u8]) -> Result<(), WriteFault>
    requires { ends_word gap.now ≡ true }
    ensures wrote { OnOk result (Wrote (K.output out.old) (K.output out.new) (long number ∷ gap_toks gap.now)) }
    ensures broke { OnErr result (Broke (K.output out.old) (K.output out.new) (long number ∷ gap_toks gap.now)) }
{
    put_decimal(out, number, b"ull")?;
    put_bytes(out, gap)
}
