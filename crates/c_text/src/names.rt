// The names of variables, labels, functions and segments, put into a sink.
ghost use Rattle.std.specs.Prelude.{◌≡◌, ◌++◌, true, ◌∷◌, [], OnOk, OnErr};
ghost use Rattle.std.specs.List.{list_all};
ghost use Rattle.std.specs.Fmt.{decimal};
ghost use Rattle.edge_io.specs.Output.{TookPart};
ghost use Rattle.c_text.specs.Atoms.{is_name};
ghost use Rattle.c_text.specs.Gaps.{ends_word, gap_toks};
ghost use Rattle.c_text.specs.Expressions.{var_token};
ghost use Rattle.c_text.specs.Output.{Took, Wrote, Broke};
ghost use Rattle.c_text.specs.Tokens.{is_word, name};
ghost use Rattle.c_text.specs.Words.{slot_word, label_word, function_word, segment_word};

use crate::pieces::{hex_of, put_both, put_bytes};
use crate::words::put_name;
use c_lang::{Point, Slot, Var};
use edge_io::{Sink, WriteFault};
use itoa::Buffer;

/// Puts a name of two pieces.
fn put_joined<K: Sink>(out: &mut K, front: &[u8], back: &[u8], gap: &[u8]) -> Result<(), WriteFault>
    requires front { is_name front.now ≡ true }
    requires back { list_all is_word back.now ≡ true }
    requires gap { ends_word gap.now ≡ true }
    ensures wrote { OnOk result (Wrote (K.output out.old) (K.output out.new) (name (front.now ++ back.now) ∷ gap_toks gap.now)) }
    ensures broke { OnErr result (Broke (K.output out.old) (K.output out.new) (name (front.now ++ back.now) ∷ gap_toks gap.now)) }
{
    put_both(out, front, back)?;
    put_bytes(out, gap)
}

/// Puts a name that ends with a number.
fn put_numbered<K: Sink>(
    out: &mut K,
    front: &[u8],
    number: u64,
    gap: &[u8],
) -> Result<(), WriteFault>
    requires front { is_name front.now ≡ true }
    requires gap { ends_word gap.now ≡ true }
    ensures wrote { OnOk result (Wrote (K.output out.old) (K.output out.new) (name (front.now ++ decimal number) ∷ gap_toks gap.now)) }
    ensures broke { OnErr result (Broke (K.output out.old) (K.output out.new) (name (front.now ++ decimal number) ∷ gap_toks gap.now)) }
{
    let mut buffer = Buffer::new();
    put_joined(out, front, buffer.format(number).as_bytes(), gap)
}

/// Puts the name of a variable.
pub fn put_variable<K: Sink>(out: &mut K, variable: Var, gap: &[u8]) -> Result<(), WriteFault>
    requires { ends_word gap.now ≡ true }
    ensures wrote { OnOk result (Wrote (K.output out.old) (K.output out.new) (var_token variable ∷ gap_toks gap.now)) }
    ensures broke { OnErr result (Broke (K.output out.old) (K.output out.new) (var_token variable ∷ gap_toks gap.now)) }
{
    match variable {
        Var::Ra => put_name(out, b"ra", gap),
        Var::Pt => put_name(out, b"pt", gap),
        Var::Cell(place) => put_numbered(out, b"c", u64::from(place), gap),
        Var::Temp(place) => put_numbered(out, b"t", u64::from(place), gap),
        Var::Result(place) => put_numbered(out, b"q", u64::from(place), gap),
        Var::Wn => put_name(out, b"uq_wn", gap),
        Var::Depth => put_name(out, b"uq_depth", gap),
        Var::ServeR => put_name(out, b"uq_r", gap),
        Var::ServeE => put_name(out, b"uq_e", gap),
    }
}

/// Puts the end of a label.
fn put_slot<K: Sink>(out: &mut K, slot: Slot) -> Result<(), WriteFault>
    ensures took { OnOk result (Took (K.output out.old) (K.output out.new) (slot_word slot)) }
    ensures part { OnErr result (TookPart (K.output out.old) (K.output out.new) (slot_word slot)) }
{
    match slot {
        Slot::Seq => put_bytes(out, b""),
        Slot::To(target) => put_both(out, b"_T_", &hex_of(target)),
        Slot::Dyn(from) => put_both(out, b"_D_", &hex_of(from)),
        Slot::CallTo(target, back) => put_call_slot(out, target, back),
        Slot::CallDyn(back) => put_both(out, b"_E_", &hex_of(back)),
        Slot::Ret => put_bytes(out, b"_R"),
    }
}

/// Puts the end of a label for a call of a constant target.
fn put_call_slot<K: Sink>(out: &mut K, target: u32, back: u32) -> Result<(), WriteFault>
    ensures took { OnOk result (Took (K.output out.old) (K.output out.new) (slot_word (Slot.CallTo target back))) }
    ensures part { OnErr result (TookPart (K.output out.old) (K.output out.new) (slot_word (Slot.CallTo target back))) }
{
    put_both(out, b"_C_", &hex_of(target))?;
    put_both(out, b"_", &hex_of(back))
}

/// Puts the label of a point.
pub fn put_label<K: Sink>(out: &mut K, point: Point, gap: &[u8]) -> Result<(), WriteFault>
    requires { ends_word gap.now ≡ true }
    ensures wrote { OnOk result (Wrote (K.output out.old) (K.output out.new) (name (label_word point) ∷ gap_toks gap.now)) }
    ensures broke { OnErr result (Broke (K.output out.old) (K.output out.new) (name (label_word point) ∷ gap_toks gap.now)) }
{
    put_both(out, b"L_", &hex_of(point.pc))?;
    put_slot(out, point.slot)?;
    put_bytes(out, gap)
}

/// Puts the name of the function of an address.
pub fn put_function<K: Sink>(out: &mut K, entry: u32, gap: &[u8]) -> Result<(), WriteFault>
    requires { ends_word gap.now ≡ true }
    ensures wrote { OnOk result (Wrote (K.output out.old) (K.output out.new) (name (function_word entry) ∷ gap_toks gap.now)) }
    ensures broke { OnErr result (Broke (K.output out.old) (K.output out.new) (name (function_word entry) ∷ gap_toks gap.now)) }
{
    put_joined(out, b"f_", &hex_of(entry), gap)
}

/// Puts the name of a segment's bytes, by the segment's place.
pub fn put_segment<K: Sink>(out: &mut K, place: u64, gap: &[u8]) -> Result<(), WriteFault>
    requires { ends_word gap.now ≡ true }
    ensures wrote { OnOk result (Wrote (K.output out.old) (K.output out.new) (name (segment_word place) ∷ gap_toks gap.now)) }
    ensures broke { OnErr result (Broke (K.output out.old) (K.output out.new) (name (segment_word place) ∷ gap_toks gap.now)) }
{
    put_numbered(out, b"uq_seg_", place, gap)
}
