// The items of a text beside its functions, put into a sink.
ghost use Rattle.std.specs.Prelude.{◌≡◌, true, OnOk, OnErr, [], ◌∷◌, ◌++◌, flat_map, length, map};
ghost use Rattle.c_lang.specs.Items.{Machine, Main, Segment, Table, filled, header_numbers, numbered, or_zero, order_number, segment_array, segment_numbers, table_numbers, whole};
ghost use Rattle.c_text.specs.Expressions.{commas, listed};
ghost use Rattle.c_text.specs.Gaps.{ends_word, gap_toks};
ghost use Rattle.c_text.specs.Items.{item_toks, no_address};
ghost use Rattle.c_text.specs.Output.{Wrote, Broke};
ghost use Rattle.c_text.specs.Tokens.{long, mark, name, plain, word};
ghost use Rattle.c_text.specs.Atoms.{atom_toks, is_name, is_proper};
ghost use Rattle.c_text.specs.Words.{function_word};

use crate::atoms::{Atom, put_atoms};
use crate::words::{put_gap, put_long, put_plain};
use c_lang::{CSeg, Header, Order};
use edge_io::{Sink, WriteFault};

/// The return address of the first call, which is no address.
const NO_ADDRESS: u64 = 0x1_0000_0000;

/// The numbers of `uq_machine`.
fn header_numbers(header: &Header) -> [u64; 14]
    ensures { result ≡ header_numbers header.now }
{
    [
        order_number(header.order),
        u64::from(header.align),
        u64::from(header.heap_base),
        u64::from(header.heap_size),
        u64::from(header.stack_base),
        u64::from(header.stack_size),
        u64::from(header.exit),
        u64::from(header.read),
        u64::from(header.write),
        u64::from(header.brk),
        u64::from(header.fault),
        u64::from(header.descriptor),
        u64::from(header.unknown),
        u64::from(header.carry),
    ]
}

/// 0 for little-endian, 1 for big-endian.
fn order_number(order: Order) -> u64
    ensures { result ≡ order_number order }
{
    match order {
        Order::Little => 0,
        Order::Big => 1,
    }
}

/// The four numbers of a segment in `uq_segs`.
fn segment_numbers(segment: &CSeg) -> [u64; 4]
    ensures { result ≡ segment_numbers segment.now }
{
    [
        u64::from(segment.base),
        u64::from(segment.write),
        segment.bytes.len() as u64,
        u64::from(segment.len),
    ]
}

/// Puts numbers, each with a comma behind it.
fn put_front<K: Sink>(out: &mut K, numbers: &[u64]) -> Result<(), WriteFault>
    ensures wrote { OnOk result (Wrote (K.output out.old) (K.output out.new) (flat_map (λ n. plain n ∷ mark "," ∷ []) numbers.now)) }
    ensures broke { OnErr result (Broke (K.output out.old) (K.output out.new) (flat_map (λ n. plain n ∷ mark "," ∷ []) numbers.now)) }
{
    for number in numbers {
        put_plain(out, *number, b", ")?;
    }
    Ok(())
}

/// Puts numbers with commas between them.
fn put_numbers<K: Sink>(out: &mut K, numbers: &[u64], gap: &[u8]) -> Result<(), WriteFault>
    requires { ends_word gap.now ≡ true }
    ensures wrote { OnOk result (Wrote (K.output out.old) (K.output out.new) (listed (λ n. plain n ∷ []) numbers.now ++ gap_toks gap.now)) }
    ensures broke { OnErr result (Broke (K.output out.old) (K.output out.new) (listed (λ n. plain n ∷ []) numbers.now ++ gap_toks gap.now)) }
{
    let Some((last, front)) = numbers.split_last() else {
        return put_gap(out, gap);
    };
    put_front(out, front)?;
    put_plain(out, *last, gap)
}

/// Puts bytes, each with a comma behind it.
fn put_front_bytes<K: Sink>(out: &mut K, bytes: &[u8]) -> Result<(), WriteFault>
    ensures wrote { OnOk result (Wrote (K.output out.old) (K.output out.new) (flat_map (λ n. plain n ∷ mark "," ∷ []) bytes.now)) }
    ensures broke { OnErr result (Broke (K.output out.old) (K.output out.new) (flat_map (λ n. plain n ∷ mark "," ∷ []) bytes.now)) }
{
    for byte in bytes {
        put_plain(out, *byte as u64, b", ")?;
    }
    Ok(())
}

/// Puts bytes with commas between them, or 0 for no bytes, and the end of their array.
fn put_all_bytes<K: Sink>(out: &mut K, bytes: &[u8]) -> Result<(), WriteFault>
    ensures wrote { OnOk result (Wrote (K.output out.old) (K.output out.new) (listed (λ n. plain n ∷ []) (or_zero bytes.now) ++ mark "}" ∷ mark ";" ∷ [])) }
    ensures broke { OnErr result (Broke (K.output out.old) (K.output out.new) (listed (λ n. plain n ∷ []) (or_zero bytes.now) ++ mark "}" ∷ mark ";" ∷ [])) }
{
    let Some((last, front)) = bytes.split_last() else {
        return put_plain(out, 0, b" };\n");
    };
    put_front_bytes(out, front)?;
    put_plain(out, *last as u64, b" };\n")
}

/// Puts the rows of segments, each number with a comma behind it.
fn put_front_rows<K: Sink>(out: &mut K, segments: &[CSeg]) -> Result<(), WriteFault>
    ensures wrote { OnOk result (Wrote (K.output out.old) (K.output out.new) (flat_map (λ s. listed (λ n. plain n ∷ []) (segment_numbers s) ++ mark "," ∷ []) segments.now)) }
    ensures broke { OnErr result (Broke (K.output out.old) (K.output out.new) (flat_map (λ s. listed (λ n. plain n ∷ []) (segment_numbers s) ++ mark "," ∷ []) segments.now)) }
{
    for segment in segments {
        put_numbers(out, &segment_numbers(segment), b", ")?;
    }
    Ok(())
}

/// Puts the rows of segments, or 0 where there are none, and the end of their array.
fn put_rows<K: Sink>(out: &mut K, segments: &[CSeg]) -> Result<(), WriteFault>
    ensures wrote { OnOk result (Wrote (K.output out.old) (K.output out.new) (listed (λ n. plain n ∷ []) (or_zero (table_numbers segments.now)) ++ mark "}" ∷ mark ";" ∷ [])) }
    ensures broke { OnErr result (Broke (K.output out.old) (K.output out.new) (listed (λ n. plain n ∷ []) (or_zero (table_numbers segments.now)) ++ mark "}" ∷ mark ";" ∷ [])) }
{
    let Some((last, front)) = segments.split_last() else {
        return put_plain(out, 0, b" };\n");
    };
    put_front_rows(out, front)?;
    put_numbers(out, &segment_numbers(last), b" };\n")
}

/// Puts the head of an array of so many numbers; the gap stands behind its name.
fn put_array<'a, K: Sink>(
    out: &mut K,
    of_type: &'a [u8],
    named: Atom<'a>,
    count: u64,
) -> Result<(), WriteFault>
    requires of_type { is_name of_type.now ≡ true }
    requires named { is_proper named ≡ true }
    ensures wrote { OnOk result (Wrote (K.output out.old) (K.output out.new) (word "const" ∷ name of_type.now ∷ (atom_toks named.entry ++ plain count ∷ mark "]" ∷ mark "=" ∷ mark "{" ∷ []))) }
    ensures broke { OnErr result (Broke (K.output out.old) (K.output out.new) (word "const" ∷ name of_type.now ∷ (atom_toks named.entry ++ plain count ∷ mark "]" ∷ mark "=" ∷ mark "{" ∷ []))) }
{
    put_atoms(
        out,
        &[
            Atom::Name(b"const", b" "),
            Atom::Name(of_type, b" "),
            named,
            Atom::Plain(count, b"] "),
            Atom::Sign(b"="),
            Atom::Gap(b"{ "),
        ],
    )
}

/// Puts the array `uq_machine`.
pub fn put_machine<K: Sink>(out: &mut K, header: &Header) -> Result<(), WriteFault>
    ensures wrote { OnOk result (Wrote (K.output out.old) (K.output out.new) (item_toks (Machine (whole (header_numbers header.now))))) }
    ensures broke { OnErr result (Broke (K.output out.old) (K.output out.new) (item_toks (Machine (whole (header_numbers header.now))))) }
{
    put_array(out, b"u64", Atom::Name(b"uq_machine", b"["), 14)?;
    put_numbers(out, &header_numbers(header), b" };\n")
}

/// How many numbers stand for so many bytes.
fn byte_count(bytes: &[u8]) -> u64
    ensures { result ≡ length (or_zero bytes.now) }
{
    if bytes.is_empty() {
        1
    } else {
        bytes.len() as u64
    }
}

/// How many numbers stand for so many segments.
fn row_count(segments: &[CSeg]) -> u64
    ensures { result ≡ length (or_zero (table_numbers segments.now)) }
{
    if segments.is_empty() {
        1
    } else {
        4 * segments.len() as u64
    }
}

/// Puts the array of a segment's bytes.
fn put_segment<K: Sink>(out: &mut K, place: u64, segment: &CSeg) -> Result<(), WriteFault>
    ensures wrote { OnOk result (Wrote (K.output out.old) (K.output out.new) (item_toks (Segment place (segment_array segment.now)))) }
    ensures broke { OnErr result (Broke (K.output out.old) (K.output out.new) (item_toks (Segment place (segment_array segment.now)))) }
{
    let bytes = segment.bytes.as_slice();
    put_array(out, b"u8", Atom::Segment(place, b"["), byte_count(bytes))?;
    put_all_bytes(out, bytes)
}

/// Puts the arrays of the segments' bytes.
pub fn put_segments<K: Sink>(out: &mut K, segments: &[CSeg]) -> Result<(), WriteFault>
    ensures wrote { OnOk result (Wrote (K.output out.old) (K.output out.new) (flat_map item_toks (numbered Segment 0 (map segment_array segments.now)))) }
    ensures broke { OnErr result (Broke (K.output out.old) (K.output out.new) (flat_map item_toks (numbered Segment 0 (map segment_array segments.now)))) }
{
    for place in 0..segments.len() {
        put_segment(out, place as u64, &segments[place])?;
    }
    Ok(())
}

/// Puts the array `uq_segs`.
pub fn put_table<K: Sink>(out: &mut K, segments: &[CSeg]) -> Result<(), WriteFault>
    ensures wrote { OnOk result (Wrote (K.output out.old) (K.output out.new) (item_toks (Table (filled (table_numbers segments.now))))) }
    ensures broke { OnErr result (Broke (K.output out.old) (K.output out.new) (item_toks (Table (filled (table_numbers segments.now))))) }
{
    put_array(
        out,
        b"u64",
        Atom::Name(b"uq_segs", b"["),
        row_count(segments),
    )?;
    put_rows(out, segments)
}

/// Puts arguments of the first call, each with a comma behind it.
fn put_front_values<K: Sink>(out: &mut K, numbers: &[u64]) -> Result<(), WriteFault>
    ensures wrote { OnOk result (Wrote (K.output out.old) (K.output out.new) (flat_map (λ n. long n ∷ mark "," ∷ []) numbers.now)) }
    ensures broke { OnErr result (Broke (K.output out.old) (K.output out.new) (flat_map (λ n. long n ∷ mark "," ∷ []) numbers.now)) }
{
    for number in numbers {
        put_long(out, *number, b", ")?;
    }
    Ok(())
}

/// Puts the arguments of the first call: the return address, and those behind it.
fn put_values<K: Sink>(out: &mut K, numbers: &[u64]) -> Result<(), WriteFault>
    ensures wrote { OnOk result (Wrote (K.output out.old) (K.output out.new) (long no_address ∷ (commas (λ n. long n ∷ []) numbers.now ++ mark ")" ∷ mark ";" ∷ mark "}" ∷ []))) }
    ensures broke { OnErr result (Broke (K.output out.old) (K.output out.new) (long no_address ∷ (commas (λ n. long n ∷ []) numbers.now ++ mark ")" ∷ mark ";" ∷ mark "}" ∷ []))) }
{
    let Some((last, front)) = numbers.split_last() else {
        return put_long(out, NO_ADDRESS, b");\n}\n");
    };
    put_long(out, NO_ADDRESS, b", ")?;
    put_front_values(out, front)?;
    put_long(out, *last, b");\n}\n")
}

/// Puts the function `uq_main` up to the first argument of its call, behind an empty line.
fn put_main_start<K: Sink>(out: &mut K, entry: u32) -> Result<(), WriteFault>
    ensures wrote { OnOk result (Wrote (K.output out.old) (K.output out.new) (word "void" ∷ word "uq_main" ∷ mark "(" ∷ word "void" ∷ mark ")" ∷ mark "{" ∷ name (function_word entry) ∷ mark "(" ∷ [])) }
    ensures broke { OnErr result (Broke (K.output out.old) (K.output out.new) (word "void" ∷ word "uq_main" ∷ mark "(" ∷ word "void" ∷ mark ")" ∷ mark "{" ∷ name (function_word entry) ∷ mark "(" ∷ [])) }
{
    put_atoms(
        out,
        &[
            Atom::Gap(b"\n"),
            Atom::Name(b"void", b" "),
            Atom::Name(b"uq_main", b"("),
            Atom::Name(b"void", b") {\n    "),
            Atom::Function(entry, b"("),
        ],
    )
}

/// Puts the function `uq_main`.
pub fn put_main<K: Sink>(out: &mut K, entry: u32, first: &[u64]) -> Result<(), WriteFault>
    ensures wrote { OnOk result (Wrote (K.output out.old) (K.output out.new) (item_toks (Main entry first.now))) }
    ensures broke { OnErr result (Broke (K.output out.old) (K.output out.new) (item_toks (Main entry first.now))) }
{
    put_main_start(out, entry)?;
    put_values(out, first)
}
