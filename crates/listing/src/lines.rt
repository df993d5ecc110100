//! The lines of a list, put into a sink.
ghost use Rattle.std.specs.Prelude.{OnOk, OnErr, ◌++◌, ◌∷◌, []};
ghost use Rattle.std.specs.List.{flat_map};
ghost use Rattle.edge_io.specs.Output.{TookPart};
ghost use Rattle.c_text.specs.Output.{Took};
ghost use Rattle.listing.specs.Lists.{proc_line, point_line, table_line};
ghost use Rattle.listing.specs.Words.{word_behind, address_behind};

use crate::pieces::put_bytes;
use crate::words::{Word, put_addresses, put_words};
use edge_io::{Sink, WriteFault};
use points::{JumpTable, Point, Proc, Slot, Summary};

/// Puts a line of words, with addresses behind them.
fn put_line<K: Sink>(
    out: &mut K,
    first: &[u8],
    others: &[Word<'_>],
    addresses: &[u32],
) -> Result<(), WriteFault>
    ensures took { OnOk result (Took (K.output out.old) (K.output out.new) (first.now ++ (flat_map word_behind others.now ++ (flat_map address_behind addresses.now ++ 10 ∷ [])))) }
    ensures part { OnErr result (TookPart (K.output out.old) (K.output out.new) (first.now ++ (flat_map word_behind others.now ++ (flat_map address_behind addresses.now ++ 10 ∷ [])))) }
{
    put_bytes(out, first)?;
    put_words(out, others)?;
    put_addresses(out, addresses)?;
    put_bytes(out, b"\n")
}

/// Puts the line of a procedure.
pub fn put_proc_line<K: Sink>(out: &mut K, proc: &Proc, sum: &Summary) -> Result<(), WriteFault>
    ensures took { OnOk result (Took (K.output out.old) (K.output out.new) (proc_line proc.now sum.now)) }
    ensures part { OnErr result (TookPart (K.output out.old) (K.output out.new) (proc_line proc.now sum.now)) }
{
    put_line(
        out,
        b"proc",
        &[
            Word::Address(proc.entry),
            Word::Letters(b"refs"),
            Word::Cells(sum.refs.as_slice()),
            Word::Letters(b"mods"),
            Word::Cells(sum.mods.as_slice()),
        ],
        &[],
    )
}

/// Puts the line of a point.
pub fn put_point<K: Sink>(out: &mut K, point: Point) -> Result<(), WriteFault>
    ensures took { OnOk result (Took (K.output out.old) (K.output out.new) (point_line point)) }
    ensures part { OnErr result (TookPart (K.output out.old) (K.output out.new) (point_line point)) }
{
    let pc = Word::Address(point.pc);
    match point.slot {
        Slot::Seq => put_line(out, b"point", &[pc, Word::Letters(b"S")], &[]),
        Slot::To(target) => {
            let words = [pc, Word::Letters(b"T"), Word::Address(target)];
            put_line(out, b"point", &words, &[])
        }
        Slot::Dyn(from) => {
            let words = [pc, Word::Letters(b"D"), Word::Address(from)];
            put_line(out, b"point", &words, &[])
        }
        Slot::CallTo(target, back) => {
            let words = [
                pc,
                Word::Letters(b"C"),
                Word::Address(target),
                Word::Address(back),
            ];
            put_line(out, b"point", &words, &[])
        }
        Slot::CallDyn(back) => {
            let words = [pc, Word::Letters(b"E"), Word::Address(back)];
            put_line(out, b"point", &words, &[])
        }
        Slot::Ret => put_line(out, b"point", &[pc, Word::Letters(b"R")], &[]),
    }
}

/// Puts the line of a table.
pub fn put_table<K: Sink>(out: &mut K, table: &JumpTable) -> Result<(), WriteFault>
    ensures took { OnOk result (Took (K.output out.old) (K.output out.new) (table_line table.now)) }
    ensures part { OnErr result (TookPart (K.output out.old) (K.output out.new) (table_line table.now)) }
{
    let targets = table.targets.as_slice();
    let words = [Word::Address(table.at), Word::Count(targets.len())];
    put_line(out, b"table", &words, targets)
}
