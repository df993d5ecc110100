// A program as a C text, put into a sink.
ghost use Rattle.std.specs.Prelude.{OnOk, OnErr};
ghost use Rattle.c_lang.specs.Spellable.{HasSpelling};
ghost use Rattle.c_text.specs.Items.{program_toks};
ghost use Rattle.c_text.specs.Output.{Wrote, Broke, TookText, TookPartOfText};

use crate::functions::{put_functions, put_prototypes};
use crate::items::{put_machine, put_main, put_segments, put_table};
use crate::pieces::put_bytes;
use c_lang::Program;
use edge_io::{Sink, WriteFault};

/// Puts the items of a program.
fn put_items<K: Sink>(out: &mut K, program: &Program) -> Result<(), WriteFault>
    ensures wrote { OnOk result (Wrote (K.output out.old) (K.output out.new) (program_toks program.now)) }
    ensures broke { OnErr result (Broke (K.output out.old) (K.output out.new) (program_toks program.now)) }
{
    put_machine(out, &program.header)?;
    put_segments(out, program.segments.as_slice())?;
    put_table(out, program.segments.as_slice())?;
    put_prototypes(out, program.functions.as_slice())?;
    put_functions(out, program.functions.as_slice())?;
    put_main(out, program.entry, program.first.as_slice())
}

/// Writes a C text of the program, one item, declaration or statement on a line. It takes no memory.
///
/// Where `out` tells its bytes, what it took is a text that spells the program. After a write fault, which comes only
/// where the count of faults of `out` rose, it is a proper front of such a text.
pub fn write_c<K: Sink>(program: &Program, out: &mut K) -> Result<(), WriteFault>
    requires { HasSpelling program.now }
    ensures text { OnOk result (TookText (K.output out.old) (K.output out.new) program.now) }
    ensures part { OnErr result (TookPartOfText (K.output out.old) (K.output out.new) program.now) }
{
    put_bytes(out, b"#include \"uqbt.h\"\n")?;
    put_items(out, program)
}
