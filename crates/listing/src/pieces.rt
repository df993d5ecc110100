//! Pieces of bytes, put into a sink.
ghost use Rattle.std.specs.Prelude.{OnOk, OnErr, ◌++◌, ◌∷◌};
ghost use Rattle.std.specs.Fmt.{decimal};
ghost use Rattle.edge_io.specs.Output.{TookPart};
ghost use Rattle.c_text.specs.Output.{Took};
ghost use Rattle.c_text.specs.Words.{hex};

use c_text::hex_of;
use edge_io::{Sink, WriteFault, put_all};
use itoa::Buffer;

/// Puts the bytes.
pub fn put_bytes<K: Sink>(out: &mut K, bytes: &[u8]) -> Result<(), WriteFault>
    ensures took { OnOk result (Took (K.output out.old) (K.output out.new) bytes.now) }
    ensures part { OnErr result (TookPart (K.output out.old) (K.output out.new) bytes.now) }
{
    put_all(out, bytes)
}

/// Puts a number, decimal.
pub fn put_number<K: Sink>(out: &mut K, number: u64) -> Result<(), WriteFault>
    ensures took { OnOk result (Took (K.output out.old) (K.output out.new) (decimal number)) }
    ensures part { OnErr result (TookPart (K.output out.old) (K.output out.new) (decimal number)) }
{
    let mut buffer = Buffer::new();
    put_bytes(out, buffer.format(number).as_bytes())
}

/// Puts the 8 hexadecimal digits of an address.
pub fn put_address<K: Sink>(out: &mut K, address: u32) -> Result<(), WriteFault>
    ensures took { OnOk result (Took (K.output out.old) (K.output out.new) (hex address)) }
    ensures part { OnErr result (TookPart (K.output out.old) (K.output out.new) (hex address)) }
{
    put_bytes(out, &hex_of(address))
}
