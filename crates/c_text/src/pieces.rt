// Pieces of words, put into a sink.
ghost use Rattle.std.specs.Prelude.{◌≡◌, ◌++◌, ◌%◌, ◌<◌, true, OnOk, OnErr};
ghost use Rattle.std.specs.Fmt.{decimal, digit_glyph};
ghost use Rattle.edge_io.specs.Output.{TookPart};
ghost use Rattle.c_text.specs.Output.{Took};
ghost use Rattle.c_text.specs.Words.{hex};

use edge_io::{Sink, WriteFault, put_all};
use itoa::Buffer;

/// Puts the bytes.
pub fn put_bytes<K: Sink>(out: &mut K, bytes: &[u8]) -> Result<(), WriteFault>
    ensures took { OnOk result (Took (K.output out.old) (K.output out.new) bytes.now) }
    ensures part { OnErr result (TookPart (K.output out.old) (K.output out.new) bytes.now) }
{
    put_all(out, bytes)
}

/// Puts one piece and then another.
pub fn put_both<K: Sink>(out: &mut K, first: &[u8], second: &[u8]) -> Result<(), WriteFault>
    ensures took { OnOk result (Took (K.output out.old) (K.output out.new) (first.now ++ second.now)) }
    ensures part { OnErr result (TookPart (K.output out.old) (K.output out.new) (first.now ++ second.now)) }
{
    put_bytes(out, first)?;
    put_bytes(out, second)
}

/// Puts a number, decimal, and a piece behind it.
pub fn put_decimal<K: Sink>(out: &mut K, number: u64, behind: &[u8]) -> Result<(), WriteFault>
    ensures took { OnOk result (Took (K.output out.old) (K.output out.new) (decimal number ++ behind.now)) }
    ensures part { OnErr result (TookPart (K.output out.old) (K.output out.new) (decimal number ++ behind.now)) }
{
    let mut buffer = Buffer::new();
    put_both(out, buffer.format(number).as_bytes(), behind)
}

/// The upper-case hexadecimal digit of a number below 16.
fn digit(number: u32) -> u8
    requires { number < 16 }
    ensures { result ≡ digit_glyph true number }
{
    let number = number as u8;
    if number < 10 {
        b'0' + number
    } else {
        b'A' + (number - 10)
    }
}

/// The 8 hexadecimal digits of an address.
pub fn hex_of(address: u32) -> [u8; 8]
    ensures { result ≡ hex address }
{
    let mut digits = [b'0'; 8];
    let mut left = address;
    for place in (0..8).rev() {
        digits[place] = digit(left % 16);
        left /= 16;
    }
    digits
}
