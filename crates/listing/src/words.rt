//! The words of a line, put into a sink.
ghost use Rattle.std.specs.Prelude.{OnOk, OnErr};
ghost use Rattle.std.specs.List.{flat_map};
ghost use Rattle.edge_io.specs.Output.{TookPart};
ghost use Rattle.c_text.specs.Output.{Took};
ghost use Rattle.listing.specs.Lists.{behind_comma, cells};
ghost use Rattle.listing.specs.Words.{word_text, word_behind, address_behind};

use crate::pieces::{put_address, put_bytes, put_number};
use edge_io::{Sink, WriteFault};

/// A word of a line.
#[derive(Clone, Copy)]
pub enum Word<'a> {
    /// As it is.
    Letters(&'a [u8]),
    Address(u32),
    /// A number, decimal.
    Count(usize),
    /// The numbers of cells, with commas between them.
    Cells(&'a [u8]),
}

/// Puts a number behind a comma.
fn put_behind_comma<K: Sink>(out: &mut K, cell: u8) -> Result<(), WriteFault>
    ensures took { OnOk result (Took (K.output out.old) (K.output out.new) (behind_comma cell)) }
    ensures part { OnErr result (TookPart (K.output out.old) (K.output out.new) (behind_comma cell)) }
{
    put_bytes(out, b",")?;
    put_number(out, cell as u64)
}

/// Puts numbers, each behind a comma.
fn put_more_cells<K: Sink>(out: &mut K, more: &[u8]) -> Result<(), WriteFault>
    ensures took { OnOk result (Took (K.output out.old) (K.output out.new) (flat_map behind_comma more.now)) }
    ensures part { OnErr result (TookPart (K.output out.old) (K.output out.new) (flat_map behind_comma more.now)) }
{
    for cell in more {
        put_behind_comma(out, *cell)?;
    }
    Ok(())
}

/// Puts the numbers of cells, or a dash.
fn put_cells<K: Sink>(out: &mut K, numbers: &[u8]) -> Result<(), WriteFault>
    ensures took { OnOk result (Took (K.output out.old) (K.output out.new) (cells numbers.now)) }
    ensures part { OnErr result (TookPart (K.output out.old) (K.output out.new) (cells numbers.now)) }
{
    let Some((first, more)) = numbers.split_first() else {
        return put_bytes(out, b"-");
    };
    put_number(out, *first as u64)?;
    put_more_cells(out, more)
}

/// Puts a word.
fn put_word<K: Sink>(out: &mut K, word: &Word<'_>) -> Result<(), WriteFault>
    ensures took { OnOk result (Took (K.output out.old) (K.output out.new) (word_text word.now)) }
    ensures part { OnErr result (TookPart (K.output out.old) (K.output out.new) (word_text word.now)) }
{
    match word {
        Word::Letters(letters) => put_bytes(out, letters),
        Word::Address(address) => put_address(out, *address),
        Word::Count(count) => put_number(out, *count as u64),
        Word::Cells(numbers) => put_cells(out, numbers),
    }
}

/// Puts a word behind a blank.
fn put_word_behind<K: Sink>(out: &mut K, word: &Word<'_>) -> Result<(), WriteFault>
    ensures took { OnOk result (Took (K.output out.old) (K.output out.new) (word_behind word.now)) }
    ensures part { OnErr result (TookPart (K.output out.old) (K.output out.new) (word_behind word.now)) }
{
    put_bytes(out, b" ")?;
    put_word(out, word)
}

/// Puts words, each behind a blank.
pub fn put_words<K: Sink>(out: &mut K, words: &[Word<'_>]) -> Result<(), WriteFault>
    ensures took { OnOk result (Took (K.output out.old) (K.output out.new) (flat_map word_behind words.now)) }
    ensures part { OnErr result (TookPart (K.output out.old) (K.output out.new) (flat_map word_behind words.now)) }
{
    for word in words {
        put_word_behind(out, word)?;
    }
    Ok(())
}

/// Puts an address behind a blank.
fn put_address_behind<K: Sink>(out: &mut K, address: u32) -> Result<(), WriteFault>
    ensures took { OnOk result (Took (K.output out.old) (K.output out.new) (address_behind address)) }
    ensures part { OnErr result (TookPart (K.output out.old) (K.output out.new) (address_behind address)) }
{
    put_bytes(out, b" ")?;
    put_address(out, address)
}

/// Puts addresses, each behind a blank.
pub fn put_addresses<K: Sink>(out: &mut K, addresses: &[u32]) -> Result<(), WriteFault>
    ensures took { OnOk result (Took (K.output out.old) (K.output out.new) (flat_map address_behind addresses.now)) }
    ensures part { OnErr result (TookPart (K.output out.old) (K.output out.new) (flat_map address_behind addresses.now)) }
{
    for address in addresses {
        put_address_behind(out, *address)?;
    }
    Ok(())
}
