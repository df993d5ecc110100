//! Readers of the items of a text.
ghost use Rattle.std.specs.Prelude.{◌≡◌};
ghost use Rattle.c_text.specs.Tokens.{mark};
ghost use Rattle.c_scan.specs.Readings.{Tells, long_number, number_below};
ghost use Rattle.c_read.specs.Combined.{before, comma_list, comma_rest};
ghost use Rattle.c_read.specs.Pieces.{read_array, read_behind_head, read_main, read_piece, read_typed, read_void, read_words};

use super::functions::{read_body, read_head};
use super::pieces::Piece;
use c_rules::{Array, Prototype};
use c_scan::{Cursor, Stop};
use sqlite_items::Items;
use std::alloc::Global;

/// Numbers of `uq_machine` and `uq_segs` are below this one.
const WORDS: u64 = 1 << 32;

/// Bytes of segments are below this one.
const BYTES: u64 = 256;

/// The return address of the first call, which no address is.
const NO_ADDRESS: u64 = 1 << 32;

/// `, N`
#[tactic(auto, using(crate::proofs::Exits::early_exits))]
fn one_more_number(bound: u64, cursor: &mut Cursor<'_>) -> Result<u64, Stop>
    ensures { Tells result cursor.new ((before (mark ",") (number_below bound)).read cursor.old) }
{
    cursor.sign(b",")?;
    cursor.plain_below(bound)
}

/// `{, N} }`
#[tactic(auto, using(crate::proofs::Exits::early_exits))]
fn more_numbers(alloc: Global, bound: u64, cursor: &mut Cursor<'_>) -> Result<Items<u64>, Stop>
    ensures { Tells result cursor.new ((comma_rest (number_below bound) (mark "}")).read cursor.old) }
{
    let mut numbers = Items::new(alloc);
    'more: while cursor.at_sign(b",") {
        let next = one_more_number(bound, cursor)?;
        numbers.push(next)?;
    }
    cursor.sign(b"}")?;
    Ok(numbers)
}

/// `N {, N} }` or `}`
#[tactic(auto, using(crate::proofs::Exits::early_exits))]
fn read_numbers(alloc: Global, bound: u64, cursor: &mut Cursor<'_>) -> Result<Items<u64>, Stop>
    ensures { Tells result cursor.new ((comma_list (mark "}") (number_below bound)).read cursor.old) }
{
    if cursor.at_sign(b"}") {
        cursor.sign(b"}")?;
        return Ok(Items::new(alloc));
    }
    let first = cursor.plain_below(bound)?;
    let others = more_numbers(alloc, bound, cursor)?;
    let mut numbers = Items::new(alloc);
    numbers.push(first)?;
    numbers.append(others)?;
    Ok(numbers)
}

/// `[N] = { N, .. };` with numbers below a bound.
#[tactic(auto, using(crate::proofs::Exits::early_exits), unfolding(crate::specs::Pieces::read_array))]
fn read_array(alloc: Global, bound: u64, cursor: &mut Cursor<'_>) -> Result<Array, Stop>
    ensures { Tells result cursor.new (read_array bound cursor.old) }
{
    cursor.sign(b"[")?;
    let declared = cursor.plain()?;
    cursor.sign(b"]")?;
    cursor.sign(b"=")?;
    cursor.sign(b"{")?;
    let numbers = read_numbers(alloc, bound, cursor)?;
    cursor.sign(b";")?;
    Ok(Array::new(declared, numbers))
}

/// `uq_machine` or `uq_segs`, and its array.
#[tactic(auto, using(crate::proofs::Exits::early_exits), unfolding(crate::specs::Pieces::read_words))]
fn read_words(alloc: Global, cursor: &mut Cursor<'_>) -> Result<Piece, Stop>
    ensures { Tells result cursor.new (read_words cursor.old) }
{
    if cursor.at_word(b"uq_machine") {
        cursor.word(b"uq_machine")?;
        let array = read_array(alloc, WORDS, cursor)?;
        return Ok(Piece::Machine(array));
    }
    cursor.word(b"uq_segs")?;
    let array = read_array(alloc, WORDS, cursor)?;
    Ok(Piece::Table(array))
}

/// An array behind its first word.
#[tactic(auto, using(crate::proofs::Exits::early_exits), unfolding(crate::specs::Pieces::read_typed))]
fn read_typed(alloc: Global, cursor: &mut Cursor<'_>) -> Result<Piece, Stop>
    ensures { Tells result cursor.new (read_typed cursor.old) }
{
    if cursor.at_word(b"u8") {
        cursor.word(b"u8")?;
        let place = cursor.segment()?;
        let array = read_array(alloc, BYTES, cursor)?;
        return Ok(Piece::Segment(place, array));
    }
    cursor.word(b"u64")?;
    read_words(alloc, cursor)
}

/// A prototype where `;` follows its head, else a function.
#[tactic(auto, using(crate::proofs::Exits::early_exits), unfolding(crate::specs::Pieces::read_behind_head))]
fn read_behind_head(alloc: Global, head: Prototype, cursor: &mut Cursor<'_>) -> Result<Piece, Stop>
    ensures { Tells result cursor.new (read_behind_head head cursor.old) }
{
    if cursor.at_sign(b";") {
        cursor.sign(b";")?;
        return Ok(Piece::Declared(head));
    }
    let function = read_body(alloc, head, cursor)?;
    Ok(Piece::Defined(function))
}

/// `, Null`
#[tactic(auto, using(crate::proofs::Exits::early_exits))]
fn one_more_long(cursor: &mut Cursor<'_>) -> Result<u64, Stop>
    ensures { Tells result cursor.new ((before (mark ",") long_number).read cursor.old) }
{
    cursor.sign(b",")?;
    cursor.long()
}

/// `{, Null} )`
#[tactic(auto, using(crate::proofs::Exits::early_exits))]
fn more_longs(alloc: Global, cursor: &mut Cursor<'_>) -> Result<Items<u64>, Stop>
    ensures { Tells result cursor.new ((comma_rest long_number (mark ")")).read cursor.old) }
{
    let mut numbers = Items::new(alloc);
    'more: while cursor.at_sign(b",") {
        let next = one_more_long(cursor)?;
        numbers.push(next)?;
    }
    cursor.sign(b")")?;
    Ok(numbers)
}

/// `uq_main(void) { f_X(Null, ..); }`
#[tactic(auto, using(crate::proofs::Exits::early_exits), unfolding(crate::specs::Pieces::read_main))]
fn read_main(alloc: Global, cursor: &mut Cursor<'_>) -> Result<Piece, Stop>
    ensures { Tells result cursor.new (read_main cursor.old) }
{
    cursor.word(b"uq_main")?;
    cursor.sign(b"(")?;
    cursor.word(b"void")?;
    cursor.sign(b")")?;
    cursor.sign(b"{")?;
    let entry = cursor.function()?;
    cursor.sign(b"(")?;
    cursor.this_long(NO_ADDRESS)?;
    let first = more_longs(alloc, cursor)?;
    cursor.sign(b";")?;
    cursor.sign(b"}")?;
    Ok(Piece::Main(entry, first))
}

/// `uq_main`, a prototype or a function, behind its first word.
#[tactic(auto, using(crate::proofs::Exits::early_exits), unfolding(crate::specs::Pieces::read_void))]
fn read_void(alloc: Global, cursor: &mut Cursor<'_>) -> Result<Piece, Stop>
    ensures { Tells result cursor.new (read_void cursor.old) }
{
    if cursor.at_word(b"uq_main") {
        return read_main(alloc, cursor);
    }
    let head = read_head(alloc, cursor)?;
    read_behind_head(alloc, head, cursor)
}

/// One item, of whatever kind it is.
#[tactic(auto, using(crate::proofs::Exits::early_exits), unfolding(crate::specs::Pieces::read_piece))]
pub fn read_piece(alloc: Global, cursor: &mut Cursor<'_>) -> Result<Piece, Stop>
    ensures { Tells result cursor.new (read_piece cursor.old) }
{
    if cursor.at_word(b"const") {
        cursor.word(b"const")?;
        return read_typed(alloc, cursor);
    }
    cursor.word(b"void")?;
    read_void(alloc, cursor)
}
