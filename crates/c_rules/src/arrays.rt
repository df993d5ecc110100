//! The rules of arrays.
ghost use Rattle.std.specs.Prelude.{◌≡◌, ℕ, ◌+◌, ◌<◌, ◌≤◌, ◌&&◌, ◌∷◌, [], ◌==◌, drop, length, IfOk, IfSome, MatchOption, nat_le, option_map};
ghost use Rattle.std.specs.Cmp.Lexicographic.{pointwise};
ghost use Rattle.c_lang.specs.Items.{Machine, Segment, Table, Text, numbered};
ghost use Rattle.c_lang.specs.StaticRules.{broken_by, each_holds, first_broken, heap_range, holds, is_flag, is_table, is_whole, placed, rows, sized, stack_range};
ghost use Rattle.c_rules.specs.Spans.{AreSpans, HasAreas, is_placed, range, row};

use super::parts::Array;
use super::spans::{Span, is_below_end, is_small, lie_apart, share_byte};
use std::alloc::{AllocError, Global};

/// Whether an array has as many numbers as it declares, and some.
fn is_whole(array: &Array) -> bool
    ensures { result ≡ is_whole array.now }
{
    array.declared() == array.numbers().len() as u64 && array.declared() != 0
}

/// Whether these numbers are one 0.
fn is_one_zero(numbers: &[u64]) -> bool
    ensures { result ≡ pointwise (λ m n. m == n) numbers.now (0 ∷ []) }
{
    numbers.len() == 1 && numbers[0] == 0
}

// ---- uq_machine

/// The numbers of `uq_machine`.
const MACHINE_NUMBERS: usize = 14;

/// Whether the array of `uq_machine` has its length, and its flags are flags.
fn is_machine(array: &Array) -> bool
    ensures { (t : Text) → result ≡ sized t (Machine array.now) }
{
    let numbers = array.numbers();
    is_whole(array)
        && numbers.len() == MACHINE_NUMBERS
        && numbers[0] < 2
        && numbers[1] < 2
        && numbers[13] < 2
}

/// The span of the heap.
fn heap_span(machine: &Array) -> Span
    requires { length machine.now.numbers ≡ 14 }
    ensures { range result ≡ heap_range machine.now }
{
    let numbers = machine.numbers();
    Span {
        base: numbers[2],
        len: numbers[3],
    }
}

/// The span of the stack.
fn stack_span(machine: &Array) -> Span
    requires { length machine.now.numbers ≡ 14 }
    ensures { range result ≡ stack_range machine.now }
{
    let numbers = machine.numbers();
    Span {
        base: numbers[4],
        len: numbers[5],
    }
}

/// The longest heap, in bytes.
const MOST_HEAP: u64 = 16777216;

/// The longest stack, in bytes.
const MOST_STACK: u64 = 8388608;

/// Whether the heap and the stack are within their limits, and lie apart below 2^32.
fn are_placed(machine: &Array) -> bool
    requires { length machine.now.numbers ≡ 14 }
    ensures { (t : Text) → result ≡ placed t (Machine machine.now) }
{
    let heap = heap_span(machine);
    let stack = stack_span(machine);
    heap.len <= MOST_HEAP
        && stack.len <= MOST_STACK
        && is_below_end(heap)
        && is_below_end(stack)
        && !share_byte(heap, stack)
}

/// The least rule that `uq_machine` breaks.
pub fn machine_rule(machine: &Array) -> Option<u8>
    ensures { (t : Text) → result ≡ broken_by t (Machine machine.now) }
{
    if !is_machine(machine) {
        return Some(4);
    }
    if !are_placed(machine) {
        return Some(5);
    }
    None
}

// ---- uq_seg_K

/// The first of the segments' arrays that has not as many numbers as it declares, or none.
#[tactic(auto, using(crate::proofs::RuleLaws::item_laws))]
pub fn broken_segment(segments: &[Array]) -> Option<usize>
    ensures first { (t : Text) → (n : ℕ) → first_broken t n (numbered Segment 0 segments.now) ≡ option_map (λ i. (n + i, 4)) result }
    ensures within { IfSome result (λ i. i < length segments.now) }
{
    for (index, segment) in segments.iter().enumerate() {
        if !is_whole(segment) {
            return Some(index);
        }
    }
    None
}

// ---- uq_segs

/// Four numbers of `uq_segs`.
#[derive(Clone, Copy)]
pub struct TableRow {
    base: u64,
    write: u64,
    file: u64,
    len: u64,
}

/// The row that begins at a place, where so many numbers stand behind it.
#[tactic(auto, using(crate::proofs::Spread::row_laws))]
fn row_at(numbers: &[u64], at: usize) -> Option<TableRow>
    requires { at ≤ length numbers.now }
    ensures row { MatchOption result (rows (drop at numbers.now) ≡ []) (λ r. rows (drop at numbers.now) ≡ row r ∷ rows (drop (at + 4) numbers.now)) }
    ensures within { IfSome result (λ _. at + 4 ≤ length numbers.now) }
{
    if numbers.len() - at < 4 {
        return None;
    }
    Some(TableRow {
        base: numbers[at],
        write: numbers[at + 1],
        file: numbers[at + 2],
        len: numbers[at + 3],
    })
}

/// Whether an array may hold the file bytes of a row, and the row's numbers agree.
fn fits(segment: &Array, line: TableRow) -> bool
    ensures { result ≡ (holds segment.now (row line) && is_flag line.write && nat_le line.file line.len) }
{
    let numbers = segment.numbers();
    (line.file == numbers.len() as u64 || (line.file == 0 && is_one_zero(numbers)))
        && line.write < 2
        && line.file <= line.len
}

/// Whether each array has its row.
#[tactic(auto, using(crate::proofs::Spread::fit_laws))]
fn each_fits(segments: &[Array], numbers: &[u64]) -> bool
    ensures { result ≡ each_holds segments.now (rows numbers.now) }
{
    let mut at = 0;
    for segment in segments {
        let Some(row) = row_at(numbers, at) else {
            return false;
        };
        if !fits(segment, row) {
            return false;
        }
        at += 4;
    }
    row_at(numbers, at).is_none()
}

/// Whether `uq_segs` is the table of the segments.
fn is_table(segments: &[Array], table: &Array) -> bool
    ensures { result ≡ is_table segments.now table.now }
{
    let numbers = table.numbers();
    if segments.is_empty() {
        return is_one_zero(numbers);
    }
    numbers.len() % 4 == 0 && numbers.len() / 4 == segments.len() && each_fits(segments, numbers)
}

/// The spans of the rows, or None where one passes 2^32. The error is want of memory.
#[tactic(auto, using(crate::proofs::Spread::added_laws))]
fn row_spans(alloc: Global, numbers: &[u64]) -> Result<Option<Vec<Span>>, AllocError>
    ensures { IfOk result (λ found. AreSpans numbers.now (option_map (λ v. v.items) found)) }
{
    let mut spans = Vec::new(alloc);
    let mut at = 0;
    'more: while let Some(row) = row_at(numbers, at) {
        let span = Span {
            base: row.base,
            len: row.len,
        };
        if !is_below_end(span) {
            return Ok(None);
        }
        spans.push(span)?;
        at += 4;
    }
    Ok(Some(spans))
}

/// Whether the segments are within their limit, and lie apart from each other and from the areas. The error is want of memory.
fn is_placed(alloc: Global, machine: &Array, table: &Array) -> Result<bool, AllocError>
    requires { HasAreas machine.now }
    ensures { IfOk result (λ placed. placed ≡ is_placed machine.now table.now) }
{
    let Some(mut spans) = row_spans(alloc, table.numbers())? else {
        return Ok(false);
    };
    if !is_small(&spans) {
        return Ok(false);
    }
    spans.push(heap_span(machine))?;
    spans.push(stack_span(machine))?;
    Ok(lie_apart(spans))
}

/// The least rule that `uq_segs` breaks. The error is want of memory.
pub fn table_rule(
    alloc: Global,
    machine: &Array,
    segments: &[Array],
    table: &Array,
) -> Result<Option<u8>, AllocError>
    requires { HasAreas machine.now }
    ensures { IfOk result (λ found. (t : Text) → t.machine ≡ machine.now → t.segments ≡ segments.now → found ≡ broken_by t (Table table.now)) }
{
    if !is_whole(table) || !is_table(segments, table) {
        return Ok(Some(4));
    }
    if !is_placed(alloc, machine, table)? {
        return Ok(Some(5));
    }
    Ok(None)
}
