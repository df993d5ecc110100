//! The program of a text that keeps the static rules.
ghost use Rattle.std.specs.Prelude.{◌≡◌, ◌+◌, ◌*◌, ◌<◌, ◌≤◌, ◌^◌, IfOk, drop, length, map, take};
ghost use Rattle.c_lang.specs.Items.{filled, header_numbers, order_number, segment_array, segment_numbers, table_numbers};
ghost use Rattle.c_read.specs.Combined.{Each};
ghost use Rattle.c_read.specs.Programs.{AreHeader, AreSegments, IsFile, IsProgramOf, IsSegmentRow, MayBeProgram};

use c_lang::{CSeg, Function, Header, Order, Program};
use c_rules::{Array, Parts, Routine};
use sqlite_items::Items;
use std::alloc::{AllocError, Global};

/// The byte order of this number.
fn order_of(number: u64) -> Order
    requires { number < 2 }
    ensures { order_number result ≡ number }
{
    if number == 0 {
        Order::Little
    } else {
        Order::Big
    }
}

/// The header that the numbers of `uq_machine` are.
#[tactic(auto, using(crate::proofs::HeaderLaws::number_small, crate::proofs::HeaderLaws::flag_small))]
fn header_of(numbers: &[u64]) -> Header
    requires { AreHeader numbers.now }
    ensures { header_numbers result ≡ numbers.now }
{
    Header {
        order: order_of(numbers[0]),
        align: numbers[1] == 1,
        heap_base: numbers[2] as u32,
        heap_size: numbers[3] as u32,
        stack_base: numbers[4] as u32,
        stack_size: numbers[5] as u32,
        exit: numbers[6] as u32,
        read: numbers[7] as u32,
        write: numbers[8] as u32,
        brk: numbers[9] as u32,
        fault: numbers[10] as u32,
        descriptor: numbers[11] as u32,
        unknown: numbers[12] as u32,
        carry: numbers[13] == 1,
    }
}

/// Numbers below 256 as bytes. The error is want of memory.
#[tactic(auto, using(crate::proofs::HeaderLaws::byte_small))]
fn bytes_of(alloc: Global, numbers: &[u64]) -> Result<Items<u8>, AllocError>
    requires { Each (λ n. n < 256) numbers.now }
    ensures { IfOk result (λ bytes. bytes ≡ numbers.now) }
{
    let mut bytes = Items::new(alloc);
    for number in numbers {
        bytes.push(*number as u8)?;
    }
    Ok(bytes)
}

/// The bytes of an array of which so many are of the file. The error is want of memory.
fn file_bytes(alloc: Global, array: &Array, file: u64) -> Result<Items<u8>, AllocError>
    requires { IsFile array.now file }
    ensures array { IfOk result (λ bytes. filled bytes ≡ array.now) }
    ensures file { IfOk result (λ bytes. length bytes ≡ file) }
{
    if file == 0 {
        return Ok(Items::new(alloc));
    }
    bytes_of(alloc, array.numbers())
}

/// The segment of an array and the four numbers of its row. The error is want of memory.
#[tactic(auto, using(crate::proofs::SegmentLaws::row_small))]
fn segment_of(alloc: Global, array: &Array, row: &[u64]) -> Result<CSeg, AllocError>
    requires { IsSegmentRow array.now row.now }
    ensures array { IfOk result (λ s. segment_array s ≡ array.now) }
    ensures row { IfOk result (λ s. segment_numbers s ≡ row.now) }
{
    let bytes = file_bytes(alloc, array, row[2])?;
    Ok(CSeg {
        base: row[0] as u32,
        write: row[1] == 1,
        len: row[3] as u32,
        bytes,
    })
}

/// The numbers of the row of this place.
fn row_of(numbers: &[u64], index: usize) -> &[u64]
    requires { 4 * index + 4 ≤ length numbers.now }
    ensures { result.now ≡ take 4 (drop (4 * index) numbers.now) }
{
    let (_, behind) = numbers.split_at(4 * index);
    let (row, _) = behind.split_at(4);
    row
}

/// The segments of arrays and of their table. The error is want of memory.
fn segments_of(alloc: Global, arrays: &[Array], table: &Array) -> Result<Items<CSeg>, AllocError>
    requires { AreSegments arrays.now table.now }
    ensures arrays { IfOk result (λ ss. map segment_array ss ≡ arrays.now) }
    ensures table { IfOk result (λ ss. filled (table_numbers ss) ≡ table.now) }
{
    let mut segments = Items::new(alloc);
    for index in 0..arrays.len() {
        let row = row_of(table.numbers(), index);
        let segment = segment_of(alloc, &arrays[index], row)?;
        segments.push(segment)?;
    }
    Ok(segments)
}

/// The functions of a program. The error is want of memory.
fn functions_of(alloc: Global, routines: Items<Routine>) -> Result<Items<Function>, AllocError>
    requires { Each (λ f. f.temps < 2 ^ 16) routines }
    ensures { IfOk result (λ fs. fs ≡ routines) }
{
    let mut left = routines;
    let mut functions = Vec::new(alloc);
    'more: while let Some(routine) = left.pop() {
        functions.push(routine.into_function())?;
    }
    functions.reverse();
    Ok(Items::from_vec(functions))
}

/// The program of parts that keep the static rules. The error is want of memory.
pub fn program_of(alloc: Global, parts: Parts) -> Result<Program, AllocError>
    requires { MayBeProgram parts }
    ensures { IfOk result (IsProgramOf parts) }
{
    let Parts {
        machine,
        segments,
        table,
        prototypes: _prototypes,
        functions,
        entry,
        first,
    } = parts;
    let segments = segments_of(alloc, segments.as_slice(), &table)?;
    let functions = functions_of(alloc, functions)?;
    Ok(Program {
        header: header_of(machine.numbers()),
        segments,
        functions,
        entry,
        first,
    })
}
