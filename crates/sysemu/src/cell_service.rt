//! Services that the cells of a machine ask for.
ghost use Rattle.std.specs.Prelude.{◌≡◌, ◌<◌, ◌^◌, [], length, slice_index, IsSome, IfSome};
ghost use Rattle.rtl_core.specs.declared.conv.ServiceShape.{ServiceShape};
ghost use Rattle.rtl_core.specs.Services.{asked, answered, flagged, error_value as error_result, numbers_of as service_numbers};
ghost use Rattle.rtl_core.specs.SoundConv.{AreServiceCells, FitsMachine};
ghost use Rattle.rtl_core.specs.SoundTerms.{Fit};
ghost use Rattle.rtl_core.specs.Transfers.{put_cell as with_cell};
ghost use Rattle.sysemu.specs.Ends.{end_of};
ghost use Rattle.sysemu.specs.Streams.{world_of, flow_after};

use crate::services::reply;
use crate::streams::Streams;
use rtl_core::{Cells, Conv, Machine, Memory, Numbers, Reply, ServiceShape};

/// How a service left the run.
#[derive(Clone, Copy, Debug, PartialEq, Eq)]
pub enum Served {
    /// The run goes on.
    Go,
    /// It ends with this status.
    Exit(u32),
}

/// Does the service that the cells ask for, and puts its result and its error flag into them.
///
/// What is put into the zero cell is dropped. `Exit` comes exactly where the number is that of exit, and then the cells stay.
pub fn serve<M: Memory>(
    machine: &Machine,
    conv: &Conv,
    cells: &mut Cells,
    mem: &mut M,
    streams: &mut Streams,
) -> Served
    requires whole { M.whole mem.old }
    requires ready { M.ready mem.old }
    requires empty { streams.old.pending ≡ [] }
    requires service { IsSome conv.now.service }
    requires conv { FitsMachine conv.now machine.now }
    requires fit { Fit machine.now cells.old.values }
    ensures end { (s : ServiceShape) → conv.now.service ≡ Some s →
        result ≡ end_of (asked conv.now s cells.old.values (world_of (M.contents mem.old) streams.old)).reply }
    ensures cells { (s : ServiceShape) → conv.now.service ≡ Some s →
        cells.new.values ≡ answered machine.now.zero s (asked conv.now s cells.old.values (world_of (M.contents mem.old) streams.old)).reply cells.old.values }
    ensures memory { (s : ServiceShape) → conv.now.service ≡ Some s →
        M.contents mem.new ≡ (asked conv.now s cells.old.values (world_of (M.contents mem.old) streams.old)).world.memory }
    ensures streams { (s : ServiceShape) → conv.now.service ≡ Some s →
        streams.new ≡ flow_after (asked conv.now s cells.old.values (world_of (M.contents mem.old) streams.old)) }
    ensures whole { M.whole mem.new }
    ensures ready { M.ready mem.new }
    ensures follows { M.follows mem.old mem.new }
{
    let Some(shape) = conv.service else {
        unreachable!()
    };
    serve_shape(machine, conv, &shape, cells, mem, streams)
}

/// The same for cells and numbers of this shape.
fn serve_shape<M: Memory>(
    machine: &Machine,
    conv: &Conv,
    shape: &ServiceShape,
    cells: &mut Cells,
    mem: &mut M,
    streams: &mut Streams,
) -> Served
    requires whole { M.whole mem.old }
    requires ready { M.ready mem.old }
    requires empty { streams.old.pending ≡ [] }
    requires shape { AreServiceCells machine.now shape.now }
    requires fit { Fit machine.now cells.old.values }
    ensures end { result ≡ end_of (asked conv.now shape.now cells.old.values (world_of (M.contents mem.old) streams.old)).reply }
    ensures cells { cells.new.values ≡ answered machine.now.zero shape.now
        (asked conv.now shape.now cells.old.values (world_of (M.contents mem.old) streams.old)).reply cells.old.values }
    ensures memory { M.contents mem.new ≡ (asked conv.now shape.now cells.old.values (world_of (M.contents mem.old) streams.old)).world.memory }
    ensures streams { streams.new ≡ flow_after (asked conv.now shape.now cells.old.values (world_of (M.contents mem.old) streams.old)) }
    ensures whole { M.whole mem.new }
    ensures ready { M.ready mem.new }
    ensures follows { M.follows mem.old mem.new }
{
    let numbers = numbers_of(conv, shape);
    let number = word_of(cells, shape.number);
    let x = word_of(cells, shape.arg_x);
    let y = word_of(cells, shape.arg_y);
    let z = word_of(cells, shape.arg_z);
    let answer = reply(&numbers, number, x, y, z, mem, streams);
    put_answer(machine.zero, shape, answer, cells)
}

/// The numbers of a convention's services.
fn numbers_of(conv: &Conv, shape: &ServiceShape) -> Numbers
    ensures { result ≡ service_numbers conv.now shape.now }
{
    Numbers {
        exit: shape.exit,
        read: shape.read,
        write: shape.write,
        brk: shape.brk,
        fault: shape.fault,
        descriptor: shape.descriptor,
        unknown: shape.unknown,
        heap_base: conv.heap_base,
        heap_size: conv.heap_size,
    }
}

/// The value of a cell of 32 bits.
fn word_of(cells: &Cells, cell: u8) -> u32
    requires there { cell < length cells.now.values }
    requires word { slice_index cells.now.values cell < 2 ^ 32 }
    ensures { result ≡ slice_index cells.now.values cell }
{
    cells.values.as_slice()[usize::from(cell)] as u32
}

/// Puts an answer into the cells: the result, then the error flag; an exit puts nothing.
fn put_answer(zero: Option<u8>, shape: &ServiceShape, answer: Reply, cells: &mut Cells) -> Served
    requires result { shape.now.result < length cells.old.values }
    requires error { IfSome shape.now.error (λ c. c < length cells.old.values) }
    ensures end { result ≡ end_of answer }
    ensures cells { cells.new.values ≡ answered zero shape.now answer cells.old.values }
{
    match answer {
        Reply::Exit(x) => Served::Exit(x),
        Reply::Value(k) => {
            put_result(zero, shape, k, 0, cells);
            Served::Go
        }
        Reply::Error(e) => {
            put_result(zero, shape, error_value(shape.error.is_some(), e), 1, cells);
            Served::Go
        }
    }
}

/// Puts a result into its cell, and an error flag into its cell where there is one.
fn put_result(zero: Option<u8>, shape: &ServiceShape, value: u32, flag: u64, cells: &mut Cells)
    requires result { shape.now.result < length cells.old.values }
    requires error { IfSome shape.now.error (λ c. c < length cells.old.values) }
    ensures { cells.new.values ≡ flagged zero shape.now.error flag (with_cell zero shape.now.result value cells.old.values) }
{
    cells.put(zero, shape.result, u64::from(value));
    if let Some(c) = shape.error {
        cells.put(zero, c, flag);
    }
}

/// An error's number as a result: itself beside an error cell, its negative without one.
fn error_value(carry: bool, e: u32) -> u32
    ensures { result ≡ error_result carry e }
{
    if carry { e } else { 0u32.wrapping_sub(e) }
}
