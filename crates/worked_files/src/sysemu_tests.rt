//! The table of services, over bytes from address 0 on.
ghost use Rattle.std.specs.Prelude.{◌≡◌, [], ◌∷◌, None, IsSome, IfOk};
ghost use Rattle.rtl_core.specs.declared.machine.Machine.{Machine};
ghost use Rattle.rtl_core.specs.SoundConv.{FitsMachine, IsCellIfAny};

use crate::space_tests::range;
use rtl_core::{Cells, Conv, Machine, Order, ServiceShape, Width, copy_out};
use space::Space;
use sqlite_items::Items;
use std::alloc::{AllocError, Global};
use std::test::Fail;
use sysemu::{Served, Streams, serve};

const EXIT: u32 = 1;

const READ: u32 = 3;

const WRITE: u32 = 4;

const BRK: u32 = 45;

const FAULT: u32 = 14;

const DESCRIPTOR: u32 = 9;

const UNKNOWN: u32 = 38;

/// What a service left.
#[derive(Drop)]
struct Outcome {
    end: Served,
    cells: Cells,
    space: Space,
    streams: Streams,
}

/// A machine with five cells of 32 bits and a flag.
fn six_cells(alloc: Global) -> Result<Machine, AllocError>
    ensures { IfOk result (λ m. (m.widths ≡ 32 ∷ 32 ∷ 32 ∷ 32 ∷ 32 ∷ 1 ∷ []) × (m.zero ≡ None) × (m.forms ≡ [])) }
{
    let word = Width::WORD;
    let widths = Items::from_slice(alloc, &[word, word, word, word, word, Width::FLAG])?;
    Ok(Machine {
        order: Order::Big,
        align: true,
        delay: None,
        widths,
        zero: None,
        windows: None,
        files: Items::new(alloc),
        forms: Items::new(alloc),
        types: Items::new(alloc),
        most_nodes: 0,
    })
}

/// The cell of the error flag, where there is one.
fn error_cell(carry: bool) -> Option<u8>
    ensures { (m : Machine) → m.widths ≡ 32 ∷ 32 ∷ 32 ∷ 32 ∷ 32 ∷ 1 ∷ [] → IsCellIfAny m 1 result }
{
    if carry {
        return Some(5);
    }
    None
}

/// Services by the cells 0 to 3, with the result in cell 4, and the error flag in cell 5 or none.
fn conventions(alloc: Global, carry: bool) -> Result<Conv, AllocError>
    ensures service { IfOk result (λ conv. IsSome conv.service) }
    ensures fits { IfOk result (λ conv. (m : Machine) → m.widths ≡ 32 ∷ 32 ∷ 32 ∷ 32 ∷ 32 ∷ 1 ∷ [] → m.zero ≡ None → m.forms ≡ [] → FitsMachine conv m) }
{
    let calls = Items::new(alloc);
    let returns = Items::new(alloc);
    let pads = Items::new(alloc);
    Ok(Conv {
        elf: 2,
        stack_cell: 4,
        stack_base: 0x8000_0000,
        stack_size: 0x1000,
        room: 0,
        heap_base: 0x1000,
        heap_size: 0x2000,
        service: Some(ServiceShape {
            number: 0,
            arg_x: 1,
            arg_y: 2,
            arg_z: 3,
            result: 4,
            error: error_cell(carry),
            exit: EXIT,
            read: READ,
            write: WRITE,
            brk: BRK,
            fault: FAULT,
            descriptor: DESCRIPTOR,
            unknown: UNKNOWN,
        }),
        link: None,
        calls,
        returns,
        entries: Items::new(alloc),
        wholes: Items::new(alloc),
        pads,
        args: None,
    })
}

/// A service's number and arguments, 7 as the result before, and a flag that is set.
fn first_cells(alloc: Global, number: u32, x: u32, y: u32, z: u32) -> Result<Cells, AllocError>
    ensures { IfOk result (λ c. c.values ≡ number ∷ x ∷ y ∷ z ∷ 7 ∷ 1 ∷ []) }
{
    let values = [number as u64, x as u64, y as u64, z as u64, 7, 1];
    Ok(Cells {
        values: Items::from_slice(alloc, &values)?,
    })
}

/// 65,536 dots from address 0 on, all of which may be written.
fn dots(alloc: Global) -> Result<Space, Fail> {
    let bytes = vec![in alloc; b'.'; 0x1_0000]?;
    let range = range(alloc, 0, 0x1_0000, true, &bytes)?;
    let ranges = [range];
    Ok(Space::build(alloc, &ranges)?)
}

/// The service of this number over 65,536 bytes, with five bytes of input and the break at 0x1000.
fn perform(
    alloc: Global,
    carry: bool,
    number: u32,
    x: u32,
    y: u32,
    z: u32,
) -> Result<Outcome, Fail> {
    let machine = six_cells(alloc)?;
    let conv = conventions(alloc, carry)?;
    let mut cells = first_cells(alloc, number, x, y, z)?;
    let mut space = dots(alloc)?;
    let mut streams = Streams::new(alloc, b"hello".as_slice(), conv.heap_base)?;
    Ok(Outcome {
        end: serve(&machine, &conv, &mut cells, &mut space, &mut streams),
        cells,
        space,
        streams,
    })
}

/// Six bytes from an address on, 0 where none is.
fn bytes_at(space: &Space, a: u32) -> [u8; 6] {
    let mut bytes = [0; 6];
    copy_out(space, a, &mut bytes);
    bytes
}

#[test]
fn services_have_these_results(rt: HostRuntime) -> Result<(), Fail> {
    let alloc = rt.alloc();
    for (number, x, y, z, result, pending, rest) in [
        (READ, 0, 16, 3, 3, 0, 2),
        (READ, 0, 16, 9, 5, 0, 0),
        (READ, 0, 0xFFFF_FFFF, 0, 0, 0, 5),
        (WRITE, 1, 16, 4, 4, 4, 5),
        (WRITE, 2, 0xFFFC, 4, 4, 4, 5),
        (WRITE, 1, 0xFFFF_FFFF, 0, 0, 0, 5),
        (WRITE, 1, 0, 65_537, 65_536, 65_536, 5),
    ] {
        for (carry, flag) in [(true, 0), (false, 1)] {
            let left = perform(alloc, carry, number, x, y, z)?;
            assert_eq!(rt; left.end, Served::Go);
            assert_eq!(rt; left.cells.values.get(4).copied(), Some(result));
            assert_eq!(rt; left.cells.values.get(5).copied(), Some(flag));
            assert_eq!(rt; left.streams.pending().len(), pending);
            assert_eq!(rt; left.streams.rest().len(), rest);
        }
    }
    Ok(())
}

#[test]
fn errors_are_a_flag_or_a_negative_result(rt: HostRuntime) -> Result<(), Fail> {
    let alloc = rt.alloc();
    for (number, x, y, z, error, negative) in [
        (READ, 1, 16, 3, DESCRIPTOR, 0xFFFF_FFF7),
        (READ, 0, 0xFFFE, 3, FAULT, 0xFFFF_FFF2),
        (WRITE, 0, 16, 3, DESCRIPTOR, 0xFFFF_FFF7),
        (WRITE, 1, 1, 65_537, FAULT, 0xFFFF_FFF2),
        (99, 0, 0, 0, UNKNOWN, 0xFFFF_FFDA),
    ] {
        for (carry, result) in [(true, u64::from(error)), (false, negative)] {
            let left = perform(alloc, carry, number, x, y, z)?;
            assert_eq!(rt; left.end, Served::Go);
            assert_eq!(rt; left.cells.values.get(4).copied(), Some(result));
            assert_eq!(rt; left.cells.values.get(5).copied(), Some(1));
            assert_eq!(rt; left.streams.pending().len(), 0);
            assert_eq!(rt; left.streams.rest(), b"hello".as_slice());
            assert_eq!(rt; bytes_at(&left.space, 0xFFFE), *b"..\0\0\0\0");
        }
    }
    Ok(())
}

#[test]
fn bytes_are_moved_in_order(rt: HostRuntime) -> Result<(), Fail> {
    let alloc = rt.alloc();
    let read = perform(alloc, true, READ, 0, 1, 3)?;
    assert_eq!(rt; bytes_at(&read.space, 0), *b".hel..");
    assert_eq!(rt; read.streams.rest(), b"lo".as_slice());
    let mut written = perform(alloc, true, WRITE, 1, 0, 3)?;
    assert_eq!(rt; written.streams.pending(), b"...".as_slice());
    written.streams.drained();
    assert_eq!(rt; written.streams.pending().len(), 0);
    Ok(())
}

#[test]
fn the_break_moves_in_the_heap_and_to_its_end(rt: HostRuntime) -> Result<(), Fail> {
    let alloc = rt.alloc();
    for (x, heap_end) in [
        (0xFFF, 0x1000),
        (0x1000, 0x1000),
        (0x1234, 0x1234),
        (0x3000, 0x3000),
        (0x3001, 0x1000),
    ] {
        let left = perform(alloc, true, BRK, x, 0, 0)?;
        assert_eq!(rt;
            left.cells.values.get(4).copied(),
            Some(u64::from(heap_end))
        );
        assert_eq!(rt; left.streams.heap_end(), heap_end);
    }
    Ok(())
}

#[test]
fn an_exit_leaves_all_as_it_is(rt: HostRuntime) -> Result<(), Fail> {
    let left = perform(rt.alloc(), true, EXIT, 42, 0, 0)?;
    assert_eq!(rt; left.end, Served::Exit(42));
    assert_eq!(rt;
        left.cells.values.as_slice(),
        [1, 42, 0, 0, 7, 1].as_slice()
    );
    assert_eq!(rt; left.streams.rest().len(), 5);
    Ok(())
}
