//! Images of executables, worked by hand.
ghost use Rattle.std.specs.Prelude.{IfOk};
ghost use Rattle.rtl_core.specs.SoundConv.{IsSoundConv};
ghost use Rattle.load_image.specs.Mapped.{AreBuildable};

use elf32::read_elf;
use load_image::{Image, ImageFault, make_image};
use rtl_core::{Conv, Order, byte_at, writable_at};
use space::Space;
use sqlite_items::Items;
use std::alloc::{AllocError, Global};
use std::test::Fail;

/// A big-endian executable of machine 2: a file header, one program header (bytes 52 to 83) and three instructions.
const EXE: &[u8] =
    b"\x7FELF\x01\x02\x01\0\0\0\0\0\0\0\0\0\0\x02\0\x02\0\0\0\x01\0\x01\0\0\0\0\0\x34\0\0\0\0\0\0\0\0\0\x34\0\x20\0\x01\0\0\0\0\0\0\0\0\0\x01\0\0\0\x54\0\x01\0\0\0\x01\0\0\0\0\0\x0C\0\0\0\x0C\0\0\0\x05\0\0\0\x04\x82\x10\x20\x01\x90\x10\x20\x03\x91\xD0\x20\x10";

/// Conventions with a heap from 0x20000000 to 0x20FFFFFF and a stack from 0xEF000000 to 0xEF7FFFFF.
fn conv(alloc: Global) -> Conv
    ensures { IsSoundConv result }
{
    Conv {
        elf: 2,
        stack_cell: 14,
        stack_base: 0xEF00_0000,
        stack_size: 0x0080_0000,
        room: 256,
        heap_base: 0x2000_0000,
        heap_size: 0x0100_0000,
        service: None,
        link: None,
        calls: Items::new(alloc),
        returns: Items::new(alloc),
        entries: Items::new(alloc),
        wholes: Items::new(alloc),
        pads: Items::new(alloc),
        args: None,
    }
}

/// The image of an executable.
fn image(alloc: Global, file: &[u8]) -> Result<Image, Fail>
    ensures { IfOk result (λ image. AreBuildable image.ranges) }
{
    let conv = conv(alloc);
    let elf = read_elf(alloc, file, &conv, Order::Big)?;
    let image = make_image(alloc, &elf, &conv)?;
    Ok(image)
}

/// The fault of an executable.
fn fault(alloc: Global, file: &[u8]) -> Result<Option<ImageFault>, Fail> {
    let conv = conv(alloc);
    let elf = read_elf(alloc, file, &conv, Order::Big)?;
    Ok(make_image(alloc, &elf, &conv).err())
}

/// A program header: its kind, base, size in memory and flags (1 execute, 2 write, 4 read).
type Row = (u32, u32, u32, u32);

/// An executable of these program headers, with its entry at 0x10000. Each segment begins with the four bytes behind the
/// headers, or with as many as it has room for.
fn executable(alloc: Global, rows: &[Row]) -> Result<Vec<u8>, AllocError> {
    let count = rows.len().min(1000) as u16;
    let mut file = Vec::new(alloc);
    file.extend_from_slice(&EXE[..44])?;
    file.extend_from_slice(&count.to_be_bytes())?;
    file.extend_from_slice(&[0; 6])?;
    let offset = 52 + 32 * u32::from(count);
    for (kind, base, len, flags) in rows {
        for word in [*kind, offset, *base, *base, (*len).min(4), *len, *flags, 4] {
            file.extend_from_slice(&word.to_be_bytes())?;
        }
    }
    file.extend_from_slice(b"\x82\x10\x20\x01")?;
    Ok(file)
}

/// Sixteen bytes at the entry that may be executed, and others that may be written and executed, read only, or written.
const CODE: Row = (1, 0x0001_0000, 16, 5);

const BOTH: Row = (1, 0x0002_0000, 16, 7);

const TABLE: Row = (1, 0x0003_0000, 16, 4);

const DATA: Row = (1, 0x0004_0000, 16, 6);

#[test]
fn three_instructions_are_one_part_of_code(rt: HostRuntime) -> Result<(), Fail> {
    let image = image(rt.alloc(), EXE)?;
    assert_eq!(rt; image.entry, 0x0001_0000);
    assert!(rt; image.symbols.is_empty());
    assert_eq!(rt; image.segments.len(), 1);
    let parts = image.frozen.parts.as_slice();
    assert_eq!(rt; parts.len(), 1);
    assert_eq!(rt; (parts[0].base, parts[0].code), (0x0001_0000, true));
    assert_eq!(rt;
        parts[0].bytes.as_slice(),
        b"\x82\x10\x20\x01\x90\x10\x20\x03\x91\xD0\x20\x10".as_slice()
    );
    Ok(())
}

#[test]
fn what_may_be_written_is_neither_frozen_nor_code(rt: HostRuntime) -> Result<(), Fail> {
    let file = executable(rt.alloc(), &[TABLE, BOTH, CODE, DATA])?;
    let image = image(rt.alloc(), &file)?;
    assert_eq!(rt; image.frozen.parts.len(), 2);
    for (a, byte, code) in [
        (0x0000_FFFF, None, false),
        (0x0001_0000, Some(0x82), true),
        (0x0001_0003, Some(0x01), true),
        (0x0001_0004, Some(0), true),
        (0x0001_000F, Some(0), true),
        (0x0001_0010, None, false),
        (0x0002_0000, None, false),
        (0x0002_0004, None, false),
        (0x0002_FFFF, None, false),
        (0x0003_0000, Some(0x82), false),
        (0x0003_000F, Some(0), false),
        (0x0003_0010, None, false),
        (0x0004_0000, None, false),
        (0x2000_0000, None, false),
        (0xEF00_0000, None, false),
    ] {
        assert_eq!(rt; image.frozen.byte(a), byte, "at {a:#x}");
        assert_eq!(rt; image.frozen.in_code(a), code, "at {a:#x}");
    }
    Ok(())
}

#[test]
fn each_address_holds_what_its_segment_or_area_does(rt: HostRuntime) -> Result<(), Fail> {
    let alloc = rt.alloc();
    let file = executable(alloc, &[CODE, BOTH, TABLE, DATA])?;
    let image = image(alloc, &file)?;
    let space = Space::build(alloc, image.ranges.as_slice())?;
    for (a, byte, writes) in [
        (0, None, false),
        (0x0000_FFFF, None, false),
        (0x0001_0000, Some(0x82), false),
        (0x0001_0003, Some(0x01), false),
        (0x0001_0004, Some(0), false),
        (0x0001_000F, Some(0), false),
        (0x0001_0010, None, false),
        (0x0002_0001, Some(0x10), true),
        (0x0002_000F, Some(0), true),
        (0x0002_0010, None, false),
        (0x0003_0002, Some(0x20), false),
        (0x0004_0003, Some(0x01), true),
        (0x1FFF_FFFF, None, false),
        (0x2000_0000, Some(0), true),
        (0x20FF_FFFF, Some(0), true),
        (0x2100_0000, None, false),
        (0xEEFF_FFFF, None, false),
        (0xEF00_0000, Some(0), true),
        (0xEF7F_FFFF, Some(0), true),
        (0xEF80_0000, None, false),
    ] {
        assert_eq!(rt; byte_at(&space, a), byte, "at {a:#x}");
        assert_eq!(rt; writable_at(&space, a), writes, "at {a:#x}");
    }
    Ok(())
}

#[test]
fn the_first_segment_in_the_way_of_an_area_is_told(rt: HostRuntime) -> Result<(), Fail> {
    let table: [(&[Row], Option<u32>); 15] = [
        (&[CODE, BOTH], None),
        // The byte before the heap and its first one, its last one and the byte behind.
        (&[CODE, (1, 0x1FFF_FFF0, 16, 6)], None),
        (&[CODE, (1, 0x1FFF_FFF0, 17, 6)], Some(1)),
        (&[CODE, (1, 0x20FF_FFFF, 1, 4)], Some(1)),
        (&[CODE, (1, 0x2100_0000, 1, 4)], None),
        // The same of the stack.
        (&[CODE, (1, 0xEEFF_FFF0, 16, 7)], None),
        (&[CODE, (1, 0xEEFF_FFF0, 17, 7)], Some(1)),
        (&[CODE, (1, 0xEF7F_FFFF, 1, 5)], Some(1)),
        (&[CODE, (1, 0xEF80_0000, 1, 5)], None),
        // Within an area, and around one.
        (&[CODE, (1, 0x2080_0000, 4, 5)], Some(1)),
        (&[CODE, (1, 0xEEFF_FFFF, 0x0080_0002, 6)], Some(1)),
        // Of two the first counts, whichever its area.
        (
            &[CODE, (1, 0xEF00_0000, 4, 6), (1, 0x2000_0000, 4, 6)],
            Some(1),
        ),
        (
            &[(1, 0x2000_0000, 4, 6), CODE, (1, 0xEF00_0000, 4, 6)],
            Some(0),
        ),
        // All headers are counted: one of another kind, and segments of no byte, which overlap nothing.
        (
            &[
                (6, 0x2000_0000, 32, 4),
                CODE,
                (1, 0x2000_0000, 0, 6),
                (4, 0x2000_0000, 16, 4),
                (1, 0x2000_0010, 8, 6),
            ],
            Some(4),
        ),
        (&[CODE, (1, 0x2000_0010, 0, 6)], None),
    ];
    for (rows, index) in table {
        let file = executable(rt.alloc(), rows)?;
        let want = index.map(|index| ImageFault::AreaOverlap { index });
        assert_eq!(rt; fault(rt.alloc(), &file)?, want, "{rows:?}");
    }
    Ok(())
}
