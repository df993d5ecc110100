//! Executables and their faults, worked by hand.
use elf32::{ElfFault, read_elf};
use rtl_core::{Conv, Order};
use sqlite_items::Items;
use std::alloc::{AllocError, Global};
use std::test::Fail;

/// A big-endian executable of machine 2: a file header, one program header (bytes 52 to 83) and three instructions.
const EXE: &[u8] =
    b"\x7FELF\x01\x02\x01\0\0\0\0\0\0\0\0\0\0\x02\0\x02\0\0\0\x01\0\x01\0\0\0\0\0\x34\0\0\0\0\0\0\0\0\0\x34\0\x20\0\x01\0\0\0\0\0\0\0\0\0\x01\0\0\0\x54\0\x01\0\0\0\x01\0\0\0\0\0\x0C\0\0\0\x0C\0\0\0\x05\0\0\0\x04\x82\x10\x20\x01\x90\x10\x20\x03\x91\xD0\x20\x10";

fn conv(alloc: Global, elf: u16) -> Conv {
    Conv {
        elf,
        stack_cell: 14,
        stack_base: 0xEF00_0000,
        stack_size: 0x0080_0000,
        room: 256,
        heap_base: 0x2000_0000,
        heap_size: 0x0100_0000,
        service: None,
        link: None,
        calls: Items::new(alloc),
        returns: Items::new(alloc),
        entries: Items::new(alloc),
        wholes: Items::new(alloc),
        pads: Items::new(alloc),
        args: None,
    }
}

/// The fault of a big-endian file for machine 2.
fn fault(alloc: Global, file: &[u8]) -> Option<ElfFault> {
    read_elf(alloc, file, &conv(alloc, 2), Order::Big).err()
}

/// The example with these bytes put at their places.
fn changed(alloc: Global, changes: &[(usize, &[u8])]) -> Result<Vec<u8>, AllocError> {
    let mut file = EXE.to_vec(alloc)?;
    for (at, bytes) in changes {
        for (i, byte) in bytes.iter().enumerate() {
            if let Some(old) = file.get_mut(at.saturating_add(i)) {
                *old = *byte;
            }
        }
    }
    Ok(file)
}

#[test]
fn the_example_is_one_segment(rt: HostRuntime) -> Result<(), Fail> {
    let elf = read_elf(rt.alloc(), EXE, &conv(rt.alloc(), 2), Order::Big)?;
    assert_eq!(rt; elf.entry, 0x0001_0000);
    assert!(rt; elf.symbols.is_empty());
    let segments = elf.segments.as_slice();
    assert_eq!(rt; segments.len(), 1);
    let code = &segments[0];
    assert_eq!(rt; (code.header, code.base, code.len), (0, 0x0001_0000, 12));
    assert_eq!(rt; (code.write, code.exec), (false, true));
    assert_eq!(rt;
        code.bytes.as_slice(),
        b"\x82\x10\x20\x01\x90\x10\x20\x03\x91\xD0\x20\x10".as_slice()
    );
    Ok(())
}

#[test]
fn a_cut_file_is_refused_by_its_first_missing_part(rt: HostRuntime) -> Result<(), Fail> {
    for len in 0..96 {
        let want = if len < 52 {
            ElfFault::Short
        } else if len < 84 {
            ElfFault::HeadersCut
        } else {
            ElfFault::SegmentCut { index: 0 }
        };
        assert_eq!(rt; fault(rt.alloc(), &EXE[..len]), Some(want), "{len} bytes");
    }
    Ok(())
}

#[test]
fn each_field_has_its_fault(rt: HostRuntime) -> Result<(), Fail> {
    let outside = |entry| Some(ElfFault::EntryOutside { entry });
    let table: [(&[(usize, &[u8])], Option<ElfFault>); 31] = [
        (&[], None),
        (&[(0, b"\x7E")], Some(ElfFault::Magic)),
        (&[(3, b"G"), (4, b"\x02")], Some(ElfFault::Magic)),
        (&[(4, b"\x02"), (5, b"\x01")], Some(ElfFault::Class)),
        (&[(5, b"\x01"), (17, b"\x03")], Some(ElfFault::Order)),
        (&[(5, b"\x03")], Some(ElfFault::Order)),
        (
            &[(16, b"\x01"), (19, b"\x03")],
            Some(ElfFault::FileType { found: 0x0102 }),
        ),
        (&[(17, b"\x03")], Some(ElfFault::FileType { found: 3 })),
        (
            &[(19, b"\x03"), (42, b"\x01")],
            Some(ElfFault::MachineKind { found: 3 }),
        ),
        (
            &[(42, b"\0\x1F"), (55, b"\x03")],
            Some(ElfFault::HeadersCut),
        ),
        (&[(44, b"\xFF\xFF")], Some(ElfFault::HeadersCut)),
        (&[(28, b"\xFF\xFF\xFF\xFF")], Some(ElfFault::HeadersCut)),
        (
            &[(28, b"\xFF\xFF\xFF\xFF\0\0\0\0"), (42, b"\0\0\0\0")],
            Some(ElfFault::NoLoad),
        ),
        (
            &[(55, b"\x03"), (72, b"\0\0\0\0")],
            Some(ElfFault::Interp { index: 0 }),
        ),
        (&[(55, b"\x02")], Some(ElfFault::NoLoad)),
        (&[(72, b"\0\0\0\0")], Some(ElfFault::NoLoad)),
        (
            &[(56, b"\xFF\xFF\xFF\xFF")],
            Some(ElfFault::SegmentCut { index: 0 }),
        ),
        (
            &[(71, b"\x0D"), (75, b"\x0B")],
            Some(ElfFault::SegmentCut { index: 0 }),
        ),
        (
            &[(75, b"\x0B"), (60, b"\xFF\xFF\xFF\xFC")],
            Some(ElfFault::SegmentSizes { index: 0 }),
        ),
        (
            &[(60, b"\xFF\xFF\xFF\xFC\xFF\xFF\xFF\xFC")],
            Some(ElfFault::SegmentRange { index: 0 }),
        ),
        (
            &[(60, b"\xFF\xFF\xFF\xF5")],
            Some(ElfFault::SegmentRange { index: 0 }),
        ),
        (
            &[(60, b"\xFF\xFF\xFF\xF4"), (24, b"\xFF\xFF\xFF\xFF")],
            None,
        ),
        (&[(72, b"\x01\0\0\0")], None),
        (
            &[(72, b"\x01\0\0\x01"), (79, b"\x04")],
            Some(ElfFault::ImageTooLarge { total: 16_777_217 }),
        ),
        (&[(79, b"\x07")], outside(0x0001_0000)),
        (&[(79, b"\x04")], outside(0x0001_0000)),
        (&[(79, b"\x01")], None),
        (&[(76, b"\xFF\xFF\xFF\xF9")], None),
        (&[(24, b"\0\0\xFF\xFF")], outside(0xFFFF)),
        (&[(27, b"\x0C")], outside(0x0001_000C)),
        (&[(27, b"\x0C"), (75, b"\x0D")], None),
    ];
    for (changes, want) in table {
        let file = changed(rt.alloc(), changes)?;
        assert_eq!(rt; fault(rt.alloc(), &file), want, "{changes:?}");
    }
    Ok(())
}

/// A number of four bytes in a byte order.
fn push_word(file: &mut Vec<u8>, order: Order, word: u32) -> Result<(), AllocError> {
    match order {
        Order::Little => file.extend_from_slice(&word.to_le_bytes()),
        Order::Big => file.extend_from_slice(&word.to_be_bytes()),
    }
}

/// A number of two bytes in a byte order.
fn push_half(file: &mut Vec<u8>, order: Order, half: u16) -> Result<(), AllocError> {
    match order {
        Order::Little => file.extend_from_slice(&half.to_le_bytes()),
        Order::Big => file.extend_from_slice(&half.to_be_bytes()),
    }
}

/// A file header whose program headers stand behind it, with the place and the number of its section headers.
fn file_header(
    file: &mut Vec<u8>,
    order: Order,
    programs: u16,
    sections: (u32, u16),
) -> Result<(), AllocError> {
    file.extend_from_slice(b"\x7FELF\x01")?;
    file.push(if order == Order::Big { 2 } else { 1 })?;
    file.extend_from_slice(&[0; 10])?;
    push_half(file, order, 2)?;
    push_half(file, order, 2)?;
    for word in [1, 0x0001_0000, 52, sections.0, 0] {
        push_word(file, order, word)?;
    }
    for half in [52, 32, programs, 40, sections.1, 0] {
        push_half(file, order, half)?;
    }
    Ok(())
}

/// The kind, base, size in memory and flags of a program header that takes no byte of the file.
type Row = (u32, u32, u32, u32);

fn program_header(file: &mut Vec<u8>, order: Order, row: Row) -> Result<(), AllocError> {
    let (kind, base, len, flags) = row;
    for word in [kind, 0, base, base, 0, len, flags, 0] {
        push_word(file, order, word)?;
    }
    Ok(())
}

/// An executable of these program headers.
fn executable(alloc: Global, order: Order, rows: &[Row]) -> Result<Vec<u8>, AllocError> {
    let mut file = Vec::new(alloc);
    file_header(&mut file, order, rows.len().min(65_535) as u16, (0, 0))?;
    for row in rows {
        program_header(&mut file, order, *row)?;
    }
    Ok(file)
}

/// Twelve bytes of code at the entry.
const CODE: Row = (1, 0x0001_0000, 12, 5);

#[test]
fn one_header_is_checked_after_another(rt: HostRuntime) -> Result<(), Fail> {
    let overlap = |index| Some(ElfFault::SegmentOverlap { index });
    let range = |index| Some(ElfFault::SegmentRange { index });
    let table: [(&[Row], Option<ElfFault>); 13] = [
        (&[CODE, (1, 0x0002_0000, 4096, 7)], None),
        (&[CODE, (1, 0x0001_000B, 1, 6)], overlap(1)),
        (&[CODE, (1, 0x0001_000C, 1, 6)], None),
        (&[CODE, (1, 0xFFFF, 1, 6)], None),
        (&[CODE, (1, 0xFFFF, 2, 6)], overlap(1)),
        (
            &[
                CODE,
                (1, 0x0001_0004, 0, 6),
                (4, 0x0001_0000, 12, 6),
                (1, 0, 0x0002_0000, 6),
            ],
            overlap(3),
        ),
        (&[CODE, CODE, (1, 0xFFFF_FFFF, 2, 6)], overlap(1)),
        (&[CODE, (1, 0xFFFF_FFFF, 2, 6), CODE], range(1)),
        (
            &[
                CODE,
                (1, 0xFFFF_FFFF, 1, 6),
                (1, 0x0003_0000, 8, 6),
                (1, 0x0002_0000, 8, 6),
                (1, 0x0002_0007, 2, 6),
            ],
            overlap(4),
        ),
        (
            &[
                CODE,
                (1, 0x0003_0000, 8, 6),
                (1, 0x0002_0000, 8, 6),
                (1, 0x0002_0008, 0xFFF8, 6),
            ],
            None,
        ),
        (
            &[(1, 0xFFFF_FFFF, 2, 5), (3, 0, 0, 0), (3, 0, 0, 0)],
            Some(ElfFault::Interp { index: 1 }),
        ),
        (
            &[
                CODE,
                (1, 0x1000_0000, 0x0080_0000, 6),
                (1, 0x2000_0000, 0x0080_0000, 6),
            ],
            Some(ElfFault::ImageTooLarge { total: 16_777_228 }),
        ),
        (
            &[(1, 0x0001_0000, 12, 7), (1, 0x0002_0000, 12, 5)],
            Some(ElfFault::EntryOutside { entry: 0x0001_0000 }),
        ),
    ];
    for (rows, want) in table {
        for order in [Order::Big, Order::Little] {
            let file = executable(rt.alloc(), order, rows)?;
            let found = read_elf(rt.alloc(), &file, &conv(rt.alloc(), 2), order).err();
            assert_eq!(rt; found, want, "{order:?}: {rows:?}");
        }
    }
    Ok(())
}

/// The kind, place and size of a section.
type SectionRow = (u32, u32, u32);

/// The value, kind with binding, and section of a symbol.
type SymbolRow = (u32, u8, u16);

/// An executable of one program header, with symbols at 84 and behind them these section headers.
fn with_symbols(
    alloc: Global,
    symbols: &[SymbolRow],
    sections: &[SectionRow],
) -> Result<Vec<u8>, AllocError> {
    let order = Order::Big;
    let place = 84 + 16 * symbols.len().min(2_000_000) as u32;
    let mut file = Vec::new(alloc);
    file_header(
        &mut file,
        order,
        1,
        (place, sections.len().min(65_535) as u16),
    )?;
    program_header(&mut file, order, CODE)?;
    for (value, info, section) in symbols {
        push_word(&mut file, order, 0)?;
        push_word(&mut file, order, *value)?;
        push_word(&mut file, order, 4)?;
        file.extend_from_slice(&[*info, 0])?;
        push_half(&mut file, order, *section)?;
    }
    for (kind, offset, size) in sections {
        for word in [0, *kind, 0, 0, *offset, *size, 0, 0, 4, 16] {
            push_word(&mut file, order, word)?;
        }
    }
    Ok(file)
}

#[test]
fn functions_come_from_the_first_whole_table(rt: HostRuntime) -> Result<(), Fail> {
    let symbols = [
        (0x0001_0000, 0x02, 1),
        (0x0001_0004, 0x12, 0xFFF1),
        (0x0001_0008, 0x11, 1),
        (0x0001_0004, 0x22, 0),
        (7, 0xF2, 2),
    ];
    let table: [(&[SectionRow], &[u32]); 8] = [
        (&[(2, 84, 80)], &[0x0001_0000, 0x0001_0004, 7]),
        (&[(2, 84, 79)], &[0x0001_0000, 0x0001_0004]),
        (&[(2, 84, 15)], &[]),
        (
            &[(3, 84, 80), (11, 84, 80), (2, 100, 64), (2, 84, 80)],
            &[0x0001_0004, 7],
        ),
        (
            &[(2, 84, 0xFFFF_FFFF), (2, 0xFFFF_FFFF, 16), (2, 148, 16)],
            &[7],
        ),
        (&[(2, 84, 161)], &[]),
        (&[(2, 84, 120)], &[0x0001_0000, 0x0001_0004, 7]),
        (&[], &[]),
    ];
    for (sections, want) in table {
        let file = with_symbols(rt.alloc(), &symbols, sections)?;
        let elf = read_elf(rt.alloc(), &file, &conv(rt.alloc(), 2), Order::Big)?;
        assert_eq!(rt; elf.symbols.as_slice(), want, "{sections:?}");
    }
    Ok(())
}

#[test]
fn cut_section_headers_give_no_symbols(rt: HostRuntime) -> Result<(), Fail> {
    let symbols = [(0x0001_0000, 0x02, 1)];
    for (size, cut, want) in [(40, false, 1), (41, false, 0), (40, true, 0)] {
        let mut file = with_symbols(rt.alloc(), &symbols, &[(2, 84, 16)])?;
        if let Some(old) = file.get_mut(47) {
            *old = size;
        }
        if cut {
            let _ = file.pop();
        }
        let elf = read_elf(rt.alloc(), &file, &conv(rt.alloc(), 2), Order::Big)?;
        assert_eq!(rt;
            elf.symbols.len(),
            want,
            "entries of {size} bytes, cut: {cut}"
        );
    }
    Ok(())
}

#[test]
fn many_headers_and_symbols_are_read(rt: HostRuntime) -> Result<(), Fail> {
    let mut rows = Vec::new(rt.alloc());
    rows.push(CODE)?;
    for i in 0..65_534 {
        rows.push((1, 0xC000_0000 - 512 * i, 256, 6))?;
    }
    let file = executable(rt.alloc(), Order::Big, &rows)?;
    let elf = read_elf(rt.alloc(), &file, &conv(rt.alloc(), 2), Order::Big)?;
    assert_eq!(rt; elf.segments.len(), 65_535);
    let symbols = vec![in rt.alloc(); (0x0001_0000, 2, 1); 1_000_000]?;
    let file = with_symbols(rt.alloc(), &symbols, &[(2, 84, 16_000_000)])?;
    let elf = read_elf(rt.alloc(), &file, &conv(rt.alloc(), 2), Order::Big)?;
    assert_eq!(rt; elf.symbols.len(), 1_000_000);
    Ok(())
}
