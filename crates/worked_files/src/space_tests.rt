//! Ranges of memory, and numbers loaded from them and stored.
ghost use Rattle.std.specs.Prelude.{◌≡◌, IfOk, All};
ghost use Rattle.rtl_core.specs.Access.{is_size};
ghost use Rattle.space.specs.Ranges.{HasRoom};

use rtl_core::{Order, byte_at, writable_at, write_at};
use space::{AccessFault, Range, Space, SpaceFault};
use sqlite_items::Items;
use std::alloc::{AllocError, Global};
use std::test::Fail;

/// A range that begins with these bytes, of which those behind its end are left out.
pub fn range(
    alloc: Global,
    base: u32,
    len: u32,
    write: bool,
    bytes: &[u8],
) -> Result<Range, AllocError>
    ensures { IfOk result (λ r. HasRoom r) }
{
    let count = bytes.len().min(len as usize);
    let bytes = Items::from_slice(alloc, &bytes[..count])?;
    Ok(Range {
        base,
        len,
        write,
        bytes,
    })
}

/// Ranges by base, length and whether they may be written, each of which begins with the bytes 1, 2, 3, 4, 5.
fn ranges(alloc: Global, rows: &[(u32, u32, bool)]) -> Result<Vec<Range>, AllocError>
    ensures { IfOk result (λ v. All HasRoom v.items) }
{
    let mut list = Vec::new(alloc);
    for (base, len, write) in rows {
        let one = range(alloc, *base, *len, *write, &[1, 2, 3, 4, 5])?;
        list.push(one)?;
    }
    Ok(list)
}

#[test]
fn the_first_range_at_fault_is_told(rt: HostRuntime) -> Result<(), Fail> {
    let alloc = rt.alloc();
    let table: [(&[(u32, u32, bool)], Option<SpaceFault>); 15] = [
        (&[], None),
        (&[(0xFFFF_FFFF, 1, false)], None),
        (
            &[(0xFFFF_FFFF, 2, false)],
            Some(SpaceFault::PastEnd { index: 0 }),
        ),
        (
            &[(0x8000_0000, 0x8000_0001, false)],
            Some(SpaceFault::PastEnd { index: 0 }),
        ),
        (&[(0x2000, 16, false), (0x1000, 16, true)], None),
        // Ranges that touch share no address.
        (
            &[(0x1000, 16, false), (0x1010, 16, true), (0xFF0, 16, true)],
            None,
        ),
        (
            &[(0x1000, 16, false), (0x100F, 16, true)],
            Some(SpaceFault::Overlap { index: 1 }),
        ),
        (
            &[(0x1000, 16, false), (0xFF1, 16, true)],
            Some(SpaceFault::Overlap { index: 1 }),
        ),
        // One within the other, and the same one twice.
        (
            &[(0x1000, 16, false), (0x1004, 1, false)],
            Some(SpaceFault::Overlap { index: 1 }),
        ),
        (
            &[(0x1004, 1, false), (0x3000, 1, false), (0x1000, 16, false)],
            Some(SpaceFault::Overlap { index: 2 }),
        ),
        // The earlier place comes first, and PastEnd at one place.
        (
            &[
                (0x1000, 16, false),
                (0x1000, 16, false),
                (0xFFFF_FFFF, 2, false),
            ],
            Some(SpaceFault::Overlap { index: 1 }),
        ),
        (
            &[(0xFFFF_FFF0, 16, false), (0xFFFF_FFFF, 2, false)],
            Some(SpaceFault::PastEnd { index: 1 }),
        ),
        // A range of length 0 maps nothing and overlaps nothing.
        (
            &[(0x1000, 16, false), (0x1008, 0, false), (0x1008, 0, true)],
            None,
        ),
        (&[(0x1008, 0, false), (0x1000, 16, false)], None),
        (&[(0xFFFF_FFFF, 0, false), (0xFFFF_FFFF, 1, false)], None),
    ];
    for (rows, want) in table {
        let list = ranges(alloc, rows)?;
        assert_eq!(rt; Space::build(alloc, &list).err(), want);
    }
    Ok(())
}

#[test]
fn a_range_holds_its_bytes_and_zeros_behind_them(rt: HostRuntime) -> Result<(), Fail> {
    let alloc = rt.alloc();
    let list = ranges(
        alloc,
        &[
            (0xFFFF_FFFE, 2, false),
            (0x2000, 0, true),
            (0x1000, 7, true),
            (0x1007, 2, false),
        ],
    )?;
    let mut space = Space::build(alloc, &list)?;
    for (a, byte, writes) in [
        (0xFFF, None, false),
        (0x1000, Some(1), true),
        (0x1004, Some(5), true),
        (0x1005, Some(0), true),
        (0x1006, Some(0), true),
        (0x1007, Some(1), false),
        (0x1008, Some(2), false),
        (0x1009, None, false),
        (0x2000, None, false),
        (0xFFFF_FFFD, None, false),
        (0xFFFF_FFFE, Some(1), false),
        (0xFFFF_FFFF, Some(2), false),
        (0x1_0000_0000, None, false),
    ] {
        assert_eq!(rt; byte_at(&space, a), byte, "at {a:#x}");
        assert_eq!(rt; writable_at(&space, a), writes, "at {a:#x}");
        write_at(&mut space, a, 0x77);
        let after = if writes { Some(0x77) } else { byte };
        assert_eq!(rt; byte_at(&space, a), after, "after a write at {a:#x}");
    }
    Ok(())
}

/// Whether accesses have this size.
fn is_size(bytes: u8) -> bool
    ensures { result ≡ is_size bytes }
{
    matches!(bytes, 1 | 2 | 4 | 8)
}

#[test]
fn numbers_are_loaded_in_both_orders(rt: HostRuntime) -> Result<(), Fail> {
    let alloc = rt.alloc();
    // At 0x1000: 01 02 03 04 05 00 00 00, and then 01 02. At the last address: 01.
    let rows = [
        (0x1008, 2, false),
        (0x1000, 8, true),
        (0xFFFF_FFFF, 1, true),
        (0, 4, true),
    ];
    let list = ranges(alloc, &rows)?;
    let space = Space::build(alloc, &list)?;
    for (order, bytes, a, want) in [
        (Order::Little, 1, 0x1001, Ok(2)),
        (Order::Little, 2, 0x1001, Ok(0x0302)),
        (Order::Little, 4, 0x1000, Ok(0x0403_0201)),
        (Order::Little, 8, 0x1000, Ok(0x0000_0005_0403_0201)),
        (Order::Big, 1, 0x1001, Ok(2)),
        (Order::Big, 2, 0x1001, Ok(0x0203)),
        (Order::Big, 4, 0x1001, Ok(0x0203_0405)),
        (Order::Big, 8, 0x1000, Ok(0x0102_0304_0500_0000)),
        (Order::Little, 1, 0xFFFF_FFFF, Ok(1)),
        // Over two ranges that touch.
        (Order::Big, 4, 0x1006, Ok(0x0000_0102)),
        (Order::Little, 4, 0x1006, Ok(0x0201_0000)),
        // Nothing is mapped at 2^32, though address 0 is.
        (Order::Little, 2, 0xFFFF_FFFF, Err(0)),
        (Order::Big, 4, 0x1007, Err(0x100A)),
        (Order::Big, 8, 0xFFE, Err(0xFFE)),
    ] {
        if is_size(bytes) {
            let want = want.map_err(|address| AccessFault { address });
            assert_eq!(rt;
                space.load(order, bytes, a),
                want,
                "{bytes} bytes at {a:#x}"
            );
        }
    }
    Ok(())
}

#[test]
fn numbers_are_stored_in_both_orders(rt: HostRuntime) -> Result<(), Fail> {
    let alloc = rt.alloc();
    let rows = [
        (0x1003, 5, true),
        (0x1000, 3, true),
        (0x1008, 2, false),
        (0xFFFF_FFFF, 1, true),
        (0, 4, true),
    ];
    let list = ranges(alloc, &rows)?;
    let mut space = Space::build(alloc, &list)?;
    // At 0x1000: 01 02 03, and then 01 02 03 04 05.
    for (order, bytes, a, v, fault, all) in [
        // What does not fit the size is left out.
        (
            Order::Little,
            2,
            0x1003,
            0xAABB_CCDD,
            None,
            0x0102_03DD_CC03_0405,
        ),
        (
            Order::Big,
            4,
            0x1001,
            0xFF_1122_3344,
            None,
            0x0111_2233_4403_0405,
        ),
        (Order::Big, 1, 0x1000, 0x1FF, None, 0xFF11_2233_4403_0405),
        (
            Order::Little,
            8,
            0x1000,
            0x8070_6050_4030_2010,
            None,
            0x1020_3040_5060_7080,
        ),
        (
            Order::Big,
            8,
            0x1000,
            0x0102_0304_0506_0708,
            None,
            0x0102_0304_0506_0708,
        ),
        // A store over a byte that may not be written writes none.
        (
            Order::Big,
            4,
            0x1006,
            0,
            Some(0x1008),
            0x0102_0304_0506_0708,
        ),
        (
            Order::Little,
            2,
            0xFFFF_FFFF,
            0,
            Some(0),
            0x0102_0304_0506_0708,
        ),
    ] {
        if is_size(bytes) {
            let found = space.store(order, bytes, a, v).err();
            let want = fault.map(|address| AccessFault { address });
            assert_eq!(rt; found, want, "{bytes} bytes at {a:#x}");
            assert_eq!(rt;
                space.load(Order::Big, 8, 0x1000),
                Ok(all),
                "after {bytes} bytes at {a:#x}"
            );
        }
    }
    assert_eq!(rt; space.load(Order::Big, 1, 0xFFFF_FFFF), Ok(1));
    Ok(())
}

#[test]
fn a_store_past_the_end_of_a_range_writes_nothing(rt: HostRuntime) -> Result<(), Fail> {
    let alloc = rt.alloc();
    let list = [range(alloc, 0x1000, 6, true, &[])?];
    let mut space = Space::build(alloc, &list)?;
    let fault = Err(AccessFault { address: 0x1006 });
    assert_eq!(rt; space.store(Order::Little, 4, 0x1004, 0x1122_3344), fault);
    assert_eq!(rt; space.load(Order::Little, 1, 0x1004), Ok(0));
    Ok(())
}
