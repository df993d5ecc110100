//! A memory for tests.
ghost use Rattle.std.specs.Prelude.{IfOk};
ghost use Rattle.space.specs.Ranges.{HasRoom};

use space::{Range, Space};
use sqlite_items::Items;
use std::alloc::{AllocError, Global};
use std::test::Fail;

/// Bytes from an address on that may be written, eight at most.
fn range(alloc: Global, base: u32, bytes: &[u8]) -> Result<Range, AllocError>
    ensures { IfOk result (λ r. HasRoom r) }
{
    let count = bytes.len().min(8);
    Ok(Range {
        base,
        len: count as u32,
        write: true,
        bytes: Items::from_slice(alloc, &bytes[..count])?,
    })
}

/// Two ranges that touch: these bytes from address 0 on, and behind them the others.
pub fn two_ranges(alloc: Global, low: &[u8], high: &[u8]) -> Result<Space, Fail> {
    let first = range(alloc, 0, low)?;
    let second = range(alloc, first.len, high)?;
    let ranges = [first, second];
    Ok(Space::build(alloc, &ranges)?)
}
