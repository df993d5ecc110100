//! What an image maps.
ghost use Rattle.std.specs.Prelude.{◌≡◌, map, IfOk};
ghost use Rattle.load_image.specs.Areas.{range_of, zeros};
ghost use Rattle.load_image.specs.Made.{ranges_of};

use elf32::Segment;
use rtl_core::Conv;
use space::Range;
use sqlite_items::Items;
use std::alloc::{AllocError, Global};

/// The range of a segment.
fn range_of(alloc: Global, segment: &Segment) -> Result<Range, AllocError>
    ensures { IfOk result (λ range. range ≡ range_of segment.now) }
{
    Ok(Range {
        base: segment.base,
        len: segment.len,
        write: segment.write,
        bytes: Items::from_slice(alloc, segment.bytes.as_slice())?,
    })
}

/// An area of zeros that may be written.
fn zeros(alloc: Global, base: u32, size: u32) -> Range
    ensures { result ≡ zeros base size }
{
    Range {
        base,
        len: size,
        write: true,
        bytes: Items::new(alloc),
    }
}

/// The ranges of segments.
fn segment_ranges(alloc: Global, segments: &[Segment]) -> Result<Items<Range>, AllocError>
    ensures { IfOk result (λ ranges. ranges ≡ map range_of segments.now) }
{
    let mut ranges = Items::new(alloc);
    for segment in segments {
        ranges.push(range_of(alloc, segment)?)?;
    }
    Ok(ranges)
}

/// The ranges of segments, then the heap, then the stack.
pub(crate) fn ranges_of(
    alloc: Global,
    conv: &Conv,
    segments: &[Segment],
) -> Result<Items<Range>, AllocError>
    ensures { IfOk result (λ ranges. ranges ≡ ranges_of conv.now segments.now) }
{
    let mut ranges = segment_ranges(alloc, segments)?;
    ranges.push(zeros(alloc, conv.heap_base, conv.heap_size))?;
    ranges.push(zeros(alloc, conv.stack_base, conv.stack_size))?;
    Ok(ranges)
}
