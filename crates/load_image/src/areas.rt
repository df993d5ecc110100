//! Segments that are in the way of the heap or the stack.
ghost use Rattle.std.specs.Prelude.{◌≡◌};
ghost use Rattle.space.specs.Ranges.{shares};
ghost use Rattle.load_image.specs.Areas.{range_of, zeros, meets_area, overlap_fault};

use crate::fault::ImageFault;
use elf32::Segment;
use rtl_core::Conv;

/// Whether a segment shares a byte with the `size` bytes from `base` on.
fn meets(segment: &Segment, base: u32, size: u32) -> bool
    ensures { result ≡ shares (range_of segment.now) (zeros base size) }
{
    let segment_end = u64::from(segment.base) + u64::from(segment.len);
    let end = u64::from(base) + u64::from(size);
    u64::from(segment.base.max(base)) < segment_end.min(end)
}

/// Whether a segment shares a byte with the heap or the stack.
fn meets_area(conv: &Conv, segment: &Segment) -> bool
    ensures { result ≡ meets_area conv.now segment.now }
{
    meets(segment, conv.heap_base, conv.heap_size)
        || meets(segment, conv.stack_base, conv.stack_size)
}

/// The first segment that shares a byte with the heap or the stack, as a fault.
pub(crate) fn overlap_fault(conv: &Conv, segments: &[Segment]) -> Option<ImageFault>
    ensures { result ≡ overlap_fault conv.now segments.now }
{
    let found = segments.iter().find(|s| meets_area(conv, s))?;
    Some(ImageFault::AreaOverlap {
        index: found.header,
    })
}
