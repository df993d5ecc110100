//! Copies of segments.
ghost use Rattle.std.specs.Prelude.{◌≡◌, IfOk};

use elf32::Segment;
use sqlite_items::Items;
use std::alloc::{AllocError, Global};

fn copy_segment(alloc: Global, segment: &Segment) -> Result<Segment, AllocError>
    ensures { IfOk result (λ copy. copy ≡ segment.now) }
{
    Ok(Segment {
        header: segment.header,
        base: segment.base,
        len: segment.len,
        write: segment.write,
        exec: segment.exec,
        bytes: Items::from_slice(alloc, segment.bytes.as_slice())?,
    })
}

pub(crate) fn copy_segments(
    alloc: Global,
    segments: &[Segment],
) -> Result<Items<Segment>, AllocError>
    ensures { IfOk result (λ copies. copies ≡ segments.now) }
{
    let mut copies = Items::new(alloc);
    for segment in segments {
        copies.push(copy_segment(alloc, segment)?)?;
    }
    Ok(copies)
}
