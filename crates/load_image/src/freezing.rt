//! The bytes of an image that no store changes.
ghost use Rattle.std.specs.Prelude.{◌≡◌, ◌≤◌, ◌++◌, ◌∷◌, [], length, All, IfOk, OnOk, if◌then◌else◌};
ghost use Rattle.load_image.specs.FrozenBytes.{whole_bytes, part_of, is_fixed, frozen_of};

use elf32::Segment;
use rtl_core::{Frozen, FrozenPart};
use sqlite_items::Items;
use std::alloc::{AllocError, Global};

/// The bytes of a segment with the zeros behind them.
fn whole_bytes(alloc: Global, segment: &Segment) -> Result<Items<u8>, AllocError>
    requires { length segment.now.bytes ≤ segment.now.len }
    ensures { IfOk result (λ bytes. bytes ≡ whole_bytes segment.now) }
{
    let len = segment.len as usize;
    let mut bytes = Vec::with_capacity(alloc, len)?;
    bytes.extend_from_slice(segment.bytes.as_slice())?;
    bytes.resize(len, 0)?;
    Ok(Items::from_vec(bytes))
}

/// The frozen part of a segment.
fn part_of(alloc: Global, segment: &Segment) -> Result<FrozenPart, AllocError>
    requires { length segment.now.bytes ≤ segment.now.len }
    ensures { IfOk result (λ part. part ≡ part_of segment.now) }
{
    Ok(FrozenPart {
        base: segment.base,
        code: segment.exec,
        bytes: whole_bytes(alloc, segment)?,
    })
}

/// Takes the part of a segment that may not be written, and nothing of another.
fn freeze(alloc: Global, parts: &mut Items<FrozenPart>, segment: &Segment) -> Result<(), AllocError>
    requires { length segment.now.bytes ≤ segment.now.len }
    ensures { OnOk result (parts.new ≡ parts.old ++ (if is_fixed segment.now then part_of segment.now ∷ [] else [])) }
{
    if !segment.write {
        parts.push(part_of(alloc, segment)?)?;
    }
    Ok(())
}

/// The segments that may not be written.
pub(crate) fn frozen_of(alloc: Global, segments: &[Segment]) -> Result<Frozen, AllocError>
    requires { All (λ s. length s.bytes ≤ s.len) segments.now }
    ensures { IfOk result (λ frozen. frozen ≡ frozen_of segments.now) }
{
    let mut parts = Items::new(alloc);
    for segment in segments {
        freeze(alloc, &mut parts, segment)?;
    }
    Ok(Frozen { parts })
}
