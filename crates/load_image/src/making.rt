//! An executable and conventions, made an image.
ghost use Rattle.std.specs.Prelude.{◌≡◌, ◌≢◌, All, Some, None, IfOk, IfErr, OnOk};
ghost use Rattle.rtl_core.specs.SoundConv.{IsSoundConv};
ghost use Rattle.elf32.specs.Reading.{AreLoadable};
ghost use Rattle.space.specs.Ranges.{memory_of};
ghost use Rattle.load_image.specs.Areas.{overlap_fault, SharesByte, IsFirstOverlap};
ghost use Rattle.load_image.specs.FrozenBytes.{IsFrozen};
ghost use Rattle.load_image.specs.Mapped.{IsFirstMemory, AreBuildable};
ghost use Rattle.load_image.specs.Made.{image_of};
ghost use Rattle.load_image.specs.declared.fault.ImageFault.TheVariants as faults;

use crate::areas::overlap_fault;
use crate::copies::copy_segments;
use crate::fault::ImageFault;
use crate::freezing::frozen_of;
use crate::image::Image;
use crate::mapping::ranges_of;
use elf32::Elf;
use rtl_core::Conv;
use sqlite_items::Items;
use std::alloc::Global;

/// The image of an executable under sound conventions: each segment is its file bytes and then zeros, and may be written
/// where it says so; the heap and the stack are zeros that may be written; no other address is mapped. What may not be
/// written is frozen, and code where its segment may be executed.
///
/// The first segment that shares a byte with the heap or the stack is told by the number of its program header.
/// `NoMemory` alone may come in place of any answer.
pub fn make_image(alloc: Global, elf: &Elf, conv: &Conv) -> Result<Image, ImageFault>
    requires sound { IsSoundConv conv.now }
    requires loadable { AreLoadable elf.now.segments }
    ensures image { IfOk result (λ image. image ≡ image_of elf.now conv.now) }
    ensures none { OnOk result (overlap_fault conv.now elf.now.segments ≡ None) }
    ensures apart { IfOk result (λ _. All (λ s. ¬ SharesByte conv.now s) elf.now.segments) }
    ensures memory { IfOk result (λ image. IsFirstMemory elf.now.segments conv.now (memory_of image.ranges)) }
    ensures frozen { IfOk result (λ image. IsFrozen elf.now.segments (memory_of image.ranges) image.frozen) }
    ensures ranges { IfOk result (λ image. AreBuildable image.ranges) }
    ensures fault { IfErr result (λ fault. fault ≢ faults.NoMemory → overlap_fault conv.now elf.now.segments ≡ Some fault) }
    ensures first { IfErr result (λ fault. fault ≢ faults.NoMemory → IsFirstOverlap conv.now elf.now.segments fault) }
{
    let segments = elf.segments.as_slice();
    if let Some(fault) = overlap_fault(conv, segments) {
        return Err(fault);
    }
    let symbols = Items::from_slice(alloc, elf.symbols.as_slice())?;
    let ranges = ranges_of(alloc, conv, segments)?;
    let frozen = frozen_of(alloc, segments)?;
    let segments = copy_segments(alloc, segments)?;
    Ok(Image {
        entry: elf.entry,
        symbols,
        ranges,
        frozen,
        segments,
    })
}
