//! What is built of the files.
ghost use Rattle.std.specs.Prelude.{◌≡◌, ◌<◌, ◌≤◌, ◌-◌, ◌^◌, length, map, All, IfOk, IfErr, OnOk};
ghost use Rattle.rtl_core.specs.SoundConv.{AreSoundTogether};
ghost use Rattle.c_lang.specs.Spellable.{SegmentFits, SegmentsFit};
ghost use Rattle.c_control.specs.Programs.{segment_of};
ghost use Rattle.load_image.specs.Mapped.{segment_part};
ghost use Rattle.c_static.specs.Laws.{ArePlaced};
ghost use Rattle.translation.specs.Translations.{IsTranslation};
ghost use Rattle.uqbt_top.specs.Built.{AreOf, AreRefused, BodiesAreOver, IsFileFault, IsImageOf, IsLong, IsReady, IsRefused, IsRefusedExe, Translates, parts_of, setting_with};
ghost use Rattle.uqbt_top.specs.Running.{HasMemory};

use crate::reading::are_bytes;
use crate::{ExeFault, FileName, Outcome};
use c_lang::{CSeg, Program};
use c_static::segments_are_placed;
use decode::Bundle;
use descriptions::{Described, Undescribed, read_descriptions};
use elf32::{ElfFault, Segment, read_elf};
use load_image::{Image, ImageFault, make_image};
use program_graph::DiscoverFault;
use sled_match::Matcher;
use sqlite_items::Items;
use std::alloc::{AllocError, Global};
use translation::translate;

/// The most points of a program.
pub const MOST_POINTS: usize = 131_072;
/// What tells an executable with more points.
pub const TOO_LARGE: Outcome = Outcome::Executable(ExeFault::TooLarge { points: 131_073 });

/// The machine that three texts describe.
pub fn described(alloc: Global, sled: &[u8], ssl: &[u8], conv: &[u8]) -> Result<Described, Outcome>
    requires sled { length sled.now < 2 ^ 32 - 1 }
    requires ssl { length ssl.now < 2 ^ 32 - 1 }
    requires conv { length conv.now < 2 ^ 32 - 1 }
    ensures described { IfOk result (λ d. AreOf (record { sled = sled.now; ssl = ssl.now; conv = conv.now }) d) }
    ensures sound { IfOk result (λ d. AreSoundTogether d.encodings d.named.machine d.conv) }
    ensures refused { IfErr result (λ o. AreRefused (record { sled = sled.now; ssl = ssl.now; conv = conv.now }) o) }
{
    match read_descriptions(alloc, sled, ssl, conv) {
        Ok(described) => Ok(described),
        Err(Undescribed::Sled(fault)) => Err(Outcome::Description {
            file: FileName::Sled,
            fault,
        }),
        Err(Undescribed::Ssl(fault)) => Err(Outcome::Description {
            file: FileName::Ssl,
            fault,
        }),
        Err(Undescribed::Conv(fault)) => Err(Outcome::Description {
            file: FileName::Conv,
            fault,
        }),
        Err(Undescribed::NoMemory) => Err(Outcome::NoMemory),
    }
}

/// The image of an executable for a described machine.
pub fn loaded(alloc: Global, exe: &[u8], on: &Described) -> Result<Image, Outcome>
    requires { AreSoundTogether on.now.encodings on.now.named.machine on.now.conv }
    ensures image { IfOk result (λ image. IsImageOf on.now exe.now image) }
    ensures ready { IfOk result (λ image. IsReady image) }
    ensures memory { IfOk result (λ image. HasMemory on.now image) }
    ensures placed { IfOk result (λ image. ArePlaced on.now.conv (parts_of image)) }
    ensures refused { IfErr result (λ o. IsRefusedExe (IsFileFault on.now exe.now) o) }
{
    segments_are_placed();
    let elf = match read_elf(alloc, exe, &on.conv, on.named.machine.order) {
        Ok(elf) => elf,
        Err(ElfFault::NoMemory) => return Err(Outcome::NoMemory),
        Err(fault) => return Err(Outcome::Executable(ExeFault::Elf(fault))),
    };
    match make_image(alloc, &elf, &on.conv) {
        Ok(image) => Ok(image),
        Err(ImageFault::AreaOverlap { index }) => {
            Err(Outcome::Executable(ExeFault::AreaOverlap { index }))
        }
        Err(ImageFault::NoMemory) => Err(Outcome::NoMemory),
    }
}

/// A segment as one of a C text.
fn segment_of(alloc: Global, segment: &Segment) -> Result<CSeg, AllocError>
    requires { length segment.now.bytes ≤ 2 ^ 32 - 1 }
    ensures same { IfOk result (λ s. s ≡ segment_of (segment_part segment.now)) }
    ensures fits { IfOk result SegmentFits }
{
    let (base, len) = (segment.base, segment.len);
    let bytes = segment.bytes.as_slice();
    are_bytes(bytes);
    Ok(CSeg {
        base,
        write: segment.write,
        len,
        bytes: Items::from_slice(alloc, bytes)?,
    })
}

/// Segments as those of a C text.
fn segments_of(alloc: Global, segments: &[Segment]) -> Result<Items<CSeg>, AllocError>
    requires { All (λ s. length s.bytes ≤ 2 ^ 32 - 1) segments.now }
    ensures same { IfOk result (λ all. all ≡ map segment_of (map segment_part segments.now)) }
    ensures fit { IfOk result SegmentsFit }
{
    let mut all = Items::new(alloc);
    for segment in segments {
        all.push(segment_of(alloc, segment)?)?;
    }
    Ok(all)
}

/// The C program of an image on a described machine.
pub fn program_of(alloc: Global, on: &Described, image: &Image) -> Result<Program, Outcome>
    requires sound { AreSoundTogether on.now.encodings on.now.named.machine on.now.conv }
    requires ready { IsReady image.now }
    requires placed { ArePlaced on.now.conv (parts_of image.now) }
    ensures translation { IfOk result (λ p. IsTranslation (setting_with on.now image.now) image.now.entry image.now.symbols (parts_of image.now) p) }
    ensures within { OnOk result (BodiesAreOver on.now image.now → ⊥) }
    ensures refused { IfErr result (λ o. IsLong on.now image.now o) }
{
    let matcher = Matcher::build(alloc, &on.encodings)?;
    let bundle = Bundle {
        machine: &on.named.machine,
        matcher: &matcher,
        conv: &on.conv,
        frozen: &image.frozen,
    };
    let segments = segments_of(alloc, image.segments.as_slice())?;
    match translate(
        alloc,
        &bundle,
        segments,
        image.entry,
        image.symbols.as_slice(),
    ) {
        Ok(program) => Ok(program),
        Err(DiscoverFault::TooLarge { points }) => {
            Err(Outcome::Executable(ExeFault::TooLarge { points }))
        }
        Err(DiscoverFault::NoMemory) => Err(Outcome::NoMemory),
    }
}

/// The C program of an executable on the machine that three texts describe.
pub fn translated(
    alloc: Global,
    sled: &[u8],
    ssl: &[u8],
    conv: &[u8],
    exe: &[u8],
) -> Result<Program, Outcome>
    requires sled { length sled.now < 2 ^ 32 - 1 }
    requires ssl { length ssl.now < 2 ^ 32 - 1 }
    requires conv { length conv.now < 2 ^ 32 - 1 }
    ensures program { IfOk result (λ p. Translates (record { sled = sled.now; ssl = ssl.now; conv = conv.now }) exe.now p) }
    ensures refused { IfErr result (λ o. IsRefused (record { sled = sled.now; ssl = ssl.now; conv = conv.now }) exe.now o) }
{
    let on = described(alloc, sled, ssl, conv)?;
    let image = loaded(alloc, exe, &on)?;
    program_of(alloc, &on, &image)
}
