//! From texts and an executable to the table of a jump.
ghost use Rattle.std.specs.Prelude.{IfOk};
ghost use Rattle.rtl_core.specs.SoundConv.{AreSoundTogether};
ghost use Rattle.decode.specs.At.{AreShort};

use crate::executable::{Contents, executable};
use decode::Bundle;
use descriptions::{Described, Undescribed, read_descriptions};
use elf32::read_elf;
use jumptables::table;
use load_image::{Image, make_image};
use points::{Block, JumpKind, block_at};
use sled_match::Matcher;
use std::alloc::{AllocError, Global};
use std::process::Abort;
use std::test::Fail;

/// The texts of a machine, each of at most so many bytes.
#[derive(Clone, Copy)]
pub struct Texts {
    pub sled: &'static [u8],
    pub ssl: &'static [u8],
    pub conv: &'static [u8],
}

const MOST_TEXT: usize = 65_536;

fn described(alloc: Global, texts: &Texts) -> Result<Described, Undescribed>
    ensures { IfOk result (λ d. AreSoundTogether d.encodings d.named.machine d.conv) }
{
    let Texts { sled, ssl, conv } = *texts;
    if sled.len() > MOST_TEXT || ssl.len() > MOST_TEXT || conv.len() > MOST_TEXT {
        return Err(Undescribed::NoMemory);
    }
    read_descriptions(alloc, sled, ssl, conv)
}

/// The table of the jump at an address; none where no computed plain jump stands there.
fn table_at(
    alloc: Global,
    on: &Described,
    image: &Image,
    at: u32,
) -> Result<Option<Vec<u32>>, AllocError>
    requires sound { AreSoundTogether on.now.encodings on.now.named.machine on.now.conv }
    requires short { AreShort image.now.frozen }
{
    let matcher = Matcher::build(alloc, &on.encodings)?;
    let bundle = Bundle {
        machine: &on.named.machine,
        matcher: &matcher,
        conv: &on.conv,
        frozen: &image.frozen,
    };
    match block_at(alloc, &bundle, at)? {
        Block::Inst(_, JumpKind::Dyn) => Ok(Some(table(alloc, &bundle, at)?)),
        _ => Ok(None),
    }
}

/// The same for an executable of the machine that three texts describe.
pub fn found_table(
    alloc: Global,
    texts: &Texts,
    of: &Contents<'_>,
    at: u32,
) -> Result<Option<Vec<u32>>, Fail> {
    let on = described(alloc, texts)?;
    let file = executable(alloc, of)?;
    let elf = read_elf(alloc, &file, &on.conv, on.named.machine.order)?;
    let image = make_image(alloc, &elf, &on.conv)?;
    Ok(table_at(alloc, &on, &image, at)?)
}

/// Fails where the jump at an address has another table.
pub fn expect_of(
    rt: &(impl Abort + AllocGlobal),
    texts: &Texts,
    of: &Contents<'_>,
    at: u32,
    want: &[u32],
) -> Result<(), Fail> {
    match found_table(rt.alloc(), texts, of, at)? {
        Some(got) => assert_eq!(rt; got.as_slice(), want),
        None => assert!(rt; false, "no computed plain jump stands at {at}"),
    }
    Ok(())
}
