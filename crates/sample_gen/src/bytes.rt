//! Numbers as the bytes of a machine.
ghost use Rattle.std.specs.Prelude.{◌≡◌, ◌++◌, OnOk};
ghost use Rattle.sample_gen.specs.Bytes.{bytes_of, halves, words};

use super::kind::Kind;
use byteorder::{BigEndian, ByteOrder, LittleEndian};
use std::alloc::AllocError;

/// The two bytes of a number.
fn half_bytes(kind: Kind, half: u16) -> [u8; 2]
    ensures { result ≡ bytes_of kind 2 half }
{
    let mut bytes = [0; 2];
    match kind {
        Kind::Sparc => BigEndian::write_u16(&mut bytes, half),
        Kind::I386 => LittleEndian::write_u16(&mut bytes, half),
    }
    bytes
}

/// The four bytes of a number.
fn word_bytes(kind: Kind, word: u32) -> [u8; 4]
    ensures { result ≡ bytes_of kind 4 word }
{
    let mut bytes = [0; 4];
    match kind {
        Kind::Sparc => BigEndian::write_u32(&mut bytes, word),
        Kind::I386 => LittleEndian::write_u32(&mut bytes, word),
    }
    bytes
}

/// Puts numbers of two bytes each.
#[tactic(auto, unfolding(crate::specs::Bytes::halves))]
pub fn put_halves(out: &mut Vec<u8>, kind: Kind, numbers: &[u16]) -> Result<(), AllocError>
    ensures { OnOk result (out.new.items ≡ out.old.items ++ halves kind numbers.now) }
{
    for half in numbers {
        out.extend_from_slice(&half_bytes(kind, *half))?;
    }
    Ok(())
}

/// Puts numbers of four bytes each.
#[tactic(auto, unfolding(crate::specs::Bytes::words))]
pub fn put_words(out: &mut Vec<u8>, kind: Kind, numbers: &[u32]) -> Result<(), AllocError>
    ensures { OnOk result (out.new.items ≡ out.old.items ++ words kind numbers.now) }
{
    for word in numbers {
        out.extend_from_slice(&word_bytes(kind, *word))?;
    }
    Ok(())
}
