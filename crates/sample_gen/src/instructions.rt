//! Instructions made from numbers.
ghost use Rattle.std.specs.Prelude.{◌≡◌, ◌<◌, ◌^◌, ◌++◌, OnOk};
ghost use Rattle.sample_gen.specs.Instructions.{immediate_form, sparc_word, instruction};
ghost use Rattle.sample_gen.specs.Numbers.{state_after};
ghost use Rattle.sample_gen.specs.Program.{instructions};

use super::bytes::put_words;
use super::kind::Kind;
use super::numbers::Numbers;
use std::alloc::AllocError;

/// A word of SPARC's format 3 with an immediate.
fn immediate_form(rd: u32, op3: u32, rs1: u32, simm13: u32) -> u32
    requires rd { rd < 32 }
    requires op3 { op3 < 64 }
    requires rs1 { rs1 < 32 }
    requires simm13 { simm13 < 2 ^ 13 }
    ensures { result ≡ immediate_form rd op3 rs1 simm13 }
{
    (2 << 30) + (rd << 25) + (op3 << 19) + (rs1 << 14) + (1 << 13) + simm13
}

/// The word of an instruction for SPARC.
#[tactic(auto, unfolding(crate::specs::Instructions::sparc_word))]
fn sparc_word(number: u32) -> u32
    ensures { result ≡ sparc_word number }
{
    let rd = 16 + (number >> 3) % 8;
    let rs1 = 16 + (number >> 6) % 8;
    immediate_form(rd, number % 8, rs1, (number >> 9) % 4096)
}

/// Puts the instruction made from a number.
#[tactic(auto, unfolding(crate::specs::Instructions::i386_bytes))]
fn put_instruction(code: &mut Vec<u8>, kind: Kind, number: u32) -> Result<(), AllocError>
    ensures { OnOk result (code.new.items ≡ code.old.items ++ instruction kind number) }
{
    match kind {
        Kind::Sparc => put_words(code, kind, &[sparc_word(number)]),
        Kind::I386 => {
            let operands = 0xC0 + 8 * (number % 8) + (number >> 3) % 4;
            code.extend_from_slice(&[0x81, operands as u8])?;
            put_words(code, kind, &[number >> 5])
        }
    }
}

/// Puts so many instructions, made from the next numbers.
pub fn put_instructions(
    code: &mut Vec<u8>,
    kind: Kind,
    numbers: &mut Numbers,
    size: u32,
) -> Result<(), AllocError>
    ensures bytes { OnOk result (code.new.items ≡ code.old.items ++ instructions kind numbers.old.state 0 size) }
    ensures state { OnOk result (numbers.new.state ≡ state_after numbers.old.state size) }
{
    for _k in 0..size {
        put_instruction(code, kind, numbers.next_number())?;
    }
    Ok(())
}
