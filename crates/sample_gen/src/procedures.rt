//! Procedures, 50 instructions each, and fewer in the last.
ghost use Rattle.std.specs.Prelude.{◌≡◌, ◌≤◌, ◌*◌, ◌++◌, OnOk};
ghost use Rattle.sample_gen.specs.Numbers.{state_after};
ghost use Rattle.sample_gen.specs.Program.{instructions, procedures, procedure_count, procedure_size, return_bytes};

use super::bytes::put_words;
use super::instructions::put_instructions;
use super::kind::Kind;
use super::numbers::Numbers;
use std::alloc::AllocError;

/// How many instructions a procedure has that is not the last.
pub const FULL: u32 = 50;

/// How many procedures so many instructions take.
pub fn procedure_count(count: u32) -> u32
    requires { count ≤ 20000 }
    ensures { result ≡ procedure_count count }
{
    count.div_ceil(FULL)
}

/// How many instructions the procedure at a place has.
fn procedure_size(count: u32, place: u32) -> u32
    requires { 50 * place ≤ count }
    ensures { result ≡ procedure_size count place }
{
    FULL.min(count - FULL * place)
}

/// Puts the end of a procedure.
fn put_return(code: &mut Vec<u8>, kind: Kind) -> Result<(), AllocError>
    ensures { OnOk result (code.new.items ≡ code.old.items ++ return_bytes kind) }
{
    match kind {
        Kind::Sparc => put_words(code, kind, &[0x81C3_E008, 0x0100_0000]),
        Kind::I386 => code.extend_from_slice(&[0xC3]),
    }
}

/// Puts a procedure of so many instructions, made from the next numbers.
fn put_procedure(
    code: &mut Vec<u8>,
    kind: Kind,
    numbers: &mut Numbers,
    size: u32,
) -> Result<(), AllocError>
    ensures bytes { OnOk result (code.new.items ≡ code.old.items ++ (instructions kind numbers.old.state 0 size ++ return_bytes kind)) }
    ensures state { OnOk result (numbers.new.state ≡ state_after numbers.old.state size) }
{
    put_instructions(code, kind, numbers, size)?;
    put_return(code, kind)
}

/// Puts all procedures of a sample.
pub fn put_procedures(
    code: &mut Vec<u8>,
    kind: Kind,
    number: u64,
    count: u32,
) -> Result<(), AllocError>
    requires { count ≤ 20000 }
    ensures { OnOk result (code.new.items ≡ code.old.items ++ procedures kind number count) }
{
    let mut numbers = Numbers { state: number };
    for place in 0..procedure_count(count) {
        put_procedure(code, kind, &mut numbers, procedure_size(count, place))?;
    }
    Ok(())
}
