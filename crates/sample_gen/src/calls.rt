//! The calls of all procedures, and the exit behind them.
ghost use Rattle.std.specs.Prelude.{◌≡◌, ◌≤◌, ◌<◌, ◌++◌, OnOk};
ghost use Rattle.sample_gen.specs.Program.{call, call_length, calls_of, exit_bytes, exit_length, instruction_length, return_length, start_of};

use super::bytes::put_words;
use super::kind::Kind;
use super::procedures::FULL;
use std::alloc::AllocError;

/// How many bytes the parts of a program take.
impl Kind {
    fn instruction_length(self) -> u32
        ensures { result ≡ instruction_length self }
    {
        match self {
            Kind::Sparc => 4,
            Kind::I386 => 6,
        }
    }

    fn return_length(self) -> u32
        ensures { result ≡ return_length self }
    {
        match self {
            Kind::Sparc => 8,
            Kind::I386 => 1,
        }
    }

    fn exit_length(self) -> u32
        ensures { result ≡ exit_length self }
    {
        match self {
            Kind::Sparc => 16,
            Kind::I386 => 14,
        }
    }

    fn call_length(self) -> u32
        ensures { result ≡ call_length self }
    {
        match self {
            Kind::Sparc => 8,
            Kind::I386 => 5,
        }
    }
}

/// Where the procedure at a place starts, behind so many calls.
fn start_of(kind: Kind, calls: u32, place: u32) -> u32
    requires calls { calls ≤ 400 }
    requires place { place < calls }
    ensures { result ≡ start_of kind calls place }
{
    let procedure = FULL * kind.instruction_length() + kind.return_length();
    calls * kind.call_length() + kind.exit_length() + place * procedure
}

/// Puts the call of the procedure at a place, which is the call at that place.
fn put_call(code: &mut Vec<u8>, kind: Kind, calls: u32, place: u32) -> Result<(), AllocError>
    requires calls { calls ≤ 400 }
    requires place { place < calls }
    ensures { OnOk result (code.new.items ≡ code.old.items ++ call kind calls place) }
{
    let start = start_of(kind, calls, place);
    let length = kind.call_length();
    match kind {
        Kind::Sparc => {
            let distance = (start - place * length) / 4;
            put_words(code, kind, &[(1 << 30) + distance, 0x0100_0000])
        }
        Kind::I386 => {
            let distance = start - (place + 1) * length;
            code.extend_from_slice(&[0xE8])?;
            put_words(code, kind, &[distance])
        }
    }
}

/// Puts so many calls, one of each procedure.
pub fn put_calls(code: &mut Vec<u8>, kind: Kind, calls: u32) -> Result<(), AllocError>
    requires { calls ≤ 400 }
    ensures { OnOk result (code.new.items ≡ code.old.items ++ calls_of kind calls) }
{
    for place in 0..calls {
        put_call(code, kind, calls, place)?;
    }
    Ok(())
}

/// Puts the exit.
pub fn put_exit(code: &mut Vec<u8>, kind: Kind) -> Result<(), AllocError>
    ensures { OnOk result (code.new.items ≡ code.old.items ++ exit_bytes kind) }
{
    match kind {
        Kind::Sparc => put_words(
            code,
            kind,
            &[0x900C_207F, 0x8210_2001, 0x91D0_2010, 0x0000_0000],
        ),
        Kind::I386 => code.extend_from_slice(&[
            0x83, 0xE0, 0x7F, 0x89, 0xC3, 0xB8, 0x01, 0x00, 0x00, 0x00, 0xCD, 0x80, 0x0F, 0x0B,
        ]),
    }
}
