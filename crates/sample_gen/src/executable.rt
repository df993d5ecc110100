//! The executable of a code (System V ABI, "Object Files").
ghost use Rattle.std.specs.Prelude.{◌≡◌, ◌<◌, ◌^◌, ◌++◌, IfOk, OnOk, length};
ghost use Rattle.sample_gen.specs.Executable.{base, executable_of, file_header, identification, machine_number, order_byte, program_header};

use super::bytes::{put_halves, put_words};
use super::kind::Kind;
use std::alloc::{AllocError, Global};

/// How many bytes the file header and the program header take.
const FILE_HEADER: u16 = 52;

const PROGRAM_HEADER: u16 = 32;

/// What a header says of the machine.
impl Kind {
    /// `EI_DATA`
    fn order_byte(self) -> u8
        ensures { result ≡ order_byte self }
    {
        match self {
            Kind::Sparc => 2,
            Kind::I386 => 1,
        }
    }

    /// `e_machine`
    fn machine_number(self) -> u16
        ensures { result ≡ machine_number self }
    {
        match self {
            Kind::Sparc => 2,
            Kind::I386 => 3,
        }
    }

    /// The address of the code.
    fn base(self) -> u32
        ensures { result ≡ base self }
    {
        match self {
            Kind::Sparc => 0x0001_0000,
            Kind::I386 => 0x0804_8000,
        }
    }
}

/// Puts the identification of a file.
fn put_identification(file: &mut Vec<u8>, kind: Kind) -> Result<(), AllocError>
    ensures { OnOk result (file.new.items ≡ file.old.items ++ identification kind) }
{
    let order = kind.order_byte();
    file.extend_from_slice(&[
        0x7F, 0x45, 0x4C, 0x46, 1, order, 1, 0, 0, 0, 0, 0, 0, 0, 0, 0,
    ])
}

/// Puts the file header.
#[tactic(auto, unfolding(crate::specs::Executable::file_header))]
fn put_file_header(file: &mut Vec<u8>, kind: Kind) -> Result<(), AllocError>
    ensures { OnOk result (file.new.items ≡ file.old.items ++ file_header kind) }
{
    put_identification(file, kind)?;
    put_halves(file, kind, &[2, kind.machine_number()])?;
    put_words(file, kind, &[1, kind.base(), u32::from(FILE_HEADER), 0, 0])?;
    put_halves(file, kind, &[FILE_HEADER, PROGRAM_HEADER, 1, 0, 0, 0])
}

/// Puts the header of a segment of so many bytes behind both headers.
#[tactic(auto, unfolding(crate::specs::Executable::program_header))]
fn put_program_header(file: &mut Vec<u8>, kind: Kind, size: u32) -> Result<(), AllocError>
    ensures { OnOk result (file.new.items ≡ file.old.items ++ program_header kind size) }
{
    let offset = u32::from(FILE_HEADER) + u32::from(PROGRAM_HEADER);
    put_words(
        file,
        kind,
        &[1, offset, kind.base(), kind.base(), size, size, 5, 4],
    )
}

/// The executable of a code.
#[tactic(auto, unfolding(crate::specs::Executable::executable_of))]
pub fn executable(alloc: Global, kind: Kind, code: &[u8]) -> Result<Vec<u8>, AllocError>
    requires { length code.now < 2 ^ 32 }
    ensures { IfOk result (λ file. file.items ≡ executable_of kind code.now) }
{
    let mut file = Vec::new(alloc);
    put_file_header(&mut file, kind)?;
    put_program_header(&mut file, kind, code.len() as u32)?;
    file.extend_from_slice(code)?;
    Ok(file)
}
