//! Executables of 32 bits: an ELF file becomes its segments, its entry and the addresses of its functions, or its
//! first fault.
#![tactic(auto)]

mod checks;
mod elf;
mod fault;
mod headers;
mod numbers;
mod reading;
mod symbols;
mod taken;

ghost use Rattle.std.specs.Prelude.{◌≡◌, ◌≢◌, Ok, Err, IfOk, IfErr};
ghost use Rattle.elf32.specs.Reading.{elf_of, AreLoadable};
ghost use Rattle.elf32.specs.declared.fault.ElfFault.TheVariants as faults;

pub use elf::{Elf, Segment};
pub use fault::ElfFault;
use numbers::word;
use reading::{checked_loads, segments_of};
use rtl_core::{Conv, Order};
use std::alloc::Global;
use symbols::symbols;

/// An executable (System V ABI, "Object Files", of 32 bits) for a machine of this byte order and of the kind that the
/// conventions name.
///
/// A segment is what a `PT_LOAD` header with a byte in memory asks for. The symbols are the values of those `STT_FUNC`
/// symbols that a section holds, from the first `SHT_SYMTAB` that lies whole in the file; where there is none, or the
/// section headers are cut, there are none. An `Err` is the first fault in the order of `ElfFault`; `NoMemory` alone
/// may come in place of any answer.
pub fn read_elf(alloc: Global, file: &[u8], conv: &Conv, order: Order) -> Result<Elf, ElfFault>
    ensures elf { IfOk result (λ elf. elf_of file.now conv.now order ≡ Ok elf) }
    ensures fault { IfErr result (λ fault. fault ≢ faults.NoMemory → elf_of file.now conv.now order ≡ Err fault) }
    ensures loadable { IfOk result (λ elf. AreLoadable elf.segments) }
{
    let loads = checked_loads(alloc, file, conv, order)?;
    let segments = segments_of(alloc, file, &loads)?;
    let symbols = symbols(alloc, order, file)?;
    Ok(Elf {
        entry: word(order, file, 24),
        segments,
        symbols,
    })
}
