//! A large program made from a number: an executable of SPARC or the 80386 with so many instructions.
#![tactic(auto)]

mod bytes;
mod calls;
mod executable;
mod fault;
mod instructions;
mod kind;
mod laws;
mod numbers;
mod procedures;
#[cfg(test)]
mod tests;

ghost use Rattle.std.specs.Prelude.{◌≡◌, ◌≤◌, ◌<◌, ◌↔◌, ◌⊎◌, Err, IfOk};
ghost use Rattle.sample_gen.specs.Executable.{sample_of};
ghost use Rattle.sample_gen.specs.Program.{code_of};
ghost use Rattle.sample_gen.specs.declared.fault.SampleFault.TheVariants as faults;

use calls::{put_calls, put_exit};
use executable::executable;
pub use fault::SampleFault;
pub use kind::Kind;
pub use laws::{calls_lead_to_procedures, calls_stand_in_order};
use procedures::{procedure_count, put_procedures};
use std::alloc::{AllocError, Global};

/// The most instructions of a sample.
const MOST: u32 = 20_000;

/// The code of a sample.
#[tactic(auto, unfolding(crate::specs::Program::code_of))]
fn code(alloc: Global, kind: Kind, number: u64, count: u32) -> Result<Vec<u8>, AllocError>
    requires { count ≤ 20000 }
    ensures { IfOk result (λ code. code.items ≡ code_of kind number count) }
{
    let mut code = Vec::new(alloc);
    put_calls(&mut code, kind, procedure_count(count))?;
    put_exit(&mut code, kind)?;
    put_procedures(&mut code, kind, number, count)?;
    Ok(code)
}

/// The executable of `count` instructions that are made from `number`, in procedures of 50 which it calls one after another.
///
/// The status of its exit is what the instructions leave in the low seven bits of a register. `Count` comes exactly where the
/// count is 0 or over 20,000.
pub fn sample(alloc: Global, kind: Kind, number: u64, count: u32) -> Result<Vec<u8>, SampleFault>
    ensures sample { IfOk result (λ file. file.items ≡ sample_of kind number count) }
    ensures count { (result ≡ Err faults.Count) ↔ ((count ≡ 0) ⊎ (20000 < count)) }
{
    if count == 0 || count > MOST {
        return Err(SampleFault::Count);
    }
    let code = code(alloc, kind, number, count)?;
    Ok(executable(alloc, kind, code.as_slice())?)
}
