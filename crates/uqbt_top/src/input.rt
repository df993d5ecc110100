//! The input of a command, as a whole.
ghost use Rattle.std.specs.Prelude.{IfOk, IfErr};
ghost use Rattle.uqbt_top.specs.WholeInput.{IsInput, NoInput};

use crate::Outcome;
use crate::reading::are_bytes;
use edge_io::{ReadEnd, Source, read_all};
use std::alloc::Global;

/// The most bytes of input.
const MOST_INPUT: u64 = 16_777_216;

/// All of the input.
pub fn whole_input<S: Source>(alloc: Global, input: &mut S) -> Result<Vec<u8>, Outcome>
    ensures whole { IfOk result (λ bytes. IsInput (S.input input.old) (S.input input.new) bytes.items) }
    ensures refused { IfErr result (NoInput (S.input input.old) (S.input input.new)) }
{
    match read_all(alloc, input, MOST_INPUT) {
        Ok(bytes) => {
            are_bytes(bytes.as_slice());
            Ok(bytes)
        }
        Err(ReadEnd::Fault) => Err(Outcome::ReadFault),
        Err(ReadEnd::TooLong) => Err(Outcome::InputTooLong),
        Err(ReadEnd::NoMemory) => Err(Outcome::NoMemory),
    }
}
