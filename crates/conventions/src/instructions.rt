//! The instructions by their names.
ghost use Rattle.std.specs.Prelude.{◌≡◌, IfOk, OnOk, None, [], ◌∷◌, ◌++◌};
ghost use Rattle.conventions.specs.Names.{Adds, FindsSame, instruction_numbers, instruction_of, instructions, name_of};

use indexmap::IndexMap;
use rtl_core::Encodings;
use std::alloc::{AllocError, Global};
use std::marker::Model;

/// The constructors of type instruction by their names. Contracts see a list of the names with the constructors'
/// numbers.
#[derive(Debug, Drop)]
pub struct Instructions {
    numbers: IndexMap<Vec<u8>, u16>,
}

impl Model for Instructions {
    ghost use Rattle.std.specs.Prelude.{List, ℕ, map};

    ghost Value = { List (List ℕ × ℕ) };

    ghost view = { λ s. map (λ e. (e.0.items, e.1)) s.numbers.entries };
}

impl Instructions {
    /// Those of the encodings; of several with one name the first.
    #[tactic(auto, using(crate::proofs::Tables::none_named))]
    pub fn of(alloc: Global, enc: &Encodings) -> Result<Instructions, AllocError>
        ensures { IfOk result (λ table. FindsSame table (instructions enc.now)) }
    {
        let mut table = Instructions {
            numbers: IndexMap::new(alloc),
        };
        for number in instruction_numbers(enc) {
            let name = name_of(enc, *number);
            table.add(alloc, name, *number)?;
        }
        Ok(table)
    }

    /// One more name, unless it is there.
    #[tactic(auto, using(crate::proofs::Tables::pushed_adds, crate::proofs::Tables::there_adds))]
    fn add(&mut self, alloc: Global, name: &[u8], number: u16) -> Result<(), AllocError>
        ensures { OnOk result (Adds self.old self.new name.now number) }
    {
        if self.number_of(name).is_some() {
            return Ok(());
        }
        self.push(alloc, name, number)
    }

    /// One more name, which is new.
    fn push(&mut self, alloc: Global, name: &[u8], number: u16) -> Result<(), AllocError>
        requires { instruction_of self.old name.now ≡ None }
        ensures { OnOk result (self.new ≡ self.old ++ (name.now, number) ∷ []) }
    {
        let bytes = Vec::from_slice(alloc, name)?;
        self.numbers.insert(bytes, number)?;
        Ok(())
    }

    /// The instruction of a name.
    pub fn number_of(&self, name: &[u8]) -> Option<u16>
        ensures { result ≡ instruction_of self.now name.now }
    {
        self.numbers.get(name).copied()
    }
}

/// The numbers of the instructions.
fn instruction_numbers(enc: &Encodings) -> &[u16]
    ensures { result.now ≡ instruction_numbers enc.now }
{
    match enc.types.get(0) {
        Some(numbers) => numbers.as_slice(),
        None => &[],
    }
}

/// The name of a constructor.
fn name_of(enc: &Encodings, number: u16) -> &[u8]
    ensures { result.now ≡ name_of enc.now number }
{
    match enc.constructors.get(usize::from(number)) {
        Some(constructor) => constructor.name.as_slice(),
        None => &[],
    }
}
