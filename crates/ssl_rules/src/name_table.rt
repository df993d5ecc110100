//! Tables of names.
ghost use Rattle.std.specs.Prelude.{◌≡◌, [], ◌∷◌, ◌++◌, None, OnOk, OnErr};
ghost use Rattle.ssl_rules.specs.Lookup.{named};

use indexmap::IndexMap;
use std::alloc::{AllocError, Global};
use std::marker::Model;

/// What names stand for. Contracts see a list of names with what each stands for, in the order in which they were
/// added.
#[derive(Drop)]
pub struct NameTable<T> {
    entries: IndexMap<Vec<u8>, T>,
    alloc: Global,
}

impl<T> Model for NameTable<T> {
    ghost use Rattle.std.specs.Prelude.{List, ℕ, map};

    ghost Value = { List (List ℕ × T) };

    ghost view = { λ s. map (λ e. (e.0.items, e.1)) s.entries.entries };
}

impl<T: Copy> NameTable<T> {
    /// No names.
    pub fn new(alloc: Global) -> NameTable<T>
        ensures { result ≡ [] }
    {
        NameTable {
            entries: IndexMap::new(alloc),
            alloc,
        }
    }

    /// Gives a name.
    pub fn add(&mut self, name: &[u8], value: T) -> Result<(), AllocError>
        requires fresh { named self.old name.now ≡ None }
        ensures added { OnOk result (self.new ≡ self.old ++ (name.now, value) ∷ []) }
        ensures refused { OnErr result (self.new ≡ self.old) }
    {
        let bytes = Vec::from_slice(self.alloc, name)?;
        self.entries.insert(bytes, value)?;
        Ok(())
    }

    /// What a name stands for.
    pub fn get(&self, name: &[u8]) -> Option<T>
        ensures { result ≡ named self.now name.now }
    {
        self.entries.get(name).copied()
    }
}
