//! The constructors of each type.
ghost use Rattle.std.specs.Prelude.{◌≡◌, ◌<◌, [], ◌∷◌, ◌++◌, OnOk, length, slice_get, slice_set, unwrap_or};

use sqlite_items::Items;
use std::alloc::{AllocError, Global};
use std::marker::Model;

/// Lists of numbers, each of which can grow. Contracts see them as lists.
#[derive(Debug, Drop)]
pub struct Lists {
    lists: Vec<Items<u16>>,
    alloc: Global,
}

impl Model for Lists {
    ghost use Rattle.std.specs.Prelude.{List, ℕ};
    ghost use Rattle.std.specs.Coded.{coded_list, coded_ℕ};

    ghost Value = { List (List ℕ) };

    ghost coded = { coded_list (coded_list coded_ℕ) };

    ghost view = { λ s. s.lists.items };
}

impl Lists {
    /// No lists.
    pub fn new(alloc: Global) -> Lists
        ensures { result ≡ [] }
    {
        Lists {
            lists: Vec::new(alloc),
            alloc,
        }
    }

    pub fn len(&self) -> usize
        ensures { result ≡ length self.now }
    {
        self.lists.len()
    }

    /// One list more, which is empty.
    pub fn open(&mut self) -> Result<(), AllocError>
        ensures { OnOk result (self.new ≡ self.old ++ [] ∷ []) }
    {
        self.lists.push(Items::new(self.alloc))?;
        Ok(())
    }

    /// Puts a number at the end of a list, where the list is there.
    pub fn add(&mut self, at: usize, number: u16) -> Result<(), AllocError>
        ensures { OnOk result (self.new ≡ slice_set self.old at (unwrap_or (slice_get self.old at) [] ++ number ∷ [])) }
    {
        if at < self.lists.len() {
            self.lists[at].push(number)?;
        }
        Ok(())
    }

    /// The lists as they are.
    pub fn into_items(self) -> Items<Items<u16>>
        ensures { result ≡ self }
    {
        let Lists { lists, alloc: _ } = self;
        Items::from_vec(lists)
    }
}
