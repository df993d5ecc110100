//! Matched and ground instructions.
ghost use Rattle.std.specs.Prelude.{◌≡◌, ◌==◌, ◌<◌, ◌≤◌, [], ◌∷◌, ◌++◌, length};

use crate::transfer::Transfer;
use smallvec::SmallVec;
use sqlite_items::Items;
use std::alloc::Global;
use std::marker::Model;

/// At most eight numbers, which lie in the value itself. Contracts see them as a list.
#[derive(PartialEq, Eq, Drop)]
pub struct Leaves {
    numbers: SmallVec<u32, 8>,
}

impl Model for Leaves {
    ghost use Rattle.std.specs.Prelude.{ℕ, List, ◌≡◌, ◌≤◌, length};
    ghost use Rattle.std.specs.Coded.{coded_list, coded_ℕ};
    ghost use Rattle.std.proofs.Common.{sym, ap};

    ghost Value = { List ℕ };

    ghost coded = { coded_list coded_ℕ };

    ghost view = { λ s. s.numbers.items };

    ghost invariant = { λ s. (s.numbers.capacity ≡ 8) × (length s.numbers.items ≤ 8) };

    ghost inverse = { λ l. record { numbers = record { items = l; capacity = 8 } } };

    ghost inverse_ok = { λ a h. ap (λ n. record { numbers = record { items = a.numbers.items; capacity = n } }) (sym h.0) };
}

impl Leaves {
    /// No numbers.
    pub fn new(alloc: Global) -> Leaves
        ensures { result ≡ [] }
    {
        Leaves {
            numbers: SmallVec::new(alloc),
        }
    }

    /// Adds a number at the end; takes no memory.
    pub fn push(&mut self, leaf: u32)
        requires { length self.old < 8 }
        ensures { self.new ≡ self.old ++ leaf ∷ [] }
    {
        self.numbers.push_reserved(leaf);
    }

    /// How many numbers there are.
    pub fn len(&self) -> usize
        ensures exact { result ≡ length self.now }
        ensures few { length self.now ≤ 8 }
    {
        self.numbers.len()
    }

    /// Whether there is none.
    pub fn is_empty(&self) -> bool
        ensures { result ≡ (length self.now == 0) }
    {
        self.numbers.len() == 0
    }

    /// The numbers in order.
    pub fn as_slice(&self) -> &[u32]
        ensures { result.now ≡ self.now }
    {
        self.numbers.as_slice()
    }
}

/// A matched instruction. The leaves are its operands as one flat list: a field operand's value; for a typed
/// operand the number of the chosen constructor, and then its operands.
#[derive(PartialEq, Eq, Drop)]
pub struct Inst {
    pub constructor: u16,
    pub leaves: Leaves,
}

/// An instruction whose operands and addresses are put in: `next` is the address behind it.
#[derive(Debug, Drop)]
pub struct GroundInst {
    pub constructor: u16,
    pub next: u32,
    pub transfers: Items<Transfer>,
}
