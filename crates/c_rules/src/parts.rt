//! The parts of a C text, as its items say them.
ghost use Rattle.std.specs.Prelude.{◌≡◌, ◌<◌, ◌^◌};
ghost use Rattle.c_lang.specs.Items.{prototype_of};
ghost use Rattle.c_rules.specs.Parts.{array, function, prototype};

use c_lang::{CBlock, Function};
use sqlite_items::Items;
use std::marker::Model;

/// An array of a C text: the length that it declares, and its numbers.
#[derive(Drop)]
pub struct Array {
    declared: u64,
    numbers: Items<u64>,
}

impl Model for Array {
    ghost use Rattle.c_lang.specs.Items.{Array as SomeArray};

    ghost Value = { SomeArray };

    ghost view = { λ a. record { declared = a.declared; numbers = a.numbers } };
}

impl Array {
    /// The array that declares this length and has these numbers.
    pub fn new(declared: u64, numbers: Items<u64>) -> Self
        ensures { result ≡ array declared numbers }
    {
        Array { declared, numbers }
    }

    /// The length that it declares.
    pub fn declared(&self) -> u64
        ensures { result ≡ self.now.declared }
    {
        self.declared
    }

    /// Its numbers.
    pub fn numbers(&self) -> &[u64]
        ensures { result.now ≡ self.now.numbers }
    {
        self.numbers.as_slice()
    }
}

/// A function's address, and its parameters behind `ra`.
#[derive(Drop)]
pub struct Prototype {
    entry: u32,
    params: Items<u8>,
}

impl Model for Prototype {
    ghost use Rattle.c_lang.specs.Items.{Prototype as SomePrototype};

    ghost Value = { SomePrototype };

    ghost view = { λ p. record { entry = p.entry; params = p.params } };
}

impl Prototype {
    /// The prototype of this address with these parameters.
    pub fn new(entry: u32, params: Items<u8>) -> Self
        ensures { result ≡ prototype entry params }
    {
        Prototype { entry, params }
    }

    /// The function's address.
    pub fn entry(&self) -> u32
        ensures { result ≡ self.now.entry }
    {
        self.entry
    }

    /// The cells that are its parameters.
    pub fn params(&self) -> &[u8]
        ensures { result.now ≡ self.now.params }
    {
        self.params.as_slice()
    }

    /// Its address and its parameters.
    pub fn into_parts(self) -> (u32, Items<u8>)
        ensures { self ≡ prototype result.0 result.1 }
    {
        let Prototype { entry, params } = self;
        (entry, params)
    }
}

/// A function of a C text as its item says it; it may declare one temporary more than a function of a program can.
#[derive(Drop)]
pub struct Routine {
    head: Prototype,
    cells: Items<u8>,
    temps: u32,
    blocks: Items<CBlock>,
}

impl Model for Routine {
    ghost use Rattle.std.specs.Coded.{codes};
    ghost use Rattle.c_lang.specs.contracts.tree.Stmt as stmt;
    ghost use Rattle.c_lang.specs.contracts.tree.CExpr as expr;
    ghost use Rattle.c_lang.specs.declared.tree.Function.{Function};

    ghost Value = { Function };

    ghost coded = { Prim.hlevel (codes, stmt.the_row.coded, expr.the_row.coded) };

    ghost use Rattle.c_rules.specs.Parts.{function};

    ghost view = { λ r. function r.head r.cells r.temps r.blocks };
}

impl Routine {
    /// The function of a head, with these cells, so many temporaries, and these blocks.
    pub fn new(head: Prototype, cells: Items<u8>, temps: u32, blocks: Items<CBlock>) -> Self
        ensures { result ≡ function head cells temps blocks }
    {
        Routine {
            head,
            cells,
            temps,
            blocks,
        }
    }

    /// Its address and its parameters.
    pub fn head(&self) -> &Prototype
        ensures { result.now ≡ prototype_of self.now }
    {
        &self.head
    }

    /// The cells that it declares besides.
    pub fn cells(&self) -> &[u8]
        ensures { result.now ≡ self.now.cells }
    {
        self.cells.as_slice()
    }

    /// How many temporaries it declares.
    pub fn temps(&self) -> u32
        ensures { result ≡ self.now.temps }
    {
        self.temps
    }

    /// Its blocks.
    pub fn blocks(&self) -> &[CBlock]
        ensures { result.now ≡ self.now.blocks }
    {
        self.blocks.as_slice()
    }

    /// The function of a program, where it has no more temporaries than one can have.
    pub fn into_function(self) -> Function
        requires { self.temps < 2 ^ 16 }
        ensures { result ≡ self }
    {
        let Routine {
            head,
            cells,
            temps,
            blocks,
        } = self;
        let (entry, params) = head.into_parts();
        Function {
            entry,
            params,
            cells,
            temps: temps as u16,
            blocks,
        }
    }
}

/// The items of a C text: `uq_machine`, the arrays `uq_seg_K`, `uq_segs`, the prototypes, the functions, and the call of the
/// first function with its arguments behind `ra`.
#[derive(Drop)]
pub struct Parts {
    pub machine: Array,
    pub segments: Items<Array>,
    pub table: Array,
    pub prototypes: Items<Prototype>,
    pub functions: Items<Routine>,
    pub entry: u32,
    pub first: Items<u64>,
}
