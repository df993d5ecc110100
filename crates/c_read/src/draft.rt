//! The items of a text by their kinds, as they are read.
ghost use Rattle.std.specs.Prelude.{◌≡◌, OnOk};
ghost use Rattle.c_read.specs.Drafts.{AreParts, nothing, with_piece};

use super::pieces::Piece;
use c_rules::{Array, Parts, Prototype, Routine};
use sqlite_items::Items;
use std::alloc::{AllocError, Global};

/// The first call: the address of its function, and its arguments behind `ra`.
#[derive(Drop)]
pub struct FirstCall {
    entry: u32,
    first: Items<u64>,
}

/// The items so far, those of each kind in their order.
#[derive(Drop)]
pub struct Draft {
    machines: Items<Array>,
    segments: Items<Array>,
    tables: Items<Array>,
    prototypes: Items<Prototype>,
    functions: Items<Routine>,
    calls: Items<FirstCall>,
}

/// No items.
pub fn no_items(alloc: Global) -> Draft
    ensures { result ≡ nothing }
{
    Draft {
        machines: Items::new(alloc),
        segments: Items::new(alloc),
        tables: Items::new(alloc),
        prototypes: Items::new(alloc),
        functions: Items::new(alloc),
        calls: Items::new(alloc),
    }
}

/// One item more. The error is want of memory.
pub fn add(draft: &mut Draft, piece: Piece) -> Result<(), AllocError>
    ensures { OnOk result (draft.new ≡ with_piece draft.old piece) }
{
    match piece {
        Piece::Machine(array) => draft.machines.push(array)?,
        Piece::Segment(_, array) => draft.segments.push(array)?,
        Piece::Table(array) => draft.tables.push(array)?,
        Piece::Declared(prototype) => draft.prototypes.push(prototype)?,
        Piece::Defined(function) => draft.functions.push(function)?,
        Piece::Main(entry, first) => draft.calls.push(FirstCall { entry, first })?,
    }
    Ok(())
}

/// The parts of a text, where its items are there.
pub fn parts_of(draft: Draft) -> Option<Parts>
    ensures { AreParts draft result }
{
    let Draft {
        mut machines,
        segments,
        mut tables,
        prototypes,
        functions,
        mut calls,
    } = draft;
    let machine = machines.pop()?;
    let table = tables.pop()?;
    let FirstCall { entry, first } = calls.pop()?;
    Some(Parts {
        machine,
        segments,
        table,
        prototypes,
        functions,
        entry,
        first,
    })
}
