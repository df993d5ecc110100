//! The operands of a constructor, and which of them a sequence binds.
ghost use Rattle.std.specs.Prelude.{◌≡◌, ◌==◌, ◌<◌, ◌≤◌, ◌++◌, IfOk, IfSome, OnOk, option_to_list, count_by, length};
ghost use Rattle.std.specs.List.{filter_map};
ghost use Rattle.sled_rules.specs.Meanings.{named};
ghost use Rattle.sled_rules.specs.Operands.{place, operand_of, is_listed, kind_of, kinds_of, name_binds, part_binds, item_binds, sequence_binds};

use crate::meaning::Meaning;
use crate::names::Names;
use rtl_core::{OperandKind, Width};
use sled_syntax::{Part, SledItem};
use sqlite_items::Items;
use std::alloc::{AllocError, Global};

/// The place of a name in an operand list.
pub fn place(ops: &[Items<u8>], name: &[u8]) -> Option<usize>
    ensures exact { result ≡ place ops.now name.now }
    ensures within { IfSome result (λ k. k < length ops.now) }
{
    ops.iter().position(|op| name == op.as_slice())
}

/// The number of an operand that is listed.
pub fn operand_of(ops: &[Items<u8>], name: &[u8]) -> usize
    ensures exact { result ≡ operand_of ops.now name.now }
    ensures within { result ≤ length ops.now }
{
    match place(ops, name) {
        None => 0,
        Some(at) => at,
    }
}

pub fn is_listed(ops: &[Items<u8>], name: &[u8]) -> bool
    ensures { result ≡ is_listed ops.now name.now }
{
    place(ops, name).is_some()
}

/// What an operand of this name holds: it is a field or a type.
pub fn kind_of(names: &Names, name: &[u8]) -> Option<OperandKind>
    ensures { result ≡ kind_of (named names.now name.now) }
{
    match names.named(name) {
        Some(Meaning::Field(field)) => Some(OperandKind::Field(Width::new(
            field.hi + 1 - field.lo,
        )?)),
        Some(Meaning::Type(kind)) => Some(OperandKind::Typed(*kind)),
        _ => None,
    }
}

/// Puts what an operand holds to the others, where it is there.
fn push_kind(kinds: &mut Items<OperandKind>, kind: Option<OperandKind>) -> Result<(), AllocError>
    ensures { OnOk result (kinds.new ≡ kinds.old ++ option_to_list kind) }
{
    if let Some(kind) = kind {
        kinds.push(kind)?;
    }
    Ok(())
}

/// What the operands hold.
pub fn kinds_of(
    alloc: Global,
    names: &Names,
    ops: &[Items<u8>],
) -> Result<Items<OperandKind>, AllocError>
    ensures { IfOk result (λ kinds. kinds ≡ kinds_of names.now ops.now) }
{
    let mut kinds = Items::new(alloc);
    for op in ops {
        push_kind(&mut kinds, kind_of(names, op.as_slice()))?;
    }
    Ok(kinds)
}

/// The operand that a name binds.
fn name_binds(names: &Names, ops: &[Items<u8>], name: &[u8]) -> Option<usize>
    ensures { result ≡ name_binds names.now ops.now name.now }
{
    match kind_of(names, name) {
        None => None,
        Some(_) => place(ops, name),
    }
}

/// The operand that a part binds; a test binds none.
fn part_binds(names: &Names, ops: &[Items<u8>], part: &Part) -> Option<usize>
    ensures { result ≡ part_binds names.now ops.now part.now }
{
    match part {
        Part::Equal(..) | Part::Differs(..) => None,
        Part::Lone(name) => name_binds(names, ops, name.as_slice()),
    }
}

/// Puts an operand to those that are bound, where there is one.
fn push_bound(binds: &mut Vec<usize>, operand: Option<usize>) -> Result<(), AllocError>
    ensures { OnOk result (binds.new.items ≡ binds.old.items ++ option_to_list operand) }
{
    if let Some(operand) = operand {
        binds.push(operand)?;
    }
    Ok(())
}

/// Puts the operands that an item binds to those that are bound.
fn push_item(
    names: &Names,
    ops: &[Items<u8>],
    item: &SledItem,
    binds: &mut Vec<usize>,
) -> Result<(), AllocError>
    ensures { OnOk result (binds.new.items ≡ binds.old.items ++ item_binds names.now ops.now item.now) }
{
    for part in item.parts.as_slice() {
        push_bound(binds, part_binds(names, ops, part))?;
    }
    match &item.rest {
        None => Ok(()),
        Some(rest) => push_bound(binds, name_binds(names, ops, rest.as_slice())),
    }
}

/// The operands that a sequence binds, in order.
pub fn sequence_binds(
    alloc: Global,
    names: &Names,
    ops: &[Items<u8>],
    items: &[SledItem],
) -> Result<Vec<usize>, AllocError>
    ensures { IfOk result (λ binds. binds.items ≡ sequence_binds names.now ops.now items.now) }
{
    let mut binds = Vec::new(alloc);
    for item in items {
        push_item(names, ops, item, &mut binds)?;
    }
    Ok(binds)
}

/// How often an operand is bound.
pub fn times(binds: &[usize], operand: usize) -> usize
    ensures { result ≡ count_by (λ j. j == operand) binds.now }
{
    binds.iter().filter(|bound| **bound == operand).count()
}
