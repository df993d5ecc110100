//! Names that no earlier line gives, and operands that are not bound.
ghost use Rattle.std.specs.Prelude.{◌≡◌, ◌==◌, ◌||◌, nat_lt, count_by, IfOk};
ghost use Rattle.std.specs.List.{list_all, list_any};
ghost use Rattle.sled_rules.specs.Meanings.{named, is_field, is_type};
ghost use Rattle.sled_rules.specs.Operands.{operand_of};
ghost use Rattle.sled_rules.specs.Faults.{are_known_operands, is_known_item, is_known_part, is_known_pattern, is_known_rest, is_lone, lacks, repeats, some_bound_twice, some_unbound};

use crate::meaning::Meaning;
use crate::names::Names;
use crate::operands::{is_listed, kind_of, operand_of, sequence_binds, times};
use sled_syntax::{Part, SledItem, SledPattern};
use sqlite_items::Items;
use std::alloc::{AllocError, Global};

fn is_field(names: &Names, name: &[u8]) -> bool
    ensures { result ≡ is_field (named names.now name.now) }
{
    matches!(names.named(name), Some(Meaning::Field(_)))
}

pub fn is_type(names: &Names, name: &[u8]) -> bool
    ensures { result ≡ is_type (named names.now name.now) }
{
    matches!(names.named(name), Some(Meaning::Type(_)))
}

/// A lone name: a pattern, or a field or a type that is listed.
fn is_lone(names: &Names, ops: &[Items<u8>], name: &[u8]) -> bool
    ensures { result ≡ is_lone ops.now name.now (named names.now name.now) }
{
    match names.named(name) {
        Some(Meaning::Field(_)) => is_listed(ops, name),
        Some(Meaning::Pattern(_)) => true,
        Some(Meaning::Type(_)) => is_listed(ops, name),
        _ => false,
    }
}

fn is_known_part(names: &Names, ops: &[Items<u8>], part: &Part) -> bool
    ensures { result ≡ is_known_part names.now ops.now part.now }
{
    match part {
        Part::Equal(name, _) | Part::Differs(name, _) => is_field(names, name.as_slice()),
        Part::Lone(name) => is_lone(names, ops, name.as_slice()),
    }
}

/// The name behind `... &` is a type that is listed.
fn is_known_rest(names: &Names, ops: &[Items<u8>], rest: &Option<Items<u8>>) -> bool
    ensures { result ≡ is_known_rest names.now ops.now rest.now }
{
    match rest {
        None => true,
        Some(name) => is_type(names, name.as_slice()) && is_listed(ops, name.as_slice()),
    }
}

fn are_known_parts(names: &Names, ops: &[Items<u8>], parts: &[Part]) -> bool
    ensures { result ≡ list_all (is_known_part names.now ops.now) parts.now }
{
    parts.iter().all(|part| is_known_part(names, ops, part))
}

fn is_known_item(names: &Names, ops: &[Items<u8>], item: &SledItem) -> bool
    ensures { result ≡ is_known_item names.now ops.now item.now }
{
    are_known_parts(names, ops, item.parts.as_slice()) && is_known_rest(names, ops, &item.rest)
}

fn is_known_sequence(names: &Names, ops: &[Items<u8>], items: &[SledItem]) -> bool
    ensures { result ≡ list_all (is_known_item names.now ops.now) items.now }
{
    items.iter().all(|item| is_known_item(names, ops, item))
}

/// Each name of a pattern is given, and of the kind that its place asks.
pub fn is_known_pattern(names: &Names, ops: &[Items<u8>], pattern: &SledPattern) -> bool
    ensures { result ≡ is_known_pattern names.now ops.now pattern.now }
{
    pattern
        .alternatives
        .as_slice()
        .iter()
        .all(|items| is_known_sequence(names, ops, items.as_slice()))
}

/// Each operand is a field or a type.
pub fn are_known_operands(names: &Names, ops: &[Items<u8>]) -> bool
    ensures { result ≡ are_known_operands names.now ops.now }
{
    ops.iter().all(|op| kind_of(names, op.as_slice()).is_some())
}

/// Some operand is not bound.
fn is_some_unbound(ops: &[Items<u8>], binds: &[usize]) -> bool
    ensures { result ≡ list_any (λ op. count_by (λ j. j == operand_of ops.now op) binds.now == 0) ops.now }
{
    ops.iter()
        .any(|op| times(binds, operand_of(ops, op.as_slice())) == 0)
}

/// Some operand is bound more than once.
fn is_some_repeated(ops: &[Items<u8>], binds: &[usize]) -> bool
    ensures { result ≡ list_any (λ op. nat_lt 1 (count_by (λ j. j == operand_of ops.now op) binds.now)) ops.now }
{
    ops.iter()
        .any(|op| times(binds, operand_of(ops, op.as_slice())) > 1)
}

/// Whether some sequence does not bind some operand, or binds some operand more than once.
#[derive(Clone, Copy, Debug)]
pub struct Binding {
    pub unbound: bool,
    pub twice: bool,
}

/// How a sequence binds the operands.
fn sequence_binding(
    alloc: Global,
    names: &Names,
    ops: &[Items<u8>],
    items: &[SledItem],
) -> Result<Binding, AllocError>
    ensures { IfOk result (λ b. (b.unbound ≡ lacks names.now ops.now items.now) × (b.twice ≡ repeats names.now ops.now items.now)) }
{
    let binds = sequence_binds(alloc, names, ops, items)?;
    Ok(Binding {
        unbound: is_some_unbound(ops, binds.as_slice()),
        twice: is_some_repeated(ops, binds.as_slice()),
    })
}

fn either(left: bool, right: bool) -> bool
    ensures { result ≡ (left || right) }
{
    left || right
}

/// How the sequences of a pattern bind the operands.
pub fn binding_of(
    alloc: Global,
    names: &Names,
    ops: &[Items<u8>],
    pattern: &SledPattern,
) -> Result<Binding, AllocError>
    ensures { IfOk result (λ b. (b.unbound ≡ some_unbound names.now ops.now pattern.now) × (b.twice ≡ some_bound_twice names.now ops.now pattern.now)) }
{
    let mut unbound = false;
    let mut twice = false;
    for items in pattern.alternatives.as_slice() {
        let found = sequence_binding(alloc, names, ops, items.as_slice())?;
        unbound = either(unbound, found.unbound);
        twice = either(twice, found.twice);
    }
    Ok(Binding { unbound, twice })
}
