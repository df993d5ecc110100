//! One line after another: its checks, and what it gives.
ghost use Rattle.std.specs.Prelude.{◌≡◌, ◌≢◌, ◌∷◌, [], ◌<◌, ◌≤◌, false, length, IfOk, OnOk, MatchResult};
ghost use Rattle.std.specs.List.{list_any};
ghost use Rattle.rtl_core.specs.SoundEncodings.{list_size};
ghost use Rattle.sled_rules.specs.Meanings.{named};
ghost use Rattle.sled_rules.specs.Alternatives.{alternatives};
ghost use Rattle.sled_rules.specs.Sizes.{is_large, is_long, most_of};
ghost use Rattle.sled_rules.specs.Counts.{IsCounted};
ghost use Rattle.sled_rules.specs.Known.{coded, size_of, type_name, with_constructor, with_fields, with_line, with_order, with_pattern};
ghost use Rattle.sled_rules.specs.Faults.{constructor_checks, constructor_fault, fields_fault, first_broken, is_late, is_unknown, large_fault, line_fault, pattern_checks, pattern_fault, size_fault, some_unbound};

use crate::counting::has_many;
use crate::expanding::alternatives;
use crate::facts::is_used;
use crate::fault::SledFault;
use crate::known::{Known, Size, add_constructor, give_fields, give_type, type_number};
use crate::meaning::{Meaning, NamedPattern};
use crate::names::Names;
use crate::operands::{is_listed, kinds_of};
use crate::ranges::{are_outside, is_over_pattern};
use crate::sizes::{is_some_long, list_size, longest};
use crate::starts::pattern_start;
use crate::taken::{are_taken, is_constructor_taken, is_listed_twice};
use crate::tokens::is_mixed_pattern;
use crate::unknown::{are_known_operands, binding_of, is_known_pattern};
use rtl_core::{Coded, Item, Order};
use sled_syntax::{FieldDef, SledBody, SledLine, SledPattern};
use sqlite_items::Items;
use std::alloc::{AllocError, Global};

/// `order big` or `order little`.
fn order_line(known: &mut Known, line: u32, big: bool) -> Result<(), SledFault>
    ensures taken { MatchResult result (λ _. line_fault known.old line (SledBody.ByteOrder big) ≡ None) (λ f. line_fault known.old line (SledBody.ByteOrder big) ≡ Some f) }
    ensures gives { OnOk result (known.new ≡ with_order big known.old) }
{
    if known.order.is_some() {
        return Err(SledFault::Twice { line });
    }
    known.order = Some(if big { Order::Big } else { Order::Little });
    Ok(())
}

/// The fault of a line of fields.
fn fields_fault(
    alloc: Global,
    known: &Known,
    line: u32,
    token: &[u8],
    width: u64,
    fields: &[FieldDef],
) -> Result<Option<SledFault>, AllocError>
    ensures { IfOk result (λ fault. fault ≡ fields_fault known.now line token.now width fields.now) }
{
    if known.order.is_none() {
        return Ok(Some(SledFault::Unknown { line }));
    }
    if are_taken(alloc, &known.names, token, fields)? {
        return Ok(Some(SledFault::Twice { line }));
    }
    if are_outside(width, fields) {
        return Ok(Some(SledFault::FieldRange { line }));
    }
    if known.fields.saturating_add(fields.len()) > 4096 {
        return Ok(Some(SledFault::TooMany { line }));
    }
    Ok(None)
}

/// `fields of TOKEN ( W )` and its fields.
#[tactic(auto, using(crate::proofs::LineLaws::fine_fields, crate::proofs::LineLaws::inside_all))]
fn fields_line(
    alloc: Global,
    known: &mut Known,
    line: u32,
    token: &[u8],
    width: u64,
    fields: &[FieldDef],
) -> Result<(), SledFault>
    ensures taken { MatchResult result (λ _. fields_fault known.old line token.now width fields.now ≡ None) (λ f. f ≢ SledFault.NoMemory → fields_fault known.old line token.now width fields.now ≡ Some f) }
    ensures gives { OnOk result (known.new ≡ with_fields token.now width fields.now known.old) }
{
    if let Some(fault) = fields_fault(alloc, known, line, token, width, fields)? {
        return Err(fault);
    }
    give_fields(&mut known.names, token, width as u8, fields)?;
    known.fields += fields.len();
    Ok(())
}

/// The fault of a pattern before its size is asked.
fn pattern_checks(known: &Known, line: u32, name: &[u8], pattern: &SledPattern) -> Option<SledFault>
    ensures { result ≡ first_broken (pattern_checks known.now line name.now pattern.now) }
{
    if !is_known_pattern(&known.names, &[], pattern) {
        return Some(SledFault::Unknown { line });
    }
    if known.names.is_taken(name) {
        return Some(SledFault::Twice { line });
    }
    if is_over_pattern(&known.names, pattern) {
        return Some(SledFault::FieldRange { line });
    }
    if is_mixed_pattern(&known.names, known.facts.as_slice(), pattern) {
        return Some(SledFault::TokenMixed { line });
    }
    None
}

/// The alternatives of a pattern, which are within the limits.
fn expanded(
    alloc: Global,
    known: &Known,
    line: u32,
    ops: &[Items<u8>],
    pattern: &SledPattern,
) -> Result<Items<Items<Item>>, SledFault>
    requires { length ops.now ≤ 8 }
    ensures taken { MatchResult result (λ _. is_large known.now.facts (alternatives known.now.names ops.now pattern.now) ≡ false) (λ f. f ≢ SledFault.NoMemory → large_fault known.now line ops.now pattern.now ≡ Some f) }
    ensures value { IfOk result (λ all. all ≡ alternatives known.now.names ops.now pattern.now) }
{
    if has_many(&known.names, pattern) {
        return Err(SledFault::TooMany { line });
    }
    let all = alternatives(alloc, &known.names, ops, pattern)?;
    if is_some_long(known.facts.as_slice(), all.as_slice()) {
        return Err(SledFault::TooMany { line });
    }
    Ok(all)
}

/// `pattern NAME is P`.
#[tactic(auto, using(crate::proofs::LineLaws::fine_pattern))]
fn pattern_line(
    alloc: Global,
    known: &mut Known,
    line: u32,
    name: &[u8],
    pattern: &SledPattern,
) -> Result<(), SledFault>
    ensures taken { MatchResult result (λ _. pattern_fault known.old line name.now pattern.now ≡ None) (λ f. f ≢ SledFault.NoMemory → pattern_fault known.old line name.now pattern.now ≡ Some f) }
    ensures gives { OnOk result (known.new ≡ with_pattern name.now pattern.now known.old) }
{
    if let Some(fault) = pattern_checks(known, line, name, pattern) {
        return Err(fault);
    }
    let all = expanded(alloc, known, line, &[], pattern)?;
    let start = pattern_start(&known.names, known.facts.as_slice(), pattern);
    let meaning = Meaning::Pattern(NamedPattern {
        alternatives: all,
        start,
    });
    known.names.give(name, meaning)?;
    Ok(())
}

/// The constructor is of a type that an earlier line uses as operand, or this one.
fn is_late(known: &Known, ops: &[Items<u8>], type_name: &[u8]) -> bool
    ensures { result ≡ is_late known.now.facts ops.now type_name.now (named known.now.names type_name.now) }
{
    match known.names.named(type_name) {
        Some(Meaning::Type(kind)) => {
            is_used(known.facts.as_slice(), *kind) || is_listed(ops, type_name)
        },
        _ => false,
    }
}

/// The constructor has an unknown name, or does not bind an operand.
fn is_unknown(names: &Names, ops: &[Items<u8>], pattern: &SledPattern, unbound: bool) -> bool
    ensures { unbound ≡ some_unbound names.now ops.now pattern.now → result ≡ is_unknown names.now ops.now pattern.now }
{
    !(are_known_operands(names, ops) && is_known_pattern(names, ops, pattern)) || unbound
}

/// The fault of a constructor before its size is asked.
fn constructor_checks(
    alloc: Global,
    known: &Known,
    line: u32,
    name: &[u8],
    ops: &[Items<u8>],
    type_name: &[u8],
    pattern: &SledPattern,
) -> Result<Option<SledFault>, AllocError>
    ensures { IfOk result (λ fault. fault ≡ first_broken (constructor_checks known.now line name.now ops.now type_name.now pattern.now)) }
{
    let binding = binding_of(alloc, &known.names, ops, pattern)?;
    if is_unknown(&known.names, ops, pattern, binding.unbound) {
        return Ok(Some(SledFault::Unknown { line }));
    }
    if is_constructor_taken(&known.names, name, type_name)
        || is_listed_twice(ops)
        || binding.twice
    {
        return Ok(Some(SledFault::Twice { line }));
    }
    if is_over_pattern(&known.names, pattern) {
        return Ok(Some(SledFault::FieldRange { line }));
    }
    if is_mixed_pattern(&known.names, known.facts.as_slice(), pattern) {
        return Ok(Some(SledFault::TokenMixed { line }));
    }
    if is_late(known, ops, type_name) {
        return Ok(Some(SledFault::TypeOrder { line }));
    }
    let kinds = kinds_of(alloc, &known.names, ops)?;
    if list_size(known.facts.as_slice(), kinds.as_slice()) > 8 {
        return Ok(Some(SledFault::TooManyOperands { line }));
    }
    Ok(None)
}

/// A constructor with its kinds and alternatives, which are within the limits.
fn coded(
    alloc: Global,
    known: &Known,
    line: u32,
    name: &[u8],
    ops: &[Items<u8>],
    pattern: &SledPattern,
) -> Result<Coded, SledFault>
    requires { length ops.now ≤ 8 }
    ensures taken { MatchResult result (λ c. size_fault known.now line ops.now pattern.now ≡ None) (λ f. f ≢ SledFault.NoMemory → size_fault known.now line ops.now pattern.now ≡ Some f) }
    ensures value { IfOk result (λ c. c ≡ coded name.now ops.now pattern.now known.now) }
{
    if known.constructors.len() >= 4096 {
        return Err(SledFault::TooMany { line });
    }
    let all = expanded(alloc, known, line, ops, pattern)?;
    Ok(Coded {
        name: Items::from_slice(alloc, name)?,
        kinds: kinds_of(alloc, &known.names, ops)?,
        alternatives: all,
    })
}

/// How much a constructor takes, which is within the limits.
fn size_of(known: &Known, pattern: &SledPattern, coded: &Coded) -> Size
    requires numbers { list_size (most_of known.now.facts) coded.now.kinds ≤ 8 }
    requires bytes { list_any (is_long known.now.facts) coded.now.alternatives ≡ false }
    ensures { result ≡ size_of pattern.now coded.now known.now }
{
    let facts = known.facts.as_slice();
    Size {
        start: pattern_start(&known.names, facts, pattern),
        numbers: list_size(facts, coded.kinds.as_slice()),
        bytes: longest(facts, coded.alternatives.as_slice()),
    }
}

/// `constructor NAME OPS : TYPE is P`.
fn constructor_line(
    alloc: Global,
    known: &mut Known,
    line: u32,
    name: &[u8],
    ops: &[Items<u8>],
    type_name: &[u8],
    pattern: &SledPattern,
) -> Result<(), SledFault>
    requires { IsCounted known.old }
    ensures taken { MatchResult result (λ _. constructor_fault known.old line name.now ops.now type_name.now pattern.now ≡ None) (λ f. f ≢ SledFault.NoMemory → constructor_fault known.old line name.now ops.now type_name.now pattern.now ≡ Some f) }
    ensures gives { OnOk result (known.new ≡ with_constructor name.now ops.now type_name.now pattern.now known.old) }
{
    if let Some(fault) = constructor_checks(alloc, known, line, name, ops, type_name, pattern)? {
        return Err(fault);
    }
    let coded = coded(alloc, known, line, name, ops, pattern)?;
    let size = size_of(known, pattern, &coded);
    let kind = type_number(known, type_name);
    give_type(known, type_name)?;
    add_constructor(known, kind, size, coded)?;
    Ok(())
}

/// The type of a constructor; without one it is an instruction.
fn type_name(of_type: &Option<Items<u8>>) -> &[u8]
    ensures { result.now ≡ type_name of_type.now }
{
    match of_type {
        None => b"instruction".as_slice(),
        Some(name) => name.as_slice(),
    }
}

/// Takes a line in, behind those that are known.
pub fn take_line(alloc: Global, known: &mut Known, line: &SledLine) -> Result<(), SledFault>
    requires { IsCounted known.old }
    ensures taken { MatchResult result (λ _. line_fault known.old line.now.number line.now.body ≡ None) (λ f. f ≢ SledFault.NoMemory → line_fault known.old line.now.number line.now.body ≡ Some f) }
    ensures gives { OnOk result (known.new ≡ with_line known.old line.now.body) }
{
    let number = line.number;
    match &line.body {
        SledBody::ByteOrder { big } => order_line(known, number, *big),
        SledBody::Fields {
            token,
            width,
            fields,
        } => fields_line(
            alloc,
            known,
            number,
            token.as_slice(),
            *width,
            fields.as_slice(),
        ),
        SledBody::Pattern { name, pattern } => {
            pattern_line(alloc, known, number, name.as_slice(), pattern)
        },
        SledBody::Constructor {
            name,
            ops,
            of_type,
            pattern,
        } => constructor_line(
            alloc,
            known,
            number,
            name.as_slice(),
            ops.as_slice(),
            type_name(of_type),
            pattern,
        ),
    }
}
