//! The least item of a C text that breaks a static rule.
ghost use Rattle.std.specs.Prelude.{◌≡◌, ◌+◌, ◌<◌, ◌^◌, [], IfOk, None, length};
ghost use Rattle.c_lang.specs.Items.{Declared, Defined, numbered};
ghost use Rattle.c_lang.specs.StaticRules.{first_broken, static_fault};
ghost use Rattle.c_rules.specs.Scopes.{Lists};
ghost use Rattle.c_rules.specs.Texts.{code_items, text, told};

use super::arrays::{broken_segment, machine_rule, table_rule};
use super::functions::{function_rule, main_rule, prototype_rule};
use super::parts::Parts;
use indexmap::IndexMap;
use std::alloc::{AllocError, Global};

/// An item that breaks a static rule.
#[derive(Clone, Copy, Debug, PartialEq, Eq, Drop)]
pub struct Broken {
    /// The item's number: 0 is the first line, 1 `uq_machine`, and so on in their order.
    pub item: u32,
    /// The number of the least rule that it breaks: 1 something declared twice, 2 a name, label or function that is not
    /// declared, 3 a wrong number of arguments, 4 a size, a length or a flag, 5 segments and areas, 6 too many declarations.
    pub rule: u8,
}

/// The first prototype that breaks a rule; else the map has all prototypes' counts of parameters. The error is want of memory.
fn broken_prototype(
    alloc: Global,
    calls: &mut IndexMap<u32, usize>,
    parts: &Parts,
    first: u32,
) -> Result<Option<Broken>, AllocError>
    requires { first + length parts.now.prototypes < 2 ^ 32 }
    ensures found { IfOk result (λ found. Lists calls.old [] → told found ≡ first_broken (text parts.now) first (numbered Declared 0 parts.now.prototypes)) }
    ensures listed { IfOk result (λ found. Lists calls.old [] → found ≡ None → Lists calls.new parts.now.prototypes) }
{
    for (index, prototype) in parts.prototypes.as_slice().iter().enumerate() {
        let functions = parts.functions.as_slice();
        if let Some(rule) = prototype_rule(alloc, calls, prototype, functions, index)? {
            return Ok(Some(Broken {
                item: first + index as u32,
                rule,
            }));
        }
    }
    Ok(None)
}

/// The first function that breaks a rule. The error is want of memory.
fn broken_function(
    alloc: Global,
    calls: &IndexMap<u32, usize>,
    parts: &Parts,
    first: u32,
) -> Result<Option<Broken>, AllocError>
    requires { first + length parts.now.functions < 2 ^ 32 }
    ensures { IfOk result (λ found. Lists calls.now parts.now.prototypes → told found ≡ first_broken (text parts.now) first (numbered Defined 0 parts.now.functions)) }
{
    for (index, function) in parts.functions.as_slice().iter().enumerate() {
        let prototypes = parts.prototypes.as_slice();
        if let Some(rule) = function_rule(alloc, calls, function, prototypes, index)? {
            return Ok(Some(Broken {
                item: first + index as u32,
                rule,
            }));
        }
    }
    Ok(None)
}

/// What is broken of the functions and the first call. The error is want of memory.
fn broken_code(alloc: Global, parts: &Parts, first: u32) -> Result<Option<Broken>, AllocError>
    requires { first + length parts.now.prototypes + length parts.now.functions < 2 ^ 32 }
    ensures { IfOk result (λ found. told found ≡ first_broken (text parts.now) first (code_items (text parts.now))) }
{
    let mut calls = IndexMap::new(alloc);
    if let Some(broken) = broken_prototype(alloc, &mut calls, parts, first)? {
        return Ok(Some(broken));
    }
    let behind = first + parts.prototypes.len() as u32;
    if let Some(broken) = broken_function(alloc, &calls, parts, behind)? {
        return Ok(Some(broken));
    }
    if let Some(rule) = main_rule(&calls, parts.entry, parts.first.len()) {
        let item = behind + parts.functions.len() as u32;
        return Ok(Some(Broken { item, rule }));
    }
    Ok(None)
}

/// The least item of a C text that breaks a static rule, and the least rule that it breaks. The error is want of memory.
pub fn static_fault(alloc: Global, parts: &Parts) -> Result<Option<Broken>, AllocError>
    requires { 3 + length parts.now.segments + length parts.now.prototypes + length parts.now.functions < 2 ^ 32 }
    ensures { IfOk result (λ found. told found ≡ static_fault (text parts.now)) }
{
    if let Some(rule) = machine_rule(&parts.machine) {
        return Ok(Some(Broken { item: 1, rule }));
    }
    let segments = parts.segments.as_slice();
    if let Some(index) = broken_segment(segments) {
        return Ok(Some(Broken {
            item: 2 + index as u32,
            rule: 4,
        }));
    }
    let table = 2 + segments.len() as u32;
    if let Some(rule) = table_rule(alloc, &parts.machine, segments, &parts.table)? {
        return Ok(Some(Broken { item: table, rule }));
    }
    broken_code(alloc, parts, table + 1)
}
