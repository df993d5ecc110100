//! The rules of prototypes and functions.
ghost use Rattle.std.specs.Prelude.{◌≡◌, ℕ, List, ◌∷◌, [], ◌++◌, IfOk, None, Some, map, option_map, slice_get, take, length};
ghost use Rattle.c_lang.specs.Items.{Declared, Defined, Main, Prototype as SomePrototype, Text, prototype_of};
ghost use Rattle.c_lang.specs.StaticRules.{broken_by, is_like};
ghost use Rattle.c_rules.specs.Scopes.{Lists, function_failed, is_within};

use super::distinct::gather;
use super::parts::{Prototype, Routine};
use super::scope::{Kept, Scope, kept_by};
use c_lang::{CBlock, Point};
use indexmap::IndexMap;
use std::alloc::{AllocError, Global};

/// Whether two prototypes have one address and the same parameters.
fn are_like(one: &Prototype, other: &Prototype) -> bool
    ensures { result ≡ is_like one.now (Some other.now) }
{
    one.entry() == other.entry() && one.params() == other.params()
}

/// Whether the function of a place is one of the prototype.
fn is_defined(prototype: &Prototype, functions: &[Routine], place: usize) -> bool
    ensures { result ≡ is_like prototype.now (option_map prototype_of (slice_get functions.now place)) }
{
    match functions.get(place) {
        Some(function) => are_like(prototype, function.head()),
        None => false,
    }
}

/// Whether the prototype of a place is one of the function.
fn is_declared(function: &Routine, prototypes: &[Prototype], place: usize) -> bool
    ensures { result ≡ is_like (prototype_of function.now) (slice_get prototypes.now place) }
{
    match prototypes.get(place) {
        Some(prototype) => are_like(function.head(), prototype),
        None => false,
    }
}

/// The least rule that the prototype of a place breaks, behind those whose counts of parameters the map has. The error is want
/// of memory.
pub fn prototype_rule(
    alloc: Global,
    calls: &mut IndexMap<u32, usize>,
    prototype: &Prototype,
    functions: &[Routine],
    place: usize,
) -> Result<Option<u8>, AllocError>
    ensures rule { IfOk result (λ found. (t : Text) → Lists calls.old (take place t.prototypes) → t.functions ≡ functions.now → found ≡ broken_by t (Declared place prototype.now)) }
    ensures listed { IfOk result (λ found. found ≡ None → (before : List SomePrototype) → Lists calls.old before → Lists calls.new (before ++ prototype.now ∷ [])) }
{
    let Some(_params) = gather(alloc, prototype.params())? else {
        return Ok(Some(1));
    };
    if calls
        .insert(prototype.entry(), prototype.params().len())?
        .is_some()
    {
        return Ok(Some(1));
    }
    if !is_defined(prototype, functions, place) {
        return Ok(Some(2));
    }
    Ok(None)
}

/// The cells that a function declares, parameters first. The error is want of memory.
fn cells_of(alloc: Global, function: &Routine) -> Result<Vec<u8>, AllocError>
    ensures { IfOk result (λ v. v.items ≡ function.now.params ++ function.now.cells) }
{
    let mut cells = Vec::from_slice(alloc, function.head().params())?;
    cells.extend_from_slice(function.cells())?;
    Ok(cells)
}

/// The labels of blocks. The error is want of memory.
fn labels_of(alloc: Global, blocks: &[CBlock]) -> Result<Vec<Point>, AllocError>
    ensures { IfOk result (λ v. v.items ≡ map (λ b. b.label) blocks.now) }
{
    let mut labels = Vec::new(alloc);
    for block in blocks {
        labels.push(block.label)?;
    }
    Ok(labels)
}

/// Whether a function declares no more than it may.
fn is_small(function: &Routine) -> bool
    ensures { result ≡ is_within function.now }
{
    let params = function.head().params().len();
    params <= 120
        && function.cells().len() <= 120 - params
        && function.temps() <= 512
        && function.blocks().len() <= 131072
}

/// The least rule behind the first one that a function breaks, by what its mentions keep.
fn rule_of(function: &Routine, is_declared: bool, kept: Kept) -> Option<u8>
    ensures { result ≡ function_failed function.now is_declared kept }
{
    if !is_declared || !kept.known {
        return Some(2);
    }
    if !kept.counted {
        return Some(3);
    }
    if !kept.sized {
        return Some(4);
    }
    if !is_small(function) {
        return Some(6);
    }
    None
}

/// The least rule that the function of a place breaks, where the map has how many parameters each function has. The error is
/// want of memory.
pub fn function_rule(
    alloc: Global,
    calls: &IndexMap<u32, usize>,
    function: &Routine,
    prototypes: &[Prototype],
    place: usize,
) -> Result<Option<u8>, AllocError>
    ensures { IfOk result (λ found. (t : Text) → Lists calls.now t.prototypes → t.prototypes ≡ prototypes.now → found ≡ broken_by t (Defined place function.now)) }
{
    let Some(cells) = gather(alloc, &cells_of(alloc, function)?)? else {
        return Ok(Some(1));
    };
    let Some(labels) = gather(alloc, &labels_of(alloc, function.blocks())?)? else {
        return Ok(Some(1));
    };
    let scope = Scope {
        cells: &cells,
        temps: function.temps(),
        labels: &labels,
        calls,
    };
    let kept = kept_by(&scope, function.blocks());
    Ok(rule_of(function, is_declared(function, prototypes, place), kept))
}

/// The least rule that `uq_main` breaks: the address of the function that it calls, and how many arguments behind `ra`.
pub fn main_rule(calls: &IndexMap<u32, usize>, entry: u32, arguments: usize) -> Option<u8>
    ensures { (t : Text) → (first : List ℕ) → Lists calls.now t.prototypes → arguments ≡ length first → result ≡ broken_by t (Main entry first) }
{
    match calls.get(&entry) {
        None => Some(2),
        Some(count) if *count != arguments => Some(3),
        Some(_) => None,
    }
}
