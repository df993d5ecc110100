//! What the lines of a text give.
ghost use Rattle.std.specs.Prelude.{◌≡◌, ◌+◌, ◌<◌, ◌≤◌, ◌^◌, [], ◌∷◌, ◌++◌, false, IfOk, OnOk, fold, length, map};
ghost use Rattle.std.specs.List.{list_any};
ghost use Rattle.rtl_core.specs.SoundEncodings.{list_size};
ghost use Rattle.sled_rules.specs.declared.meaning.Meaning.TheVariants as means;
ghost use Rattle.sled_rules.specs.Meanings.{is_given};
ghost use Rattle.sled_rules.specs.Sizes.{is_long, most_of};
ghost use Rattle.sled_rules.specs.Known.{field_entry, grow, is_instruction, mark, next_type, no_facts, nothing_known, type_number, with_coded, with_type};
ghost use Rattle.sled_rules.specs.Faults.{is_outside, some_outside, some_taken};
ghost use Rattle.sled_rules.specs.Ranges.{IsField};

use crate::facts::{Facts, facts_of};
use crate::lists::Lists;
use crate::meaning::{Field, Meaning, Start, Token};
use crate::names::Names;
use rtl_core::{Coded, OperandKind, Order};
use sled_syntax::FieldDef;
use sqlite_items::Items;
use std::alloc::{AllocError, Global};

/// What the lines so far give: the order, the names, how many names are fields, the constructors in order, and for each
/// type the numbers of its constructors and what is known of it.
#[derive(Debug, Drop)]
pub struct Known {
    pub order: Option<Order>,
    pub names: Names,
    pub fields: usize,
    pub constructors: Items<Coded>,
    pub types: Lists,
    pub facts: Items<Facts>,
}

/// Of a type that has no constructor yet.
fn no_facts() -> Facts
    ensures { result ≡ no_facts }
{
    Facts {
        start: Start::Nothing,
        most: 0,
        longest: 0,
        used: false,
    }
}

/// Before any line: the type of instructions has no constructor.
pub fn nothing_known(alloc: Global) -> Result<Known, AllocError>
    ensures { IfOk result (λ k. k ≡ nothing_known) }
{
    let mut types = Lists::new(alloc);
    types.open()?;
    let mut facts = Items::new(alloc);
    facts.push(no_facts())?;
    Ok(Known {
        order: None,
        names: Names::new(alloc),
        fields: 0,
        constructors: Items::new(alloc),
        types,
        facts,
    })
}

/// The field of a token that a line spells.
fn field_of(token: Token, field: &FieldDef) -> Field
    requires width { token.bits ≤ 32 }
    requires inside { is_outside token.bits field.now ≡ false }
    ensures value { means.Field result ≡ (field_entry token field.now).1 }
    ensures range { IsField result }
{
    Field {
        token,
        lo: field.lo as u8,
        hi: field.hi as u8,
    }
}

/// Gives a token and its fields.
pub fn give_fields(
    names: &mut Names,
    token_name: &[u8],
    width: u8,
    fields: &[FieldDef],
) -> Result<(), AllocError>
    requires fresh { some_taken names.old [] (token_name.now ∷ map (λ f. f.name) fields.now) ≡ false }
    requires inside { some_outside width fields.now ≡ false }
    ensures { OnOk result (names.new ≡ names.old ++ (token_name.now, means.Token) ∷ map (field_entry (record { place = length names.old; bits = width })) fields.now) }
{
    let token = Token {
        place: names.len(),
        bits: width,
    };
    names.give(token_name, Meaning::Token)?;
    for field in fields {
        let meaning = Meaning::Field(field_of(token, field));
        names.give(field.name.as_slice(), meaning)?;
    }
    Ok(())
}

fn is_instruction(type_name: &[u8]) -> bool
    ensures { result ≡ is_instruction type_name.now }
{
    type_name == b"instruction".as_slice()
}

/// The number of a type that is not there yet.
fn next_type(known: &Known, type_name: &[u8]) -> u16
    requires { length known.now.types < 2 ^ 16 }
    ensures { result ≡ next_type type_name.now known.now }
{
    if is_instruction(type_name) {
        0
    } else {
        known.types.len() as u16
    }
}

/// The number of a type.
pub fn type_number(known: &Known, type_name: &[u8]) -> u16
    requires { length known.now.types < 2 ^ 16 }
    ensures { result ≡ type_number type_name.now known.now }
{
    match known.names.named(type_name) {
        Some(Meaning::Type(kind)) => *kind,
        _ => next_type(known, type_name),
    }
}

/// Gives a type where it is not there yet.
pub fn give_type(known: &mut Known, type_name: &[u8]) -> Result<(), AllocError>
    requires { length known.old.types < 2 ^ 16 }
    ensures { OnOk result (known.new ≡ with_type type_name.now known.old) }
{
    if known.names.is_given(type_name) {
        return Ok(());
    }
    let number = next_type(known, type_name);
    known.names.give(type_name, Meaning::Type(number))?;
    if !is_instruction(type_name) {
        known.types.open()?;
        known.facts.push(no_facts())?;
    }
    Ok(())
}

/// An operand uses its type.
fn mark(facts: &mut Items<Facts>, kind: OperandKind)
    ensures { facts.new ≡ mark facts.old kind }
{
    if let OperandKind::Typed(kind) = kind {
        if let Some(found) = facts_of(facts.as_slice(), kind) {
            facts.set(
                usize::from(kind),
                Facts {
                    used: true,
                    ..found
                },
            );
        }
    }
}

/// The operands use their types.
fn mark_all(facts: &mut Items<Facts>, kinds: &[OperandKind])
    ensures { facts.new ≡ fold mark facts.old kinds.now }
{
    for kind in kinds {
        mark(facts, *kind);
    }
}

/// How much a constructor takes: what it starts with, the most numbers of its operands, and its most bytes.
#[derive(Clone, Copy, Debug)]
pub struct Size {
    pub start: Start,
    pub numbers: usize,
    pub bytes: usize,
}

/// A type has one more constructor, of this size.
fn grow(facts: &mut Items<Facts>, kind: u16, size: Size)
    ensures { facts.new ≡ grow facts.old kind size }
{
    if let Some(found) = facts_of(facts.as_slice(), kind) {
        let grown = Facts {
            start: found.start.join(size.start),
            most: found.most.max(size.numbers),
            longest: found.longest.max(size.bytes),
            used: found.used,
        };
        facts.set(usize::from(kind), grown);
    }
}

/// One constructor more of a type.
pub fn add_constructor(
    known: &mut Known,
    kind: u16,
    size: Size,
    coded: Coded,
) -> Result<(), AllocError>
    requires fresh { is_given known.old.names coded.name ≡ false }
    requires few { length known.old.constructors < 4096 }
    ensures { OnOk result (known.new ≡ with_coded kind size coded known.old) }
{
    let number = known.constructors.len() as u16;
    known
        .names
        .give(coded.name.as_slice(), Meaning::Constructor)?;
    known.types.add(usize::from(kind), number)?;
    grow(&mut known.facts, kind, size);
    mark_all(&mut known.facts, coded.kinds.as_slice());
    known.constructors.push(coded)?;
    Ok(())
}
