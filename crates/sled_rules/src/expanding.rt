//! The alternatives of a pattern.
ghost use Rattle.std.specs.Prelude.{◌≡◌, ◌<◌, ◌≤◌, [], ◌∷◌, ◌++◌, IfOk, OnOk, map, length};
ghost use Rattle.sled_rules.specs.Meanings.{named};
ghost use Rattle.sled_rules.specs.Alternatives.{alternatives, both, bound, choices, item_choices, lone_choices, nothing_asked, onto_first, part_choices, sequence_choices, test_choices, tested, typed_item};

use crate::meaning::{Field, Meaning};
use crate::names::Names;
use crate::operands::operand_of;
use rtl_core::{Bind, Item, Test, Typed};
use sled_syntax::{Part, SledItem, SledPattern};
use sqlite_items::Items;
use std::alloc::{AllocError, Global};

/// The items of both lists.
fn joined<T: Copy + Drop>(alloc: Global, xs: &[T], ys: &[T]) -> Result<Items<T>, AllocError>
    ensures { IfOk result (λ items. items ≡ xs.now ++ ys.now) }
{
    let mut items = Vec::from_slice(alloc, xs)?;
    items.extend_from_slice(ys)?;
    Ok(Items::from_vec(items))
}

/// A list of one.
fn single<T: Drop>(alloc: Global, item: T) -> Result<Items<T>, AllocError>
    ensures { IfOk result (λ items. items ≡ item ∷ []) }
{
    let mut items = Items::new(alloc);
    items.push(item)?;
    Ok(items)
}

fn copy_item(alloc: Global, item: &Item) -> Result<Item, AllocError>
    ensures { IfOk result (λ copy. copy ≡ item.now) }
{
    Ok(Item {
        bits: item.bits,
        tests: Items::from_slice(alloc, item.tests.as_slice())?,
        binds: Items::from_slice(alloc, item.binds.as_slice())?,
        typed: item.typed,
    })
}

/// Puts copies of items behind others.
fn push_copies(alloc: Global, items: &[Item], out: &mut Items<Item>) -> Result<(), AllocError>
    ensures { OnOk result (out.new ≡ out.old ++ items.now) }
{
    for item in items {
        out.push(copy_item(alloc, item)?)?;
    }
    Ok(())
}

/// No token, and nothing asked of it.
fn nothing_asked(alloc: Global) -> Item
    ensures { result ≡ nothing_asked }
{
    Item {
        bits: 0,
        tests: Items::new(alloc),
        binds: Items::new(alloc),
        typed: None,
    }
}

/// A token with one test.
fn tested(alloc: Global, equal: bool, value: u64, field: Field) -> Result<Item, AllocError>
    ensures { IfOk result (λ it. it ≡ tested equal value field) }
{
    let test = Test {
        lo: field.lo,
        hi: field.hi,
        equal,
        value: (value % 0x1_0000_0000) as u32,
    };
    Ok(Item {
        bits: field.token.bits,
        tests: single(alloc, test)?,
        binds: Items::new(alloc),
        typed: None,
    })
}

/// A token whose field is an operand.
fn bound(alloc: Global, operand: u8, field: Field) -> Result<Item, AllocError>
    ensures { IfOk result (λ it. it ≡ bound operand field) }
{
    let bind = Bind {
        lo: field.lo,
        hi: field.hi,
        operand,
    };
    Ok(Item {
        bits: field.token.bits,
        tests: Items::new(alloc),
        binds: single(alloc, bind)?,
        typed: None,
    })
}

/// A typed operand.
fn typed_item(alloc: Global, operand: u8, kind: u16) -> Item
    ensures { result ≡ typed_item operand kind }
{
    Item {
        bits: 0,
        tests: Items::new(alloc),
        binds: Items::new(alloc),
        typed: Some(Typed { kind, operand }),
    }
}

/// What two items ask of one token.
fn both(alloc: Global, left: &Item, right: &Item) -> Result<Item, AllocError>
    ensures { IfOk result (λ it. it ≡ both left.now right.now) }
{
    Ok(Item {
        bits: left.bits.max(right.bits),
        tests: joined(alloc, left.tests.as_slice(), right.tests.as_slice())?,
        binds: joined(alloc, left.binds.as_slice(), right.binds.as_slice())?,
        typed: left.typed.or(right.typed),
    })
}

/// An item put onto the first of a sequence.
fn onto_first(alloc: Global, left: &[Item], right: &[Item]) -> Result<Items<Item>, AllocError>
    ensures { IfOk result (λ items. items ≡ onto_first left.now right.now) }
{
    let mut items = Items::new(alloc);
    match (left.split_first(), right.split_first()) {
        (Some((above, _)), Some((first, rest))) => {
            items.push(both(alloc, above, first)?)?;
            push_copies(alloc, rest, &mut items)?;
        },
        (None, _) => push_copies(alloc, right, &mut items)?,
        (Some(_), None) => {},
    }
    Ok(items)
}

/// One sequence behind another.
fn behind(alloc: Global, left: &[Item], right: &[Item]) -> Result<Items<Item>, AllocError>
    ensures { IfOk result (λ items. items ≡ left.now ++ right.now) }
{
    let mut items = Items::new(alloc);
    push_copies(alloc, left, &mut items)?;
    push_copies(alloc, right, &mut items)?;
    Ok(items)
}

/// Puts an item onto each of some sequences.
fn push_onto(
    alloc: Global,
    left: &[Item],
    ys: &[Items<Item>],
    out: &mut Items<Items<Item>>,
) -> Result<(), AllocError>
    ensures { OnOk result (out.new ≡ out.old ++ map (onto_first left.now) ys.now) }
{
    for right in ys {
        out.push(onto_first(alloc, left, right.as_slice())?)?;
    }
    Ok(())
}

/// Puts each of some sequences behind one.
fn push_behind(
    alloc: Global,
    left: &[Item],
    ys: &[Items<Item>],
    out: &mut Items<Items<Item>>,
) -> Result<(), AllocError>
    ensures { OnOk result (out.new ≡ out.old ++ map (λ y. left.now ++ y) ys.now) }
{
    for right in ys {
        out.push(behind(alloc, left, right.as_slice())?)?;
    }
    Ok(())
}

/// Each of some items put onto each of some sequences.
fn choices_onto(
    alloc: Global,
    xs: &[Items<Item>],
    ys: &[Items<Item>],
) -> Result<Items<Items<Item>>, AllocError>
    ensures { IfOk result (λ all. all ≡ choices onto_first xs.now ys.now) }
{
    let mut all = Items::new(alloc);
    for left in xs {
        push_onto(alloc, left.as_slice(), ys, &mut all)?;
    }
    Ok(all)
}

/// Each of some sequences with each of others behind it.
fn choices_behind(
    alloc: Global,
    xs: &[Items<Item>],
    ys: &[Items<Item>],
) -> Result<Items<Items<Item>>, AllocError>
    ensures { IfOk result (λ all. all ≡ choices ◌++◌ xs.now ys.now) }
{
    let mut all = Items::new(alloc);
    for left in xs {
        push_behind(alloc, left.as_slice(), ys, &mut all)?;
    }
    Ok(all)
}

/// Each of some items put onto this one.
fn choices_single(
    alloc: Global,
    xs: &[Items<Item>],
    item: Item,
) -> Result<Items<Items<Item>>, AllocError>
    ensures { IfOk result (λ all. all ≡ choices onto_first xs.now ((item ∷ []) ∷ [])) }
{
    let one = single(alloc, single(alloc, item)?)?;
    choices_onto(alloc, xs, one.as_slice())
}

/// With a test of the field of this name.
fn with_test(
    alloc: Global,
    names: &Names,
    xs: &[Items<Item>],
    name: &[u8],
    equal: bool,
    value: u64,
) -> Result<Items<Items<Item>>, AllocError>
    ensures { IfOk result (λ all. all ≡ choices onto_first xs.now (test_choices equal value (named names.now name.now))) }
{
    match names.named(name) {
        Some(Meaning::Field(field)) => {
            choices_single(alloc, xs, tested(alloc, equal, value, *field)?)
        },
        _ => choices_onto(alloc, xs, Items::new(alloc).as_slice()),
    }
}

/// With the pattern of this name, or the operand of this number.
fn with_lone(
    alloc: Global,
    names: &Names,
    xs: &[Items<Item>],
    name: &[u8],
    operand: u8,
) -> Result<Items<Items<Item>>, AllocError>
    ensures { IfOk result (λ all. all ≡ choices onto_first xs.now (lone_choices operand (named names.now name.now))) }
{
    match names.named(name) {
        Some(Meaning::Field(field)) => choices_single(alloc, xs, bound(alloc, operand, *field)?),
        Some(Meaning::Pattern(pattern)) => {
            choices_onto(alloc, xs, pattern.alternatives.as_slice())
        },
        Some(Meaning::Type(kind)) => choices_single(alloc, xs, typed_item(alloc, operand, *kind)),
        _ => choices_onto(alloc, xs, Items::new(alloc).as_slice()),
    }
}

/// With one part more.
fn with_part(
    alloc: Global,
    names: &Names,
    ops: &[Items<u8>],
    xs: &[Items<Item>],
    part: &Part,
) -> Result<Items<Items<Item>>, AllocError>
    requires { length ops.now ≤ 8 }
    ensures { IfOk result (λ all. all ≡ choices onto_first xs.now (part_choices names.now ops.now part.now)) }
{
    match part {
        Part::Equal(name, value) => with_test(alloc, names, xs, name.as_slice(), true, *value),
        Part::Differs(name, value) => with_test(alloc, names, xs, name.as_slice(), false, *value),
        Part::Lone(name) => {
            let operand = operand_of(ops, name.as_slice()) as u8;
            with_lone(alloc, names, xs, name.as_slice(), operand)
        },
    }
}

/// The alternatives of an item.
fn item_choices(
    alloc: Global,
    names: &Names,
    ops: &[Items<u8>],
    item: &SledItem,
) -> Result<Items<Items<Item>>, AllocError>
    requires { length ops.now ≤ 8 }
    ensures { IfOk result (λ all. all ≡ item_choices names.now ops.now item.now) }
{
    let mut xs = single(alloc, single(alloc, nothing_asked(alloc))?)?;
    for part in item.parts.as_slice() {
        xs = with_part(alloc, names, ops, xs.as_slice(), part)?;
    }
    match &item.rest {
        None => Ok(xs),
        Some(rest) => {
            let operand = operand_of(ops, rest.as_slice()) as u8;
            with_lone(alloc, names, xs.as_slice(), rest.as_slice(), operand)
        },
    }
}

/// The alternatives of a sequence.
fn sequence_choices(
    alloc: Global,
    names: &Names,
    ops: &[Items<u8>],
    items: &[SledItem],
) -> Result<Items<Items<Item>>, AllocError>
    requires { length ops.now ≤ 8 }
    ensures { IfOk result (λ all. all ≡ sequence_choices names.now ops.now items.now) }
{
    let mut xs = single(alloc, Items::new(alloc))?;
    for item in items {
        let ys = item_choices(alloc, names, ops, item)?;
        let more = choices_behind(alloc, xs.as_slice(), ys.as_slice())?;
        xs = more;
    }
    Ok(xs)
}

/// The alternatives of a pattern, the leftmost part slowest.
pub fn alternatives(
    alloc: Global,
    names: &Names,
    ops: &[Items<u8>],
    pattern: &SledPattern,
) -> Result<Items<Items<Item>>, AllocError>
    requires { length ops.now ≤ 8 }
    ensures { IfOk result (λ all. all ≡ alternatives names.now ops.now pattern.now) }
{
    let mut all = Items::new(alloc);
    for items in pattern.alternatives.as_slice() {
        let more = sequence_choices(alloc, names, ops, items.as_slice())?;
        all.append(more)?;
    }
    Ok(all)
}
