//! What is found at the front of some bytes.
ghost use Rattle.std.specs.Prelude.{◌≡◌, [], ◌∷◌, IfOk};
ghost use Rattle.worked_values.specs.Samples.{token_with, one_way, overlapping, nested};

use crate::test_items::{one, two};
use rtl_core::{Bind, Coded, Encodings, Item, OperandKind, Order, Test, Typed, Width};
use sled_match::Matcher;
use sqlite_items::Items;
use std::alloc::{AllocError, Global};
use std::test::Fail;

fn token(alloc: Global, bits: u8, lo: u8, hi: u8, value: u32) -> Result<Item, AllocError>
    ensures { IfOk result (λ it. it ≡ token_with bits lo hi value) }
{
    let test = Test {
        lo,
        hi,
        equal: true,
        value,
    };
    Ok(Item {
        bits,
        tests: one(alloc, test)?,
        binds: Items::new(alloc),
        typed: None,
    })
}

fn constructor(
    alloc: Global,
    name: u8,
    kinds: Items<OperandKind>,
    items: Items<Item>,
) -> Result<Coded, AllocError>
    ensures { IfOk result (λ k. k ≡ one_way (name ∷ []) kinds items) }
{
    Ok(Coded {
        name: one(alloc, name)?,
        kinds,
        alternatives: one(alloc, items)?,
    })
}

fn word(alloc: Global, name: u8, lo: u8, hi: u8, value: u32) -> Result<Coded, AllocError>
    ensures { IfOk result (λ k. k ≡ one_way (name ∷ []) [] (token_with 32 lo hi value ∷ [])) }
{
    let items = one(alloc, token(alloc, 32, lo, hi, value)?)?;
    constructor(alloc, name, Items::new(alloc), items)
}

/// Words whose two top bits are 0, and the word 0x01000000.
pub fn overlapping_words(alloc: Global) -> Result<Encodings, AllocError>
    ensures { IfOk result (λ e. e ≡ overlapping) }
{
    let a = word(alloc, b'A', 30, 31, 0)?;
    let b = word(alloc, b'B', 0, 31, 0x0100_0000)?;
    Ok(Encodings {
        order: Order::Big,
        constructors: two(alloc, a, b)?,
        types: one(alloc, two(alloc, 0, 1)?)?,
    })
}

fn register(alloc: Global) -> Result<Item, AllocError>
    ensures { IfOk result (λ it. it ≡ record { bits = 8; tests = []; binds = record { lo = 0; hi = 7; operand = 0 } ∷ []; typed = None }) }
{
    let bind = Bind {
        lo: 0,
        hi: 7,
        operand: 0,
    };
    Ok(Item {
        bits: 8,
        tests: Items::new(alloc),
        binds: one(alloc, bind)?,
        typed: None,
    })
}

fn pushes(alloc: Global, byte: Width) -> Result<Encodings, AllocError>
    requires { byte ≡ 8 }
    ensures { IfOk result (λ e. e ≡ nested) }
{
    let pushed = Item {
        bits: 0,
        tests: Items::new(alloc),
        binds: Items::new(alloc),
        typed: Some(Typed {
            kind: 1,
            operand: 0,
        }),
    };
    let r_kinds = one(alloc, OperandKind::Field(byte))?;
    let p_kinds = one(alloc, OperandKind::Typed(1))?;
    let p_items = two(alloc, token(alloc, 8, 0, 7, 0x50)?, pushed)?;
    let r = constructor(alloc, b'R', r_kinds, one(alloc, register(alloc)?)?)?;
    let p = constructor(alloc, b'P', p_kinds, p_items)?;
    Ok(Encodings {
        order: Order::Big,
        constructors: two(alloc, r, p)?,
        types: two(alloc, one(alloc, 1)?, one(alloc, 0)?)?,
    })
}

#[test]
#[tactic(auto, using(crate::proofs::SoundSamples::sound_samples))]
fn first_constructor_wins(rt: HostRuntime) -> Result<(), Fail> {
    let encodings = overlapping_words(rt.alloc())?;
    let matcher = Matcher::build(rt.alloc(), &encodings)?;
    let found = matcher.find(&[1, 0, 0, 0, 9]).expect(&rt, "a word");
    assert_eq!(rt; found.inst.constructor, 0);
    assert_eq!(rt; found.len, 4);
    assert!(rt; found.inst.leaves.is_empty());
    assert!(rt; matcher.find(&[1, 0, 0]).is_none());
    assert!(rt; matcher.find(&[0x80, 0, 0, 0]).is_none());
    Ok(())
}

#[test]
#[tactic(auto, using(crate::proofs::SoundSamples::sound_samples))]
fn typed_operand_has_its_own_length(rt: HostRuntime) -> Result<(), Fail> {
    let byte = Width::new(8).expect(&rt, "a width");
    let encodings = pushes(rt.alloc(), byte)?;
    let matcher = Matcher::build(rt.alloc(), &encodings)?;
    let found = matcher.find(&[0x50, 7, 9]).expect(&rt, "a push");
    assert_eq!(rt; found.inst.constructor, 1);
    assert_eq!(rt; found.inst.leaves.as_slice(), [0, 7].as_slice());
    assert_eq!(rt; found.len, 2);
    assert!(rt; matcher.find(&[0x50]).is_none());
    Ok(())
}
