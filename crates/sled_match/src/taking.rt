//! What items, alternatives, constructors and types take from the front of bytes.
ghost use Rattle.std.specs.Prelude.{◌≡◌, ◌≤◌, ◌<◌, ◌^◌, length, [], replicate, All, IfSome};
ghost use Rattle.rtl_core.specs.Matching.{item_taken, items_taken, constructor_taken, first_matching, type_taken};
ghost use Rattle.sled_match.specs.Matched.{taken_of};
ghost use Rattle.sled_match.specs.Ready.{IsItemReady, AreReady};

use crate::matched::MatchedInst;
use crate::slots::{Slots, append};
use crate::token::{tests_hold, token_at};
use rtl_core::{Encodings, Inst, Item, Leaves};
use std::alloc::Global;

/// An item at the front: the numbers with its own put in, and how many bytes it moves on.
#[cycle(taking)]
fn take_item(
    alloc: Global,
    enc: &Encodings,
    deep: usize,
    item: &Item,
    slots: Slots,
    bytes: &[u8],
) -> Option<(Slots, usize)>
    requires ready { AreReady enc.now }
    requires item { IsItemReady enc.now item.now }
    requires short { length bytes.now < 2 ^ 32 }
    ensures exact { result ≡ item_taken (type_taken deep enc.now) enc.now.order item.now slots bytes.now }
    ensures within { IfSome result (λ r. r.1 ≤ length bytes.now) }
{
    let tok = token_at(enc.order, item.bits, bytes)?;
    if !tests_hold(tok, item.tests.as_slice()) {
        return None;
    }
    let mut slots = slots;
    slots.bind(alloc, tok, item.binds.as_slice());
    match item.typed {
        None => Some((slots, item.bits as usize / 8)),
        Some(typed) => {
            let found = take_type(alloc, enc, deep, typed.kind, bytes)?;
            let mut leaves = Leaves::new(alloc);
            leaves.push(found.inst.constructor as u32);
            append(&mut leaves, found.inst.leaves.as_slice());
            slots.put(typed.operand, leaves);
            Some((slots, found.len as usize))
        }
    }
}

/// Items, one behind another: the numbers of each operand, and how many bytes they have.
#[cycle(taking)]
fn take_items(
    alloc: Global,
    enc: &Encodings,
    deep: usize,
    items: &[Item],
    bytes: &[u8],
) -> Option<(Slots, usize)>
    requires ready { AreReady enc.now }
    requires items { All (IsItemReady enc.now) items.now }
    requires short { length bytes.now < 2 ^ 32 }
    ensures exact { result ≡ items_taken (type_taken deep enc.now) enc.now.order items.now (replicate 8 []) 0 bytes.now }
    ensures within { IfSome result (λ r. r.1 ≤ length bytes.now) }
{
    let mut slots = Slots::empty(alloc);
    let mut len = 0;
    for item in items {
        let (more, size) = take_item(alloc, enc, deep, item, slots, &bytes[len..])?;
        slots = more;
        len += size;
    }
    Some((slots, len))
}

/// The first alternative of a constructor that matches.
#[cycle(taking)]
fn take_constructor(
    alloc: Global,
    enc: &Encodings,
    deep: usize,
    constructor: u16,
    bytes: &[u8],
) -> Option<MatchedInst>
    requires ready { AreReady enc.now }
    requires short { length bytes.now < 2 ^ 32 }
    ensures exact { taken_of result ≡ constructor_taken (type_taken deep enc.now) enc.now bytes.now constructor }
    ensures within { IfSome result (λ r. r.len ≤ length bytes.now) }
{
    let coded = enc.constructors.get(constructor as usize)?;
    for alternative in coded.alternatives.as_slice() {
        if let Some((slots, len)) = take_items(alloc, enc, deep, alternative.as_slice(), bytes) {
            let leaves = slots.joined(alloc);
            return Some(MatchedInst {
                inst: Inst {
                    constructor,
                    leaves,
                },
                len: len as u32,
            });
        }
    }
    None
}

/// The first constructor of a type that matches, with typed operands nested less than `deep`.
#[cycle(taking)]
#[tactic(auto, unfolding(rtl_core::specs::Matching::type_taken))]
fn take_type(
    alloc: Global,
    enc: &Encodings,
    deep: usize,
    kind: u16,
    bytes: &[u8],
) -> Option<MatchedInst>
    requires ready { AreReady enc.now }
    requires short { length bytes.now < 2 ^ 32 }
    ensures exact { taken_of result ≡ type_taken deep enc.now kind bytes.now }
    ensures within { IfSome result (λ r. r.len ≤ length bytes.now) }
{
    if deep == 0 {
        return None;
    }
    let constructors = enc.types.get(kind as usize)?;
    take_first(alloc, enc, deep - 1, constructors.as_slice(), bytes)
}

/// The first of some constructors that matches.
#[cycle(taking)]
pub fn take_first(
    alloc: Global,
    enc: &Encodings,
    deep: usize,
    constructors: &[u16],
    bytes: &[u8],
) -> Option<MatchedInst>
    requires ready { AreReady enc.now }
    requires short { length bytes.now < 2 ^ 32 }
    ensures exact { taken_of result ≡ first_matching (constructor_taken (type_taken deep enc.now) enc.now bytes.now) constructors.now }
    ensures within { IfSome result (λ r. r.len ≤ length bytes.now) }
{
    for constructor in constructors {
        if let Some(found) = take_constructor(alloc, enc, deep, *constructor, bytes) {
            return Some(found);
        }
    }
    None
}
