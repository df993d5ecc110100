//! Which byte a constructor allows at a place, by its tokens and their tests alone.
ghost use Rattle.std.specs.Prelude.{◌≡◌, ◌≤◌, ◌<◌, IfOk, length, All};
ghost use Rattle.std.specs.List.{list_all, list_any};
ghost use Rattle.sled_match.specs.Allows.{low_bit as low_bit_of, test_allows as test_allows_of, token_allows as token_allows_of, items_allow as items_allow_of, coded_allows as coded_allows_of, keys_of, places_of, IsRow, AreRows};
ghost use Rattle.sled_match.specs.Ready.{IsTestReady, IsItemReady, IsAlternativeReady, AreReady};

use crate::allowed::{Allowed, KEYS, PLACES};
use crate::token::field_of;
use rtl_core::{Coded, Encodings, Item, Order, Test};
use sqlite_items::Items;
use std::alloc::{AllocError, Global};

/// The lowest bit of the byte at a place of a token.
fn low_bit(order: Order, size: u8, place: u8) -> u8
    requires few { size ≤ 4 }
    requires within { place < size }
    ensures { result ≡ low_bit_of order size place }
{
    match order {
        Order::Little => 8 * place,
        Order::Big => 8 * (size - 1 - place),
    }
}

/// Whether a test allows a byte whose lowest bit in the token is `low`.
fn test_allows(low: u8, byte: u8, test: &Test) -> bool
    requires ready { IsTestReady test.now }
    requires few { low < 32 }
    ensures { result ≡ test_allows_of low byte test.now }
{
    if test.equal {
        let a = test.lo.max(low);
        let b = test.hi.min(low + 7);
        if a <= b {
            field_of(byte as u32, a - low, b - low)
                == field_of(test.value, a - test.lo, b - test.lo)
        } else {
            true
        }
    } else if low <= test.lo && test.hi <= low + 7 {
        field_of(byte as u32, test.lo - low, test.hi - low) != test.value
    } else {
        true
    }
}

/// Whether all tests allow a byte.
fn all_allow(low: u8, byte: u8, tests: &[Test]) -> bool
    requires ready { All IsTestReady tests.now }
    requires few { low < 32 }
    ensures { result ≡ list_all (test_allows_of low byte) tests.now }
{
    tests.iter().all(|test| test_allows(low, byte, test))
}

/// Whether a token allows a key at a place within it.
fn token_allows(order: Order, size: u8, tests: &[Test], place: u8, key: u16) -> bool
    requires ready { All IsTestReady tests.now }
    requires few { size ≤ 4 }
    requires within { place < size }
    ensures { result ≡ token_allows_of order size tests.now place key }
{
    if key >= 256 {
        return false;
    }
    let low = low_bit(order, size, place);
    all_allow(low, key as u8, tests)
}

/// Whether items allow a key at a place.
fn items_allow(order: Order, items: &[Item], place: u8, key: u16) -> bool
    requires { All (λ it. (it.bits ≤ 32) × All IsTestReady it.tests) items.now }
    ensures { result ≡ items_allow_of order items.now place key }
{
    let mut place = place;
    for item in items {
        let size = item.bits / 8;
        if place < size {
            return token_allows(order, size, item.tests.as_slice(), place, key);
        }
        if item.typed.is_some() {
            return true;
        }
        place -= size;
    }
    true
}

/// Whether an alternative of a constructor allows a key at a place.
fn coded_allows(order: Order, coded: &Coded, place: u8, key: u16) -> bool
    requires { All (λ items. All (λ it. (it.bits ≤ 32) × All IsTestReady it.tests) items) coded.now.alternatives }
    ensures { result ≡ coded_allows_of order coded.now place key }
{
    let alternatives = coded.alternatives.as_slice();
    alternatives
        .iter()
        .any(|items| items_allow(order, items.as_slice(), place, key))
}

/// What a constructor allows at a place, for each key.
fn keys(alloc: Global, order: Order, coded: &Coded, place: u8) -> Result<Items<bool>, AllocError>
    requires { All (λ items. All (λ it. (it.bits ≤ 32) × All IsTestReady it.tests) items) coded.now.alternatives }
    ensures { IfOk result (λ it. it ≡ keys_of order coded.now place) }
{
    let mut out = Items::new(alloc);
    for key in 0..KEYS {
        out.push(coded_allows(order, coded, place, key))?;
    }
    Ok(out)
}

/// What a constructor allows, for each place and each key.
fn places(alloc: Global, order: Order, coded: &Coded) -> Result<Items<Items<bool>>, AllocError>
    requires { All (λ items. All (λ it. (it.bits ≤ 32) × All IsTestReady it.tests) items) coded.now.alternatives }
    ensures { IfOk result (λ it. it ≡ places_of order coded.now) }
{
    let mut out = Items::new(alloc);
    for place in 0..PLACES {
        out.push(keys(alloc, order, coded, place)?)?;
    }
    Ok(out)
}

/// How many tokens and tests the rows of a table may ask together: a text with more has rows that allow all.
const EFFORT: usize = 32768;

/// How many tokens and tests a constructor has in its alternatives.
fn effort(coded: &Coded) -> usize {
    let mut sum = 0usize;
    for items in coded.alternatives.as_slice() {
        for item in items.as_slice() {
            sum = sum.saturating_add(1).saturating_add(item.tests.len());
        }
    }
    sum
}

/// The row of a constructor, while the effort that is left pays for it; else one that allows all.
fn row(
    alloc: Global,
    order: Order,
    coded: &Coded,
    left: &mut usize,
) -> Result<Items<Items<bool>>, AllocError>
    requires { All (λ items. All (λ it. (it.bits ≤ 32) × All IsTestReady it.tests) items) coded.now.alternatives }
    ensures { IfOk result (λ it. IsRow order coded.now it) }
{
    let needed = effort(coded);
    if needed > *left {
        return Ok(Items::new(alloc));
    }
    *left -= needed;
    places(alloc, order, coded)
}

/// What each constructor allows.
pub fn table(alloc: Global, enc: &Encodings) -> Result<Allowed, AllocError>
    requires { AreReady enc.now }
    ensures { IfOk result (λ it. AreRows enc.now it.rows) }
{
    let mut left = EFFORT;
    let mut rows = Items::new(alloc);
    for coded in enc.constructors.as_slice() {
        rows.push(row(alloc, enc.order, coded, &mut left)?)?;
    }
    Ok(Allowed { rows })
}
