//! Texts of up to 4,096 constructors: what their trees are, and that looks in them end.
use crate::small_i386::matcher_of;
use std::alloc::{AllocError, Global};
use std::test::Fail;

/// Words of 32 bits, and the fields of their bytes.
const WORDS: &str = "order big\nfields of w (32) a 24:31 b 16:23 c 8:15\n";

/// So many constructors, each of two bytes, of which the first has 128 values.
fn plain(alloc: Global, count: u32) -> Result<String, AllocError> {
    let mut text = format!(in alloc; "{WORDS}")?;
    for k in 0..count {
        let (a, b) = (k % 128, k / 128);
        text.push_str(&format!(in alloc; "constructor C{k} is a = {a} & b = {b}\n")?)?;
    }
    Ok(text)
}

/// So many constructors of 128 alternatives each.
fn alternatives(alloc: Global, count: u32) -> Result<String, AllocError> {
    let mut text = format!(in alloc; "{WORDS}pattern many is a = 0")?;
    for k in 1..128u32 {
        text.push_str(&format!(in alloc; " | a = {k}")?)?;
    }
    text.push_str("\n")?;
    for k in 0..count {
        let (b, c) = (k % 256, k / 256);
        text.push_str(&format!(in alloc; "constructor C{k} is many & b = {b} & c = {c}\n")?)?;
    }
    Ok(text)
}

/// 4,096 constructors, of which 256 behind all others refuse one byte each: every byte leaves another list.
fn refusing(alloc: Global) -> Result<String, AllocError> {
    let mut text = format!(in alloc; "{WORDS}")?;
    for k in 0..3840u32 {
        let (b, c) = (k % 256, k / 256);
        text.push_str(&format!(in alloc; "constructor C{k} is b = {b} & c = {c}\n")?)?;
    }
    for k in 0..256u32 {
        text.push_str(&format!(in alloc; "constructor D{k} is a != {k} & c = 99\n")?)?;
    }
    Ok(text)
}

#[test]
fn last_of_4096_is_found(rt: HostRuntime) -> Result<(), Fail> {
    let text = plain(rt.alloc(), 4096)?;
    let matcher = matcher_of(rt.alloc(), text.as_str()).expect(&rt, "accepted");
    let found = matcher.find(&[127, 31, 0, 0]).expect(&rt, "found");
    assert_eq!(rt; found.inst.constructor, 4095);
    assert!(rt; matcher.tree_size().longest <= 32);
    Ok(())
}

#[test]
fn constructors_of_128_alternatives_are_built(rt: HostRuntime) -> Result<(), Fail> {
    let text = alternatives(rt.alloc(), 2000)?;
    let matcher = matcher_of(rt.alloc(), text.as_str()).expect(&rt, "accepted");
    let found = matcher.find(&[127, 0xCF, 7, 0]).expect(&rt, "found");
    assert_eq!(rt; found.inst.constructor, 1999);
    Ok(())
}

#[test]
fn lists_that_differ_in_every_branch_are_built(rt: HostRuntime) -> Result<(), Fail> {
    let text = refusing(rt.alloc())?;
    let matcher = matcher_of(rt.alloc(), text.as_str()).expect(&rt, "accepted");
    let found = matcher.find(&[0, 200, 99, 0]).expect(&rt, "found");
    assert_eq!(rt; found.inst.constructor, 3841);
    Ok(())
}

#[test]
fn last_of_256_is_found_a_million_times(rt: HostRuntime) -> Result<(), Fail> {
    let text = plain(rt.alloc(), 256)?;
    let matcher = matcher_of(rt.alloc(), text.as_str()).expect(&rt, "accepted");
    assert!(rt; matcher.tree_size().longest <= 2);
    let mut hits = 0u32;
    for _ in 0..1_000_000u32 {
        if matcher.find(&[127, 1, 0, 0]).is_some() {
            hits = hits.saturating_add(1);
        }
    }
    assert_eq!(rt; hits, 1_000_000);
    Ok(())
}

#[test]
fn first_of_256_is_found_a_million_times(rt: HostRuntime) -> Result<(), Fail> {
    let text = plain(rt.alloc(), 256)?;
    let matcher = matcher_of(rt.alloc(), text.as_str()).expect(&rt, "accepted");
    let mut hits = 0u32;
    for _ in 0..1_000_000u32 {
        if matcher.find(&[0, 0, 0, 0]).is_some() {
            hits = hits.saturating_add(1);
        }
    }
    assert_eq!(rt; hits, 1_000_000);
    Ok(())
}
