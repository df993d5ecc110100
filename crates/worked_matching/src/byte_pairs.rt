//! Every pair of bytes at the front, by the tree and by a plain scan.
ghost use Rattle.std.specs.Prelude.{◌<◌, ◌^◌, length};

use crate::small_i386::{BEFORE, INSTRUCTIONS, TYPED, matcher_of};
use sled_match::{MatchedInst, Matcher};
use std::alloc::{AllocError, Global};
use std::test::Fail;

/// A matcher of all instructions, if the text is accepted.
fn whole(alloc: Global) -> Result<Option<Matcher>, AllocError> {
    let mut text = format!(in alloc; "{BEFORE}")?;
    for line in INSTRUCTIONS {
        text.push_str(line)?;
    }
    Ok(matcher_of(alloc, text.as_str()))
}

/// For each instruction a matcher of it alone, whose tree is one leaf; as many as are accepted.
fn singles(alloc: Global) -> Result<Vec<Matcher>, AllocError> {
    let mut all = Vec::new(alloc);
    for line in INSTRUCTIONS {
        let text = format!(in alloc; "{BEFORE}{line}")?;
        if let Some(matcher) = matcher_of(alloc, text.as_str()) {
            all.push(matcher)?;
        }
    }
    Ok(all)
}

/// Whether two matches are of the same instruction, which stands at a place of the text and alone in another.
fn is_same(found: &MatchedInst, alone: &MatchedInst, place: usize) -> bool {
    let leaves = found.inst.leaves.as_slice() == alone.inst.leaves.as_slice();
    leaves
        && found.len == alone.len
        && found.inst.constructor as usize == TYPED.saturating_add(place)
}

/// Whether the tree and a scan over the single instructions find the same.
fn agree(whole: &Matcher, singles: &[Matcher], bytes: &[u8]) -> bool
    requires { length bytes.now < 2 ^ 32 }
{
    let found = whole.find(bytes);
    for (place, single) in singles.iter().enumerate() {
        if let Some(alone) = single.find(bytes) {
            return match found {
                None => false,
                Some(found) => is_same(&found, &alone, place),
            };
        }
    }
    found.is_none()
}

/// How many of the fronts that start with a byte differ: the byte alone, and each second byte, cut off behind it and with
/// six bytes more.
fn differ(whole: &Matcher, singles: &[Matcher], first: u8) -> u32 {
    let mut count = 0u32;
    if !agree(whole, singles, &[first]) {
        count = 1;
    }
    for second in 0..=255u8 {
        let bytes = [first, second, 0x4D, 0x80, 0xC3, 0x90, 0, 7];
        if !agree(whole, singles, &bytes) || !agree(whole, singles, &bytes[..2]) {
            count = count.saturating_add(1);
        }
    }
    count
}

#[test]
fn tree_and_scan_agree_on_every_byte_pair(rt: HostRuntime) -> Result<(), Fail> {
    let whole = whole(rt.alloc())?.expect(&rt, "accepted");
    let singles = singles(rt.alloc())?;
    assert_eq!(rt; singles.len(), 26);
    let mut count = 0u32;
    for first in 0..=255u8 {
        count = count.saturating_add(differ(&whole, singles.as_slice(), first));
    }
    assert_eq!(rt; count, 0);
    assert!(rt; agree(&whole, singles.as_slice(), &[]));
    Ok(())
}

#[test]
fn tree_has_inner_nodes_and_short_leaves(rt: HostRuntime) -> Result<(), Fail> {
    let size = whole(rt.alloc())?.expect(&rt, "accepted").tree_size();
    assert!(rt; size.inner > 1);
    assert!(rt; size.longest < 26);
    let size = matcher_of(rt.alloc(), BEFORE)
        .expect(&rt, "accepted")
        .tree_size();
    assert_eq!(rt; size.inner, 0);
    assert_eq!(rt; size.leaves, 1);
    assert_eq!(rt; size.longest, 0);
    Ok(())
}
