//! Which of two constructors that match the same bytes is found.
use crate::small_i386::matcher_of;
use std::test::Fail;

/// Words of 32 bits, and the fields of their first and last byte.
const BEFORE: &str = "order big
fields of w (32) op 30:31 six 24:29 low 0:7 all 0:31\n";

/// Words whose two top bits are 0, and the word 0x01000000, which is one of them.
const A: &str = "constructor A is op = 0\n";

const B: &str = "constructor B is all = 0x01000000\n";

/// Six more, two for each first byte, so that the tree has an inner node.
const BEHIND: &str = "constructor C is op = 1 & six = 1 & low = 1
constructor D is op = 1 & six = 1 & low = 2
constructor E is op = 2 & six = 3 & low = 1
constructor F is op = 2 & six = 3 & low = 2
constructor G is op = 3 & six = 5 & low = 1
constructor H is op = 3 & six = 5 & low = 2
";

#[test]
fn first_of_the_text_is_found(rt: HostRuntime) -> Result<(), Fail> {
    let text = format!(in rt.alloc(); "{BEFORE}{A}{B}{BEHIND}")?;
    let matcher = matcher_of(rt.alloc(), text.as_str()).expect(&rt, "accepted");
    assert!(rt; matcher.tree_size().inner > 0);
    let one = matcher.find(&[1, 0, 0, 0]).expect(&rt, "found");
    assert_eq!(rt; one.inst.constructor, 0);
    let two = matcher.find(&[2, 0, 0, 0]).expect(&rt, "found");
    assert_eq!(rt; two.inst.constructor, 0);
    Ok(())
}

#[test]
fn exchanged_the_other_is_found(rt: HostRuntime) -> Result<(), Fail> {
    let text = format!(in rt.alloc(); "{BEFORE}{B}{A}{BEHIND}")?;
    let matcher = matcher_of(rt.alloc(), text.as_str()).expect(&rt, "accepted");
    let one = matcher.find(&[1, 0, 0, 0]).expect(&rt, "found");
    assert_eq!(rt; one.inst.constructor, 0);
    let two = matcher.find(&[2, 0, 0, 0]).expect(&rt, "found");
    assert_eq!(rt; two.inst.constructor, 1);
    Ok(())
}
