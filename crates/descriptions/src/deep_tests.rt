//! Lines whose expressions nest as deep as they may, and deeper.
use super::form_tests::is_bad;
use super::spelled_tests::reads_back;
use std::alloc::{AllocError, Global};
use std::test::Fail;

/// Puts a text so many times.
fn put_times(text: &mut Vec<u8>, part: &[u8], times: usize) -> Result<(), AllocError> {
    for _ in 0..times {
        text.extend_from_slice(part)?;
    }
    Ok(())
}

/// The template of an operand: a name inside so many others.
fn nested(alloc: Global, front: &[u8], back: &[u8], levels: usize) -> Result<Vec<u8>, AllocError> {
    let mut text = Vec::new(alloc);
    text.extend_from_slice(b"operand m() := ")?;
    put_times(&mut text, front, levels)?;
    text.push(b'x')?;
    put_times(&mut text, back, levels)?;
    Ok(text)
}

/// An expression stands inside 2,000 others of this form, and inside no more.
fn nests_two_thousand_deep(alloc: Global, front: &[u8], back: &[u8]) -> Result<bool, Fail> {
    let most = nested(alloc, front, back, 2000)?;
    let more = nested(alloc, front, back, 2001)?;
    Ok(reads_back(alloc, &most)? && is_bad(alloc, &more))
}

#[test]
fn an_operand_of_signs_nests_two_thousand_deep(rt: HostRuntime) -> Result<(), Fail> {
    assert!(rt; nests_two_thousand_deep(rt.alloc(), b"~", b"")?);
    assert!(rt; nests_two_thousand_deep(rt.alloc(), b"-", b"")?);
    assert!(rt; nests_two_thousand_deep(rt.alloc(), b"(", b"+x)")?);
    assert!(rt; nests_two_thousand_deep(rt.alloc(), b"(x+", b")")?);
    Ok(())
}

#[test]
fn an_operand_of_words_nests_two_thousand_deep(rt: HostRuntime) -> Result<(), Fail> {
    assert!(rt; nests_two_thousand_deep(rt.alloc(), b"bits(", b",0,0)")?);
    assert!(rt; nests_two_thousand_deep(rt.alloc(), b"zx(8,", b")")?);
    assert!(rt; nests_two_thousand_deep(rt.alloc(), b"if(x,", b",x)")?);
    Ok(())
}

#[test]
fn loads_and_arguments_nest_two_thousand_deep(rt: HostRuntime) -> Result<(), Fail> {
    assert!(rt; nests_two_thousand_deep(rt.alloc(), b"m8[", b"]")?);
    assert!(rt; nests_two_thousand_deep(rt.alloc(), b"f(", b")")?);
    assert!(rt; nests_two_thousand_deep(rt.alloc(), b"f(x,", b")")?);
    Ok(())
}

/// A line of 65,535 bytes that opens an expression inside another with each, and has no form.
fn ends_without_a_form(alloc: Global, front: &[u8]) -> Result<bool, Fail> {
    let text = nested(alloc, front, b"", 65519)?;
    Ok(text.len() == 65535 && is_bad(alloc, &text))
}

#[test]
fn long_lines_end(rt: HostRuntime) -> Result<(), Fail> {
    assert!(rt; ends_without_a_form(rt.alloc(), b"~")?);
    assert!(rt; ends_without_a_form(rt.alloc(), b"(")?);
    Ok(())
}
