//! How deep a text nests, how much it declares, and where it ends.
use super::texts::{WHOLE, changed, fault_of, place_of};
use c_read::CFault;
use itoa::Buffer;
use std::alloc::{AllocError, Global};
use std::test::Fail;

/// Adds a part so many times.
fn times(text: &mut Vec<u8>, part: &[u8], count: usize) -> Result<(), AllocError> {
    for _ in 0..count {
        text.extend_from_slice(part)?;
    }
    Ok(())
}

/// The fault where `t0 = 0ull;` sets an expression that stands inside so many others.
fn fault_of_nested(alloc: Global, count: usize) -> Result<Option<CFault>, AllocError> {
    let mut new = Vec::from_slice(alloc, b"t0 = ")?;
    times(&mut new, b"(", count)?;
    new.extend_from_slice(b"1ull")?;
    times(&mut new, b" + 1ull)", count)?;
    new.extend_from_slice(b";")?;
    Ok(fault_of(alloc, &changed(alloc, b"t0 = 0ull;", &new)?))
}

/// The fault where `t0 = 0ull;` stands inside so many `if`s.
fn fault_of_inner(alloc: Global, count: usize) -> Result<Option<CFault>, AllocError> {
    let mut new = Vec::new(alloc);
    times(&mut new, b"if (t0) {", count)?;
    new.extend_from_slice(b"t0 = 0ull;")?;
    times(&mut new, b"}", count)?;
    Ok(fault_of(alloc, &changed(alloc, b"t0 = 0ull;", &new)?))
}

/// The fault where so many variables of a letter are declared in place of others, from a number on.
fn fault_of_declared(
    alloc: Global,
    old: &[u8],
    letter: &[u8],
    from: u32,
    to: u32,
) -> Result<Option<CFault>, AllocError> {
    let mut new = Vec::new(alloc);
    for number in from..to {
        let mut digits = Buffer::new();
        new.extend_from_slice(b"u64 ")?;
        new.extend_from_slice(letter)?;
        new.extend_from_slice(digits.format(number).as_bytes())?;
        new.extend_from_slice(b";\n")?;
    }
    Ok(fault_of(alloc, &changed(alloc, old, &new)?))
}

#[test]
fn nesting_has_limits(rt: HostRuntime) -> Result<(), Fail> {
    let alloc = rt.alloc();
    assert!(&rt; fault_of_nested(alloc, 2000)? == None);
    assert!(&rt; fault_of_nested(alloc, 2001)? == Some(CFault::BadItem { index: 7 }));
    assert!(&rt; fault_of_nested(alloc, 100000)? == Some(CFault::BadItem { index: 7 }));
    assert!(&rt; fault_of_inner(alloc, 200)? == None);
    assert!(&rt; fault_of_inner(alloc, 201)? == Some(CFault::BadItem { index: 7 }));
    Ok(())
}

#[test]
fn declarations_have_limits(rt: HostRuntime) -> Result<(), Fail> {
    let alloc = rt.alloc();
    let rule = Some(CFault::Static { index: 7, rule: 6 });
    assert!(&rt; fault_of_declared(alloc, b"u64 t1;", b"t", 1, 512)? == None);
    assert!(&rt; fault_of_declared(alloc, b"u64 t1;", b"t", 1, 513)? == rule);
    assert!(&rt;
        fault_of_declared(alloc, b"u64 c3;", b"c", 13, 131)?
            == Some(CFault::Static { index: 7, rule: 2 })
    );
    assert!(&rt;
        fault_of_declared(alloc, b"    u64 t0;\n", b"c", 13, 130)?
            == Some(CFault::BadItem { index: 7 })
    );
    assert!(&rt;
        fault_of_declared(alloc, b"    u64 pt;\n    u64 c3;\n", b"c", 3, 4)?
            == Some(CFault::BadItem { index: 7 })
    );
    Ok(())
}

#[test]
fn texts_that_end_early(rt: HostRuntime) -> Result<(), Fail> {
    let alloc = rt.alloc();
    assert!(&rt; fault_of(alloc, b"") == Some(CFault::BadItem { index: 0 }));
    assert!(&rt; fault_of(alloc, b"#include \"uqbt.h\"") == Some(CFault::BadItem { index: 1 }));
    assert!(&rt; fault_of(alloc, b"#include \"uqbt.h\"\n") == Some(CFault::BadItem { index: 1 }));
    let (front, _) = WHOLE.split_at(
        place_of(b"{\n    u64 pt;")
            .saturating_add(1)
            .min(WHOLE.len()),
    );
    assert!(&rt; fault_of(alloc, front) == Some(CFault::BadItem { index: 7 }));
    Ok(())
}

#[test]
fn as_many_temporaries_as_have_names(rt: HostRuntime) -> Result<(), Fail> {
    let alloc = rt.alloc();
    assert!(&rt;
        fault_of_declared(alloc, b"u64 t1;", b"t", 1, 65536)?
            == Some(CFault::Static { index: 7, rule: 6 })
    );
    Ok(())
}

#[test]
fn one_temporary_more(rt: HostRuntime) -> Result<(), Fail> {
    let alloc = rt.alloc();
    assert!(&rt;
        fault_of_declared(alloc, b"u64 t1;", b"t", 1, 65537)? == Some(CFault::BadItem { index: 7 })
    );
    Ok(())
}
