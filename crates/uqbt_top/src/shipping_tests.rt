// The command `text` over a sink in memory.
use crate::tests::{sink, source};
use crate::{Outcome, uqbt_main};
use edge_io::{MemSink, MemStore, Word};
use std::alloc::Global;
use std::test::Fail;

// The answer for a name.
fn named(alloc: Global, name: &[u8], out: &mut MemSink) -> Result<Outcome, Fail> {
    let mut words = Vec::new(alloc);
    words.push(Word::new(alloc, b"text")?)?;
    words.push(Word::new(alloc, name)?)?;
    let mut files = MemStore::new(alloc, Vec::new(alloc), Vec::new(alloc));
    let mut input = source(alloc, b"", Vec::new(alloc))?;
    let mut messages = sink(alloc)?;
    Ok(uqbt_main(alloc, &words, &mut files, &mut input, out, &mut messages))
}

#[test]
fn a_shipped_text_is_put_out_and_another_name_is_usage(rt: HostRuntime) -> Result<(), Fail> {
    let alloc = rt.alloc();
    let mut out = sink(alloc)?;
    assert_eq!(rt; named(alloc, b"sparc.conv", &mut out)?, Outcome::Done);
    assert!(rt; out.bytes().starts_with(b"# "));
    let mut out = sink(alloc)?;
    assert_eq!(rt; named(alloc, b"sparc", &mut out)?, Outcome::Usage);
    assert_eq!(rt; out.bytes(), b"".as_slice());
    Ok(())
}
