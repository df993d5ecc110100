//! Compares each file of `data/` with the text that is shipped under its name.
#![tactic(auto)]

use desc_texts::shipped;
use edge_io::{FileStore, StdoutSink, Store, Word, put_all};
use std::alloc::Global;
use std::process::ExitCode;

/// More bytes than any shipped text has.
const LIMIT: u64 = 1 << 20;

fn main(rt: HostRuntime) -> ExitCode {
    let alloc = rt.alloc();
    let mut files = FileStore::new(alloc, rt);
    let mut out = StdoutSink::new(rt.stdout());
    let mut status = 0;
    for name in [
        b"sparc.sled".as_slice(),
        b"sparc.ssl".as_slice(),
        b"sparc.conv".as_slice(),
        b"i386.sled".as_slice(),
        b"i386.ssl".as_slice(),
        b"i386.conv".as_slice(),
        b"uqbt.h".as_slice(),
    ] {
        let answer = match is_as_shipped(alloc, &mut files, name) {
            true => b" is as shipped\n".as_slice(),
            false => b" differs\n".as_slice(),
        };
        if put_all(&mut out, name).is_err() || put_all(&mut out, answer).is_err() {
            status = 1;
        }
    }
    ExitCode::from(status)
}

// Whether the file of that name can be read and has the bytes that are shipped.
fn is_as_shipped(alloc: Global, files: &mut FileStore, name: &[u8]) -> bool {
    let Ok(word) = Word::new(alloc, name) else {
        return false;
    };
    match (files.fetch(alloc, &word, LIMIT), shipped(name)) {
        (Ok(bytes), Some(text)) => bytes.as_slice() == text,
        _ => false,
    }
}
