//! A retargetable static binary translator: the words of the command line go to the top call, and the status
//! is that of its answer.
#![tactic(auto)]

use edge_io::{FileStore, Sink, StderrSink, StdinSource, StdoutSink, Word, put_all};
use std::alloc::{AllocError, Global};
use std::env::{Env, FillError};
use std::process::ExitCode;
use uqbt_top::{Outcome, uqbt_main};

const HELP: &[u8] =
    b"usage: uqbt translate SLED SSL CONV EXE\n       uqbt run SLED SSL CONV EXE N\n       uqbt check SLED SSL CONV\n       uqbt text NAME\n";

const VERSION: &[u8] = b"uqbt 0.1.0\n";

fn main(rt: HostRuntime) -> ExitCode {
    let alloc = rt.alloc();
    let mut out = StdoutSink::new(rt.stdout());
    let Ok(words) = words_of(alloc, rt) else {
        return ExitCode::from(Outcome::NoMemory.status());
    };
    if let [word] = words.as_slice() {
        if word.bytes() == b"--help".as_slice() {
            return shown(&mut out, HELP);
        }
        if word.bytes() == b"--version".as_slice() {
            return shown(&mut out, VERSION);
        }
    }
    let mut files = FileStore::new(alloc, rt);
    let mut input = StdinSource::new(rt.stdin());
    let mut messages = StderrSink::new(rt.stderr());
    let outcome = uqbt_main(
        alloc,
        &words,
        &mut files,
        &mut input,
        &mut out,
        &mut messages,
    );
    ExitCode::from(outcome.status())
}

// Shows a text, and nothing else is done.
fn shown<K: Sink>(out: &mut K, text: &[u8]) -> ExitCode {
    let outcome = match put_all(out, text) {
        Ok(()) => Outcome::Done,
        Err(_) => Outcome::WriteFault,
    };
    ExitCode::from(outcome.status())
}

// The words behind the program's name.
fn words_of(alloc: Global, rt: HostRuntime) -> Result<Vec<Word>, AllocError> {
    let mut words = Vec::new(alloc);
    for number in 1..usize::MAX {
        match word_at(alloc, rt, number)? {
            Some(word) => words.push(word)?,
            None => break,
        }
    }
    Ok(words)
}

// The word of that number, or None behind the last one. The buffer grows until the word fits.
fn word_at(alloc: Global, rt: HostRuntime, number: usize) -> Result<Option<Word>, AllocError> {
    let mut room = 256_usize;
    for _ in 0..usize::BITS {
        let mut buffer = vec![in alloc; 0_u8; room]?;
        match rt.arg(number, &mut buffer) {
            Ok(length) => return Ok(Some(Word::new(alloc, &buffer[..length])?)),
            Err(FillError::NotPresent) => return Ok(None),
            Err(FillError::TooLong) => room = room.saturating_mul(2),
        }
    }
    Err(AllocError)
}
