// The top call over files, a source and sinks in memory.
use crate::{Outcome, uqbt_main};
use edge_io::{MemSink, MemSource, MemStore, NamedFile, Word};
use std::alloc::Global;
use std::test::Fail;

pub const SLED: &[u8] =
    b"order big\nfields of w (32) op 30:31 rd 25:29 op3 19:24 rs1 14:18 i 13:13 imm 0:12 all 0:31\nconstructor ORI rs1, imm, rd is op = 2 & op3 = 2 & i = 1 & rs1 & imm & rd\nconstructor TA is all = 0x91D02010";

pub const SSL: &[u8] =
    b"align yes\ndelay 4\ncells r[32] 32\ncell C 1\nzero r[0]\ninstruction ORI (rs1, imm, rd) := *32* r[rd] := (r[rs1] | sx(32, imm))\ninstruction TA () := service";

pub const CONV: &[u8] =
    b"elf 2\nstack r[14] 0xEF000000 0x00800000 256\nheap 0x20000000 0x01000000\nservice r[1] args r[8] r[9] r[10] result r[8] error C\nexit 1\nread 3\nwrite 4\nbrk 17\nerrors fault 14 descriptor 9 unknown 90";

pub const EXE: &[u8] =
    b"\x7FELF\x01\x02\x01\0\0\0\0\0\0\0\0\0\0\x02\0\x02\0\0\0\x01\0\x01\0\0\0\0\0\x34\0\0\0\0\0\0\0\0\0\x34\0\x20\0\x01\0\0\0\0\0\0\0\0\0\x01\0\0\0\x54\0\x01\0\0\0\x01\0\0\0\0\0\x0C\0\0\0\x0C\0\0\0\x05\0\0\0\x04\x82\x10\x20\x01\x90\x10\x20\x03\x91\xD0\x20\x10";

// The four files of a call, by the words `a` to `d`.
#[derive(Clone, Copy)]
pub struct Texts<'a> {
    pub sled: &'a [u8],
    pub ssl: &'a [u8],
    pub conv: &'a [u8],
    pub exe: &'a [u8],
}

pub const FINE: Texts<'static> = Texts {
    sled: SLED,
    ssl: SSL,
    conv: CONV,
    exe: EXE,
};

fn file(alloc: Global, name: &[u8], bytes: &[u8]) -> Result<NamedFile, Fail> {
    let name = Word::new(alloc, name)?;
    let bytes = bytes.to_vec(alloc)?;
    Ok(NamedFile { name, bytes })
}

fn store(alloc: Global, texts: &Texts<'_>) -> Result<MemStore, Fail> {
    let mut files = Vec::new(alloc);
    files.push(file(alloc, b"a", texts.sled)?)?;
    files.push(file(alloc, b"b", texts.ssl)?)?;
    files.push(file(alloc, b"c", texts.conv)?)?;
    files.push(file(alloc, b"d", texts.exe)?)?;
    Ok(MemStore::new(alloc, files, Vec::new(alloc)))
}

fn words(alloc: Global, command: &[u8], letters: &[u8], steps: &[u8]) -> Result<Vec<Word>, Fail> {
    let mut words = Vec::new(alloc);
    words.push(Word::new(alloc, command)?)?;
    for letter in letters {
        words.push(Word::new(alloc, &[*letter])?)?;
    }
    if command == b"run".as_slice() {
        words.push(Word::new(alloc, steps)?)?;
    }
    Ok(words)
}

// The answer for a command whose file words are these letters; a run has a number of steps behind them.
pub fn answer(
    alloc: Global,
    command: &[u8],
    letters: &[u8],
    steps: &[u8],
    texts: &Texts<'_>,
    input: &mut MemSource,
    out: &mut MemSink,
    messages: &mut MemSink,
) -> Result<Outcome, Fail> {
    let words = words(alloc, command, letters, steps)?;
    let mut files = store(alloc, texts)?;
    Ok(uqbt_main(alloc, &words, &mut files, input, out, messages))
}

// A source of these bytes, of which the takes of these numbers fail.
pub fn source(alloc: Global, bytes: &[u8], fails: Vec<u64>) -> Result<MemSource, Fail> {
    Ok(MemSource::new(bytes.to_vec(alloc)?, 4096, fails))
}

pub fn sink(alloc: Global) -> Result<MemSink, Fail> {
    Ok(MemSink::new(alloc, 1 << 16, 7, Vec::new(alloc))?)
}

// The answer alone.
pub fn plainly(
    alloc: Global,
    command: &[u8],
    letters: &[u8],
    steps: &[u8],
    texts: &Texts<'_>,
) -> Result<Outcome, Fail> {
    answer(
        alloc,
        command,
        letters,
        steps,
        texts,
        &mut source(alloc, b"", Vec::new(alloc))?,
        &mut sink(alloc)?,
        &mut sink(alloc)?,
    )
}

#[test]
fn words_and_files_are_asked_first(rt: HostRuntime) -> Result<(), Fail> {
    let alloc = rt.alloc();
    for (command, letters, want) in [
        (b"translate".as_slice(), b"abc".as_slice(), Outcome::Usage),
        (b"check", b"abcd", Outcome::Usage),
        (b"run", b"abc", Outcome::Usage),
        (b"walk", b"abcd", Outcome::Usage),
        (b"translate", b"abcx", Outcome::ReadFault),
        (b"check", b"xbc", Outcome::ReadFault),
        (b"run", b"axcd", Outcome::ReadFault),
    ] {
        assert_eq!(rt; plainly(alloc, command, letters, b"1", &FINE)?, want);
    }
    Ok(())
}
