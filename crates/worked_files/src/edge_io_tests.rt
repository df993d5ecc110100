//! Calls on objects in memory and of the system, each at a type through its bound.
use edge_io::{
    Fetch, FileStore, MemSink, MemSource, MemStore, NamedFile, ReadEnd, ReaderSource, Source,
    StderrSink, StdinSource, StdoutSink, Store, Word, WriteFault, put_all, read_all,
};
use std::alloc::Global;
use std::fs;
use std::test::Fail;

fn word(alloc: Global, bytes: &[u8]) -> Result<Word, Fail> {
    Ok(Word::new(alloc, bytes)?)
}

// What a whole read of `abc` in pieces of one byte gives, if the take of that number fails.
fn read_abc(alloc: Global, failing: u64, limit: u64) -> Result<Result<Vec<u8>, ReadEnd>, Fail> {
    let fails = [failing].to_vec(alloc)?;
    let mut source = MemSource::new(b"abc".to_vec(alloc)?, 1, fails);
    Ok(read_all(alloc, &mut source, limit))
}

#[test]
fn words_are_their_bytes(rt: HostRuntime) -> Result<(), Fail> {
    let name = word(rt.alloc(), b"a\xFF")?;
    assert_eq!(rt; name.bytes(), b"a\xFF".as_slice());
    assert!(rt; name == name.copy(rt.alloc())?);
    assert!(rt; name != word(rt.alloc(), b"a")?);
    Ok(())
}

#[test]
fn read_all_ends_by_faults_and_limit(rt: HostRuntime) -> Result<(), Fail> {
    for failing in 1..5 {
        assert_eq!(rt;
            read_abc(rt.alloc(), failing, 9)?.err(),
            Some(ReadEnd::Fault),
            "take {failing} fails"
        );
    }
    for limit in 0..3 {
        assert_eq!(rt;
            read_abc(rt.alloc(), 0, limit)?.err(),
            Some(ReadEnd::TooLong),
            "limit {limit}"
        );
    }
    let all = read_abc(rt.alloc(), 5, 3)?;
    assert!(rt; all.is_ok_and(|bytes| bytes.as_slice() == b"abc".as_slice()));
    Ok(())
}

#[test]
fn a_take_fills_the_front(rt: HostRuntime) -> Result<(), Fail> {
    let mut source = MemSource::new(b"abc".to_vec(rt.alloc())?, 2, Vec::new(rt.alloc()));
    let mut buf = *b"xxxx";
    assert_eq!(rt; source.take(&mut buf), Ok(2));
    assert_eq!(rt; buf.as_slice(), b"abxx".as_slice());
    assert_eq!(rt; source.take(&mut buf), Ok(1));
    assert_eq!(rt; source.take(&mut buf), Ok(0));
    Ok(())
}

#[test]
fn put_all_stops_at_a_fault(rt: HostRuntime) -> Result<(), Fail> {
    for (failing, room, piece, held) in [
        (1, 6, 1, 0),
        (2, 6, 1, 1),
        (6, 6, 1, 5),
        (7, 6, 1, 6),
        (2, 9, 4, 4),
        (3, 9, 4, 6),
        (0, 0, 1, 0),
        (0, 5, 1, 5),
        (0, 5, 4, 5),
    ] {
        let fails = [failing].to_vec(rt.alloc())?;
        let mut sink = MemSink::new(rt.alloc(), room, piece, fails)?;
        let want = if held == 6 { Ok(()) } else { Err(WriteFault) };
        assert_eq!(rt;
            put_all(&mut sink, b"uqbt!\n"),
            want,
            "put {failing} fails, room {room}"
        );
        assert_eq!(rt;
            sink.bytes().len(),
            held,
            "put {failing} fails, room {room}"
        );
        assert!(rt; b"uqbt!\n".as_slice().starts_with(sink.bytes()));
        assert_eq!(rt; put_all(&mut sink, b""), Ok(()));
    }
    Ok(())
}

// What a store answers: the number of bytes, or why there are none.
fn fetched<F: Store>(
    alloc: Global,
    files: &mut F,
    name: &[u8],
    limit: u64,
) -> Result<usize, Fetch> {
    let Ok(name) = Word::new(alloc, name) else {
        return Err(Fetch::NoMemory);
    };
    files.fetch(alloc, &name, limit).map(|bytes| bytes.len())
}

fn named(alloc: Global, name: &[u8], bytes: &[u8]) -> Result<NamedFile, Fail> {
    Ok(NamedFile {
        name: Word::new(alloc, name)?,
        bytes: bytes.to_vec(alloc)?,
    })
}

#[test]
fn a_store_gives_the_first_file_of_a_name(rt: HostRuntime) -> Result<(), Fail> {
    let alloc = rt.alloc();
    let mut files = Vec::new(alloc);
    files.push(named(alloc, b"a", b"abc")?)?;
    files.push(named(alloc, b"b", b"")?)?;
    files.push(named(alloc, b"a", b"abcde")?)?;
    let mut store = MemStore::new(alloc, files, [5].to_vec(alloc)?);
    for (name, limit, want) in [
        (b"a", 3, Ok(3)),
        (b"a", 2, Err(Fetch::TooLong)),
        (b"b", 0, Ok(0)),
        (b"c", 9, Err(Fetch::Failed)),
        (b"a", 2, Err(Fetch::Failed)),
        (b"a", 9, Ok(3)),
    ] {
        assert_eq!(rt;
            fetched(alloc, &mut store, name.as_slice(), limit),
            want,
            "limit {limit}"
        );
    }
    Ok(())
}

#[test]
fn the_system_gives_a_file_up_to_its_limit(rt: HostRuntime) -> Result<(), Fail> {
    let alloc = rt.alloc();
    let path = "edge_io.tmp";
    let mut store = FileStore::new(alloc, rt);
    fs::write(&rt, path, "abc")?;
    let all = fetched(alloc, &mut store, path.as_bytes(), 3);
    let over = fetched(alloc, &mut store, path.as_bytes(), 2);
    fs::remove_file(&rt, path)?;
    assert_eq!(rt; all, Ok(3));
    assert_eq!(rt; over, Err(Fetch::TooLong));
    assert_eq!(rt;
        fetched(alloc, &mut store, path.as_bytes(), 3),
        Err(Fetch::Failed)
    );
    assert_eq!(rt; fetched(alloc, &mut store, b"\xFF", 3), Err(Fetch::Failed));
    Ok(())
}

#[test]
fn a_reader_gives_its_bytes(rt: HostRuntime) -> Result<(), Fail> {
    let alloc = rt.alloc();
    let mut source = ReaderSource::new(b"abc".as_slice());
    let all = read_all(alloc, &mut source, 3);
    assert!(rt; all.is_ok_and(|bytes| bytes.as_slice() == b"abc".as_slice()));
    Ok(())
}

#[test]
fn standard_input_ends(rt: HostRuntime) {
    let mut source = StdinSource::new(rt.stdin());
    assert_eq!(rt; source.take(&mut [0; 4]), Ok(0));
}

#[test]
fn standard_output_takes_a_piece(rt: HostRuntime) {
    let mut out = StdoutSink::new(rt.stdout());
    assert_eq!(rt; put_all(&mut out, b"to standard output\n"), Ok(()));
}

#[test]
fn standard_error_takes_a_piece(rt: HostRuntime) {
    let mut out = StderrSink::new(rt.stderr());
    assert_eq!(rt; put_all(&mut out, b"to standard error\n"), Ok(()));
}
