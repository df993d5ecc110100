// The files and streams of the system. They tell no content.
ghost use Rattle.std.specs.Prelude.{◌≡◌, ◌≤◌, ◌<◌, [], length, drop, IfOk, OnErr, None};
ghost use Rattle.edge_io.specs.Counts.{HasCause, faults_after};
ghost use Rattle.edge_io.specs.Input.{Gives, given_after, EndsAt};
ghost use Rattle.edge_io.specs.Output.{Takes};

use crate::refused::Refused;
use crate::{Failed, Fetch, ReadEnd, Sink, Source, Store, Word, read_all};
use std::alloc::Global;
use std::fs::File;
use std::io::{Read, Stderr, Stdin, Stdout, Write};
use std::marker::Model;

/// A reader of std as a source.
#[derive(Drop)]
pub struct ReaderSource<R: Read + Drop> {
    inner: R,
    given: u64,
    faults: u64,
}

/// Standard input.
pub type StdinSource = ReaderSource<Stdin>;

impl<R: Read + Drop> Model for ReaderSource<R> {
    ghost use Rattle.std.specs.Prelude.{None};
    ghost use Rattle.edge_io.specs.Input.{Input};

    ghost Value = { Input };

    ghost view = { λ s. record { left = None; given = s.given; faults = s.faults } };
}

impl<R: Read + Drop> ReaderSource<R> {
    /// The source that gives what `inner` reads.
    pub fn new(inner: R) -> Self
        ensures { result ≡ record { left = None; given = 0; faults = 0 } }
    {
        ReaderSource {
            inner,
            given: 0,
            faults: 0,
        }
    }
}

const CHUNK: usize = 4096;

impl<R: Read + Drop> Source for ReaderSource<R> {
    ghost input = { λ s. s };

    fn take(&mut self, buf: &mut [u8]) -> Result<usize, Failed>
        requires { 0 < length buf.old }
        ensures bound { IfOk result (λ n. n ≤ length buf.old) }
        ensures bytes { Gives self.old.left self.new.left result buf.new }
        ensures others { IfOk result (λ n. drop n buf.new ≡ drop n buf.old) }
        ensures end { IfOk result (EndsAt self.old.left) }
        ensures given { self.new.given ≡ given_after self.old.given result }
        ensures cause { HasCause self.old.faults self.new.faults result }
        ensures failed { OnErr result (buf.new ≡ buf.old) }
        ensures faults { self.new.faults ≡ faults_after self.old.faults result }
    {
        // What a reader does to the rest of its buffer isn't known, so it gets one of its own.
        let mut chunk = [0; CHUNK];
        let most = buf.len().min(CHUNK);
        match self.inner.read(&mut chunk[..most]) {
            Ok(count) => {
                buf[..count].copy_from_slice(&chunk[..count]);
                self.given = self.given.saturating_add(count as u64);
                Ok(count)
            }
            Err(_) => {
                self.faults = self.faults.saturating_add(1);
                Err(Failed)
            }
        }
    }
}

/// A writer of std as a sink.
#[derive(Drop)]
pub struct WriterSink<W: Write + Drop> {
    inner: W,
    faults: u64,
}

/// Standard output.
pub type StdoutSink = WriterSink<Stdout>;

/// Standard error.
pub type StderrSink = WriterSink<Stderr>;

impl<W: Write + Drop> Model for WriterSink<W> {
    ghost use Rattle.std.specs.Prelude.{None};
    ghost use Rattle.edge_io.specs.Output.{Output};

    ghost Value = { Output };

    ghost view = { λ s. record { taken = None; faults = s.faults } };
}

impl<W: Write + Drop> WriterSink<W> {
    /// The sink that writes to `inner`.
    pub fn new(inner: W) -> Self
        ensures { result ≡ record { taken = None; faults = 0 } }
    {
        WriterSink { inner, faults: 0 }
    }
}

impl<W: Write + Drop> Sink for WriterSink<W> {
    ghost output = { λ s. s };

    fn put(&mut self, piece: &[u8]) -> Result<usize, Failed>
        requires { 0 < length piece.now }
        ensures some { IfOk result (λ n. 0 < n) }
        ensures bound { IfOk result (λ n. n ≤ length piece.now) }
        ensures bytes { Takes self.old.taken self.new.taken result piece.now }
        ensures cause { HasCause self.old.faults self.new.faults result }
        ensures faults { self.new.faults ≡ faults_after self.old.faults result }
    {
        match self.inner.write(piece) {
            Ok(count) if count > 0 => Ok(count),
            _ => {
                self.faults = self.faults.saturating_add(1);
                Err(Failed)
            }
        }
    }
}

/// The files of the system. A name that isn't UTF-8 names none.
#[derive(Drop)]
pub struct FileStore {
    rt: HostRuntime,
    refused: Refused,
}

impl Model for FileStore {
    ghost use Rattle.edge_io.specs.Files.{Names};

    ghost Value = { Names };

    ghost view = { λ s. record { failed = s.refused.failed.items; long = s.refused.long.items } };
}

impl FileStore {
    /// The store of the files that `rt` reaches.
    pub fn new(alloc: Global, rt: HostRuntime) -> Self
        ensures { result ≡ record { failed = []; long = [] } }
    {
        FileStore {
            rt,
            refused: Refused::new(alloc),
        }
    }
}

fn read_file(alloc: Global, rt: HostRuntime, name: &Word, limit: u64) -> Result<Vec<u8>, Fetch>
    ensures { IfOk result (λ v. length v.items ≤ limit) }
{
    let Ok(path) = str::from_utf8(name.bytes()) else {
        return Err(Fetch::Failed);
    };
    let Ok(file) = File::open(&rt, path) else {
        return Err(Fetch::Failed);
    };
    let mut source = ReaderSource::new(file);
    match read_all(alloc, &mut source, limit) {
        Ok(bytes) => Ok(bytes),
        Err(ReadEnd::Fault) => Err(Fetch::Failed),
        Err(ReadEnd::TooLong) => Err(Fetch::TooLong),
        Err(ReadEnd::NoMemory) => Err(Fetch::NoMemory),
    }
}

impl Store for FileStore {
    ghost names = { λ s. s };

    ghost files = { λ _. None };

    fn fetch(&mut self, alloc: Global, name: &Word, limit: u64) -> Result<Vec<u8>, Fetch> {
        let Ok(kept) = name.copy(alloc) else {
            return Err(Fetch::NoMemory);
        };
        // Room for a refusal is taken before the file is touched.
        if self.refused.reserve().is_err() {
            return Err(Fetch::NoMemory);
        }
        match read_file(alloc, self.rt, name, limit) {
            Ok(bytes) => Ok(bytes),
            Err(Fetch::NoMemory) => Err(Fetch::NoMemory),
            Err(Fetch::Failed) => {
                self.refused.failed.push_reserved(kept);
                Err(Fetch::Failed)
            }
            Err(Fetch::TooLong) => {
                self.refused.long.push_reserved((kept, limit));
                Err(Fetch::TooLong)
            }
        }
    }
}
