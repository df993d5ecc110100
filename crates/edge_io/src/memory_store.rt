// Files in memory.
ghost use Rattle.std.specs.Prelude.{◌≡◌, ◌⊎◌, [], IfOk, IsErrOf, MatchResult, Ok, Err, Some, option_copied};
ghost use Rattle.edge_io.specs.Files.{names_after, IsLonger, IsFile};
ghost use Rattle.edge_io.specs.StoreState.{StoreState, file_named, fetch_answer, store_after};

use crate::refused::Refused;
use crate::{Fetch, Store, Word};
use std::alloc::Global;
use std::marker::Model;

/// A file in memory.
#[derive(Drop)]
pub struct NamedFile {
    /// What it is fetched by.
    pub name: Word,
    /// What it holds.
    pub bytes: Vec<u8>,
}

/// Files in memory, with calls that fail by their number.
#[derive(Drop)]
pub struct MemStore {
    files: Vec<NamedFile>,
    fails: Vec<u64>,
    calls: u64,
    refused: Refused,
}

impl Model for MemStore {
    ghost use Rattle.edge_io.specs.StoreState.{StoreState};

    ghost Value = { StoreState };

    ghost view = { λ s. record {
      files = s.files.items;
      fails = s.fails.items;
      calls = s.calls;
      names = record { failed = s.refused.failed.items; long = s.refused.long.items };
    } };
}

impl MemStore {
    /// A store of these files, of which the first of a name counts. The calls whose numbers, from 1,
    /// are in `fails` fail.
    pub fn new(alloc: Global, files: Vec<NamedFile>, fails: Vec<u64>) -> MemStore
        ensures { result ≡ record {
          files = files.items;
          fails = fails.items;
          calls = 0;
          names = record { failed = []; long = [] };
        } }
    {
        MemStore {
            files,
            fails,
            calls: 0,
            refused: Refused::new(alloc),
        }
    }
}

// The first file of that name.
fn find<'a>(files: &'a [NamedFile], name: &Word) -> Option<&'a [u8]>
    ensures { option_copied result ≡ file_named files.now name.now }
{
    for file in files {
        if file.name.bytes() == name.bytes() {
            return Some(file.bytes.as_slice());
        }
    }
    None
}

impl Store for MemStore {
    ghost names = { λ s. s.names };

    ghost files = { λ s. Some (file_named s.files) };

    fn fetch(&mut self, alloc: Global, name: &Word, limit: u64) -> Result<Vec<u8>, Fetch>
        ensures bytes { IfOk result (λ v. IsFile (Some (file_named self.old.files)) name.now limit v.items) }
        ensures longer { IsErrOf result Fetch.TooLong →
            IsLonger (Some (file_named self.old.files)) name.now limit }
        ensures names { self.new.names ≡ names_after self.old.names name.now limit result }
        ensures files { Some (file_named self.new.files) ≡ Some (file_named self.old.files) }

        // Exactly this, but for want of memory.
        ensures answer { MatchResult result
            (λ v. fetch_answer self.old name.now limit ≡ Ok v.items)
            (λ e. (e ≡ Fetch.NoMemory) ⊎ (fetch_answer self.old name.now limit ≡ Err e)) }
        ensures after { self.new ≡ store_after self.old name.now limit result }
    {
        self.calls = self.calls.saturating_add(1);
        let Ok(kept) = name.copy(alloc) else {
            return Err(Fetch::NoMemory);
        };
        if self.refused.reserve().is_err() {
            return Err(Fetch::NoMemory);
        }
        if self.fails.as_slice().contains(&self.calls) {
            self.refused.failed.push_reserved(kept);
            return Err(Fetch::Failed);
        }
        let Some(bytes) = find(&self.files, name) else {
            self.refused.failed.push_reserved(kept);
            return Err(Fetch::Failed);
        };
        if bytes.len() as u64 > limit {
            self.refused.long.push_reserved((kept, limit));
            return Err(Fetch::TooLong);
        }
        match bytes.to_vec(alloc) {
            Ok(copy) => Ok(copy),
            Err(_) => Err(Fetch::NoMemory),
        }
    }
}
