// Files by their names.
ghost use Rattle.std.specs.Prelude.{◌≡◌, IfOk, IsErrOf};
ghost use Rattle.std.specs.declared.option.Option.{Option};
ghost use Rattle.edge_io.specs.Files.{Files, Names, names_after, IsLonger, IsFile};

use crate::Word;
use std::alloc::Global;

/// Why a file isn't given.
#[derive(Clone, Copy, Debug, PartialEq, Eq)]
pub enum Fetch {
    /// The call failed, or there is no such file.
    Failed,
    /// The file has more bytes than the limit.
    TooLong,
    /// No memory was found for the name or the bytes.
    NoMemory,
}

/// Files that are given whole, up to a limit.
pub trait Store {
    /// The names that were refused, in order. How many failed is the store's count of faults.
    ghost names: { Self → Names };

    /// The files, where the store tells them.
    ghost files: { Self → Option Files };

    /// The bytes of the file of that name, of which there are at most `limit`.
    fn fetch(&mut self, alloc: Global, name: &Word, limit: u64) -> Result<Vec<u8>, Fetch>
        ensures bytes { IfOk result (λ v. IsFile (files self.old) name.now limit v.items) }
        ensures longer { IsErrOf result Fetch.TooLong → IsLonger (files self.old) name.now limit }
        ensures names { names self.new ≡ names_after (names self.old) name.now limit result }
        ensures files { files self.new ≡ files self.old };
}
