// The names of a store whose files weren't given.
ghost use Rattle.std.specs.Prelude.{◌≡◌, ◌<◌, [], ◌∷◌, ◌++◌, vec_len, vec_capacity, OnOk};

use crate::Word;
use std::alloc::{AllocError, Global};

#[derive(Drop)]
pub(crate) struct Refused {
    pub(crate) failed: Vec<Word>,
    pub(crate) long: Vec<(Word, u64)>,
}

impl Refused {
    pub(crate) fn new(alloc: Global) -> Refused
        ensures failed { result.failed.items ≡ [] }
        ensures long { result.long.items ≡ [] }
    {
        Refused {
            failed: Vec::new(alloc),
            long: Vec::new(alloc),
        }
    }

    // Takes room for one more name in either list.
    pub(crate) fn reserve(&mut self) -> Result<(), AllocError>
        ensures failed { self.new.failed.items ≡ self.old.failed.items }
        ensures long { self.new.long.items ≡ self.old.long.items }
        ensures room_failed { OnOk result (vec_len self.new.failed < vec_capacity self.new.failed) }
        ensures room_long { OnOk result (vec_len self.new.long < vec_capacity self.new.long) }
    {
        self.failed.reserve(1)?;
        self.long.reserve(1)
    }
}
