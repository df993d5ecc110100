//! Addresses in a row, and where their pages stand.
ghost use Rattle.std.specs.Prelude.{◌≡◌};
ghost use Rattle.paged_space.specs.PageTable.{extent_end};

/// The `len` addresses from `base` on, whose pages stand from `first` on among those of a Space.
#[derive(Clone, Copy, Debug)]
pub struct Extent {
    pub base: u32,
    pub len: u32,
    pub first: usize,
}

impl Extent {
    /// The first address behind it.
    pub(crate) fn end(&self) -> u64
        ensures { result ≡ extent_end self.now }
    {
        u64::from(self.base) + u64::from(self.len)
    }
}
