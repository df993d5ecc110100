//! Ranges of addresses, and the pages that they touch.
ghost use Rattle.std.specs.Prelude.{◌≡◌, ◌↔◌, ℕ, ◌+◌, ◌*◌, ◌-◌, ◌%◌, ◌≤◌, ◌<◌, ◌^◌, length, true, IsTrue};
ghost use Rattle.page_pool.specs.Frames.{placed};
ghost use Rattle.paged_space.specs.Ranges.{InBoth, end_of, shares};
ghost use Rattle.paged_space.specs.LaidOut.{byte_wanted, pages_in, start_at};
ghost use Rattle.paged_space.specs.Built.{frames_of, touched};

use sqlite_items::Items;

/// How many bytes a page has.
const PAGE: u64 = 4096;

/// The `len` bytes from `base` on, all of which can be read, and where `write` is set be written.
///
/// `bytes` holds the first of them and is no longer than `len`; those past it are zeros.
#[derive(Debug, Drop)]
pub struct Range {
    pub base: u32,
    pub len: u32,
    pub write: bool,
    pub bytes: Items<u8>,
}

impl Range {
    /// The first address behind it, 2^33 - 2 at most.
    pub fn end(&self) -> u64
        ensures { result ≡ end_of self.now }
    {
        u64::from(self.base) + u64::from(self.len)
    }

    /// Whether some address lies in both; none lies in a range of length 0.
    pub fn shares(&self, other: &Range) -> bool
        ensures test { result ≡ shares self.now other.now }
        ensures meaning { IsTrue result ↔ InBoth self.now other.now }
    {
        let base = self.base.max(other.base);
        u64::from(base) < self.end().min(other.end())
    }

    /// How many pages it touches, where it is not empty and ends at 2^32 or before.
    pub(crate) fn pages(&self) -> usize
        requires some { 1 ≤ self.now.len }
        requires end { end_of self.now ≤ 2 ^ 32 }
        ensures { result ≡ pages_in self.now }
    {
        let last = self.base + (self.len - 1);
        (last / 4096 - self.base / 4096) as usize + 1
    }

    /// Where its bytes begin on one of its pages.
    pub(crate) fn start(&self, j: usize) -> usize
        ensures { result ≡ start_at self.now j }
    {
        if j == 0 {
            (self.base % 4096) as usize
        } else {
            0
        }
    }

    /// How many of its bytes lie before one of its pages.
    fn skipped(&self, j: usize) -> usize
        requires { j < 2 ^ 32 }
        ensures { result + self.now.base % 4096 ≡ 4096 * j + start_at self.now j }
    {
        if j == 0 {
            0
        } else {
            4096 * j - (self.base % 4096) as usize
        }
    }

    /// Its bytes on one of its pages.
    pub(crate) fn piece(&self, j: usize) -> &[u8]
        requires { j < 2 ^ 32 }
        ensures room { start_at self.now j + length result.now ≤ 4096 }
        ensures bytes { (k : ℕ) → k < 4096 → placed (start_at self.now j) result.now k ≡ byte_wanted self.now j k }
    {
        let at = self.start(j);
        let from = self.skipped(j);
        let bytes = self.bytes.as_slice();
        let (_, rest) = bytes.split_at(from.min(bytes.len()));
        let (piece, _) = rest.split_at((4096 - at).min(rest.len()));
        piece
    }
}

/// How many pages ranges touch, counted for each range.
pub fn frames_of(ranges: &[Range]) -> u64
    requires { length ranges.now < 2 ^ 32 - 1 }
    ensures { result ≡ frames_of ranges.now }
{
    let mut sum = 0;
    for range in ranges {
        sum += touched(range);
    }
    sum
}

/// How many pages a range touches.
fn touched(range: &Range) -> u64
    ensures pages { result ≡ touched range.now }
    ensures few { result ≤ 2 ^ 21 }
{
    if range.len == 0 {
        return 0;
    }
    (range.end() - 1) / PAGE - u64::from(range.base) / PAGE + 1
}
