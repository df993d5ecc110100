//! Looking up the page of an address.
ghost use Rattle.std.specs.Prelude.{◌≡◌, ◌<◌, length, slice_index_or, true, IfOk, IfSome};
ghost use Rattle.paged_space.specs.PageTable.{extent_holds, is_laid, place_at};
ghost use Rattle.paged_space.specs.Lookup.{IsPassed, OnPage};

use crate::extent::Extent;
use std::alloc::{AllocError, Global};
use std::cell::Cell;
use std::marker::Model;

/// Extents by address, seen as their list. The one that was found last is looked at first.
#[derive(Drop)]
pub(crate) struct Extents {
    list: Vec<Extent>,
    // Any place: it is looked at before it is used.
    last: Cell<usize>,
}

impl Model for Extents {
    ghost use Rattle.std.specs.Prelude.{List};
    ghost use Rattle.paged_space.specs.declared.extent.Extent.{Extent};

    ghost Value = { List Extent };

    ghost view = { λ s. s.list.items };
}

impl Extents {
    /// These extents.
    pub(crate) fn new(list: Vec<Extent>) -> Extents
        ensures { result ≡ list.items }
    {
        Extents {
            list,
            last: Cell::new(0),
        }
    }

    /// The same extents.
    pub(crate) fn copied(&self, alloc: Global) -> Result<Extents, AllocError>
        ensures { IfOk result (λ copy. copy ≡ self.now) }
    {
        Ok(Extents::new(Vec::from_slice(alloc, &self.list)?))
    }

    /// The place of the page of an address.
    pub(crate) fn place_of(&self, pages: usize, a: u32) -> Option<usize>
        requires { is_laid 0 0 self.now pages ≡ true }
        ensures { result ≡ place_at self.now a }
    {
        let at = passed(&self.list, &self.last, pages, a);
        place_in(&self.list, at, pages, a)
    }

    /// The place of the page on which some bytes lie together.
    pub(crate) fn word_of(&self, pages: usize, a: u32, bytes: u8) -> Option<usize>
        requires { is_laid 0 0 self.now pages ≡ true }
        ensures { IfSome result (λ k. OnPage self.now a bytes k) }
    {
        let at = passed(&self.list, &self.last, pages, a);
        word_in(&self.list, at, pages, a, bytes)
    }
}

/// How many extents end at or below an address.
fn passed(extents: &[Extent], last: &Cell<usize>, pages: usize, a: u32) -> usize
    requires { is_laid 0 0 extents.now pages ≡ true }
    ensures { IsPassed extents.now a result }
{
    let hint = last.get();
    if holds_at(extents, hint, a) {
        return hint;
    }
    let at = extents.partition_point(|extent| extent.end() <= u64::from(a));
    last.set(at);
    at
}

/// Whether there is an extent at this place, and an address lies in it.
fn holds_at(extents: &[Extent], at: usize, a: u32) -> bool
    ensures { result ≡ true → (at < length extents.now) × (extent_holds (slice_index_or extents.now at (record { base = 0; len = 0; first = 0 })) a ≡ true) }
{
    if at >= extents.len() {
        return false;
    }
    let extent = extents[at];
    extent.base <= a && u64::from(a) < extent.end()
}

/// The place of the page of an address, where the extent at this place is the first one that ends above it.
fn place_in(extents: &[Extent], at: usize, pages: usize, a: u32) -> Option<usize>
    requires laid { is_laid 0 0 extents.now pages ≡ true }
    requires passed { IsPassed extents.now a at }
    ensures { result ≡ place_at extents.now a }
{
    if at == extents.len() {
        return None;
    }
    let extent = extents[at];
    if a < extent.base {
        return None;
    }
    Some(extent.first + (a / 4096 - extent.base / 4096) as usize)
}

/// The place of the page on which some bytes lie together, where the extent at this place is the first one that ends above them.
fn word_in(extents: &[Extent], at: usize, pages: usize, a: u32, bytes: u8) -> Option<usize>
    requires laid { is_laid 0 0 extents.now pages ≡ true }
    requires passed { IsPassed extents.now a at }
    ensures { IfSome result (λ k. OnPage extents.now a bytes k) }
{
    if at == extents.len() {
        return None;
    }
    let extent = extents[at];
    let end = u64::from(a) + u64::from(bytes);
    if a < extent.base || extent.end() < end || a % 4096 + u32::from(bytes) > 4096 {
        return None;
    }
    Some(extent.first + (a / 4096 - extent.base / 4096) as usize)
}
