//! Places: points in the bodies of procedures.
ghost use Rattle.std.specs.Prelude.{◌≡◌, map, IfOk};
ghost use Rattle.discover.specs.Places.{place_at as seq_place, start as first_place};

use points::{Point, Slot};
use std::alloc::{AllocError, Global};

/// A point in the body of the procedure at an entry.
#[derive(Clone, Copy, Debug, PartialEq, Eq, PartialOrd, Ord, Hash)]
pub struct Place {
    pub entry: u32,
    pub point: Point,
}

/// An address in a body, with nothing to come.
pub fn place_at(entry: u32, pc: u32) -> Place
    ensures { result ≡ seq_place entry pc }
{
    Place {
        entry,
        point: Point {
            pc,
            slot: Slot::Seq,
        },
    }
}

/// Where a procedure begins.
pub fn start(entry: u32) -> Place
    ensures { result ≡ first_place entry }
{
    place_at(entry, entry)
}

/// Where procedures begin.
pub fn starts_of(alloc: Global, roots: &[u32]) -> Result<Vec<Place>, AllocError>
    ensures { IfOk result (λ v. v.items ≡ map first_place roots.now) }
{
    roots.iter().map(|entry| start(*entry)).collect(alloc)
}

/// The points of places.
pub fn points_of(alloc: Global, places: &[Place]) -> Result<Vec<Point>, AllocError>
    ensures { IfOk result (λ v. v.items ≡ map (λ p. p.point) places.now) }
{
    places.iter().map(|place| place.point).collect(alloc)
}

/// The procedures of places.
pub fn entries_of(alloc: Global, places: &[Place]) -> Result<Vec<u32>, AllocError>
    ensures { IfOk result (λ v. v.items ≡ map (λ p. p.entry) places.now) }
{
    places.iter().map(|place| place.entry).collect(alloc)
}
