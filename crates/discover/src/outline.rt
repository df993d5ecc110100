//! The points and the procedures of places.
ghost use Rattle.std.specs.Prelude.{◌≡◌, ◌<◌, ◌≤◌, ◌^◌, length, map, IfOk};
ghost use Rattle.std.specs.List.{All, Contains, IsDistinct};
ghost use Rattle.std.specs.List.Sorted.{IsStrictlySortedBy};
ghost use Rattle.std.specs.Ordering.{nat_cmp};
ghost use Rattle.points.specs.Exactly.{IsExactly};
ghost use Rattle.discover.specs.Parts.{entries_of as entries_in, body_of, IsAscendingOf, IsOutline};

use crate::bodies::{group, procs_of};
use crate::place::{Place, entries_of, points_of};
use indexmap::IndexSet;
use points::{Point, Proc};
use std::alloc::{AllocError, Global};
use worklist::ascending_set;

/// The points and the procedures of places.
#[derive(Drop)]
pub struct Outline {
    pub points: IndexSet<Point>,
    pub procs: Vec<Proc>,
}

/// The different points of places.
fn distinct_points(alloc: Global, places: &[Place]) -> Result<IndexSet<Point>, AllocError>
    ensures rise { IfOk result (λ s. IsStrictlySortedBy ⟦<Point as Ord>⟧.cmp s.keys) }
    ensures exactly { IfOk result (λ s. IsExactly (Contains (map (λ p. p.point) places.now)) s.keys) }
    ensures distinct { IfOk result (λ s. IsDistinct ⟦<Point as PartialEq>⟧.eq s.keys) }
    ensures fewer { IfOk result (λ s. length s.keys ≤ length places.now) }
{
    let all = points_of(alloc, places)?;
    ascending_set(alloc, &all)
}

/// The different procedures of places.
fn distinct_entries(alloc: Global, places: &[Place]) -> Result<IndexSet<u32>, AllocError>
    ensures rise { IfOk result (λ s. IsStrictlySortedBy nat_cmp s.keys) }
    ensures exactly { IfOk result (λ s. IsExactly (Contains (map (λ p. p.entry) places.now)) s.keys) }
{
    let all = entries_of(alloc, places)?;
    ascending_set(alloc, &all)
}

/// The procedures of places, with their bodies.
fn procedures(
    alloc: Global,
    points: &IndexSet<Point>,
    places: &[Place],
) -> Result<Vec<Proc>, AllocError>
    requires small { length points.now.keys < 2 ^ 32 }
    requires exactly { IsExactly (Contains (map (λ p. p.point) places.now)) points.now.keys }
    ensures entries_rise { IfOk result (λ v. IsStrictlySortedBy nat_cmp (entries_in v.items)) }
    ensures entries { IfOk result (λ v. IsExactly (Contains (map (λ p. p.entry) places.now)) (entries_in v.items)) }
    ensures bodies { IfOk result (λ v. All (λ p. IsAscendingOf (body_of points.now.keys places.now p.entry) p.body) v.items) }
{
    let entries = distinct_entries(alloc, places)?;
    let bodies = group(alloc, &entries, points, places)?;
    procs_of(alloc, entries.as_slice(), &bodies)
}

/// The points and the procedures of places.
pub fn outline_of(alloc: Global, places: &[Place]) -> Result<Outline, AllocError>
    requires small { length places.now < 2 ^ 32 }
    ensures { IfOk result (λ o. IsOutline places.now o.points.keys o.procs.items) }
{
    let points = distinct_points(alloc, places)?;
    let procs = procedures(alloc, &points, places)?;
    Ok(Outline { points, procs })
}
