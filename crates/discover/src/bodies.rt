//! Bodies, as places of their points among the nodes.
ghost use Rattle.std.specs.Prelude.{◌≡◌, ◌<◌, ◌^◌, [], ℕ, List, map, length, IfOk, OnOk};
ghost use Rattle.std.specs.List.{All};
ghost use Rattle.discover.specs.Parts.{bodies_of, with_place, entries_of, IsListed, IsAscendingOf};

use crate::place::Place;
use indexmap::IndexSet;
use points::{Point, Proc};
use sqlite_items::Items;
use std::alloc::{AllocError, Global};
use worklist::ascending;

/// An empty body for each procedure.
fn no_bodies(alloc: Global, entries: &[u32]) -> Result<Vec<Items<u32>>, AllocError>
    ensures { IfOk result (λ v. v.items ≡ map (λ e. []) entries.now) }
{
    let mut bodies = Vec::new(alloc);
    for entry in entries {
        bodies.push(Items::new(alloc))?;
    }
    Ok(bodies)
}

/// Puts a place into its body.
fn put_place(
    bodies: &mut Vec<Items<u32>>,
    entries: &IndexSet<u32>,
    points: &IndexSet<Point>,
    place: &Place,
) -> Result<(), AllocError>
    requires small { length points.now.keys < 2 ^ 32 }
    requires listed { IsListed entries.now.keys points.now.keys place.now }
    requires count { length bodies.old.items ≡ length entries.now.keys }
    ensures { OnOk result (bodies.new.items ≡ with_place points.now.keys entries.now.keys place.now bodies.old.items) }
{
    let Some(at) = entries.get_index_of(&place.entry) else {
        return Ok(());
    };
    let Some(index) = points.get_index_of(&place.point) else {
        return Ok(());
    };
    let body = &mut bodies[at];
    body.push(index as u32)?;
    Ok(())
}

/// The body of each procedure.
pub fn group(
    alloc: Global,
    entries: &IndexSet<u32>,
    points: &IndexSet<Point>,
    places: &[Place],
) -> Result<Vec<Items<u32>>, AllocError>
    requires small { length points.now.keys < 2 ^ 32 }
    requires listed { All (IsListed entries.now.keys points.now.keys) places.now }
    ensures { IfOk result (λ v. v.items ≡ bodies_of points.now.keys places.now entries.now.keys) }
{
    let mut bodies = no_bodies(alloc, entries.as_slice())?;
    for place in places {
        put_place(&mut bodies, entries, points, place)?;
    }
    Ok(bodies)
}

/// A procedure, with its body in order.
fn proc_of(alloc: Global, entry: u32, body: &[u32]) -> Result<Proc, AllocError>
    ensures entry { IfOk result (λ p. p.entry ≡ entry) }
    ensures body { IfOk result (λ p. IsAscendingOf body.now p.body) }
{
    let places = ascending(alloc, body)?;
    Ok(Proc {
        entry,
        body: Items::from_vec(places),
    })
}

/// Procedures, with their bodies in order.
pub fn procs_of(
    alloc: Global,
    entries: &[u32],
    bodies: &[Items<u32>],
) -> Result<Vec<Proc>, AllocError>
    requires { length bodies.now ≡ length entries.now }
    ensures entries { IfOk result (λ v. entries_of v.items ≡ entries.now) }
    ensures bodies { (f : ℕ → List ℕ) → bodies.now ≡ map f entries.now → IfOk result (λ v. All (λ p. IsAscendingOf (f p.entry) p.body) v.items) }
{
    let mut procs = Vec::new(alloc);
    for k in 0..entries.len() {
        let proc = proc_of(alloc, entries[k], bodies[k].as_slice())?;
        procs.push(proc)?;
    }
    Ok(procs)
}
