//! What is looked up in a graph: points, procedures and pads by their addresses, and the ways of nodes by their places.
ghost use Rattle.std.specs.Prelude.{◌≡◌, ◌↔◌, IsTrue, None, Some, map, option_map, IfOk, slice_get};
ghost use Rattle.std.specs.Option.{option_copied};
ghost use Rattle.std.specs.List.{Contains};
ghost use Rattle.std.specs.List.Sorted.{IsStrictlySortedBy};
ghost use Rattle.std.specs.Ordering.{nat_cmp};
ghost use Rattle.points.specs.declared.graph.Graph.{Graph};
ghost use Rattle.points.specs.declared.graph.Pad.{Pad};
ghost use Rattle.points.specs.Courses.{point as point_of};
ghost use Rattle.points.specs.Graphs.{points_of};
ghost use Rattle.rtl_core.specs.declared.point.Slot.TheVariants.{Seq};
ghost use Rattle.rtl_core.specs.contracts.point.PointOrd.TheImpl as point_order;
ghost use Rattle.graph_control.specs.Finding.{IsPlace};
ghost use Rattle.graph_control.specs.Ways.{AreWays, jumps_in, entries_in, returns_in};

use crate::finding::{find, place_in};
use crate::ways::{Places, Ways};
use points::{Graph, JumpTable, Node, Pad, Proc, sequential};
use rtl_core::{Machine, Point};
use sqlite_items::Items;
use std::alloc::{AllocError, Global};

/// What is looked up in a graph.
#[derive(Drop)]
pub struct Lookup {
    // The points of the nodes.
    points: Vec<Point>,
    // The entries of the procedures.
    entries: Vec<u32>,
    // The return addresses at which pads stand.
    returns: Vec<u32>,
    // The ways of the nodes.
    ways: Vec<Ways>,
}

/// What is looked up in the graph of a program of the machine. The error is want of memory.
pub fn lookup_of(alloc: Global, machine: &Machine, graph: &Graph) -> Result<Lookup, AllocError>
    ensures points { IfOk result (λ l. l.points.items ≡ points_of graph.now.nodes) }
    ensures entries { IfOk result (λ l. l.entries.items ≡ entries_in graph.now) }
    ensures returns { IfOk result (λ l. l.returns.items ≡ returns_in graph.now) }
    ensures ways { IfOk result (λ l. AreWays machine.now graph.now graph.now.nodes l.ways.items) }
{
    let points = points_of(alloc, graph.nodes.as_slice())?;
    let jumps = jumps_of(alloc, graph.tables.as_slice())?;
    let places = Places {
        machine,
        points: &points,
        jumps: &jumps,
    };
    let ways = places.all(alloc, graph.nodes.as_slice())?;
    Ok(Lookup {
        entries: entries_of(alloc, graph.procs.as_slice())?,
        returns: returns_of(alloc, graph.pads.as_slice())?,
        ways,
        points,
    })
}

fn points_of(alloc: Global, nodes: &[Node]) -> Result<Vec<Point>, AllocError>
    ensures { IfOk result (λ v. v.items ≡ map (λ n. n.point) nodes.now) }
{
    let mut points = Vec::with_capacity(alloc, nodes.len())?;
    for node in nodes {
        points.push(node.point)?;
    }
    Ok(points)
}

fn jumps_of(alloc: Global, tables: &[JumpTable]) -> Result<Vec<u32>, AllocError>
    ensures { IfOk result (λ v. v.items ≡ map (λ t. t.at) tables.now) }
{
    let mut jumps = Vec::with_capacity(alloc, tables.len())?;
    for table in tables {
        jumps.push(table.at)?;
    }
    Ok(jumps)
}

fn entries_of(alloc: Global, procs: &[Proc]) -> Result<Vec<u32>, AllocError>
    ensures { IfOk result (λ v. v.items ≡ map (λ p. p.entry) procs.now) }
{
    let mut entries = Vec::with_capacity(alloc, procs.len())?;
    for proc in procs {
        entries.push(proc.entry)?;
    }
    Ok(entries)
}

fn returns_of(alloc: Global, pads: &[Pad]) -> Result<Vec<u32>, AllocError>
    ensures { IfOk result (λ v. v.items ≡ map (λ p. p.at) pads.now) }
{
    let mut returns = Vec::with_capacity(alloc, pads.len())?;
    for pad in pads {
        returns.push(pad.at)?;
    }
    Ok(returns)
}

/// The second return point of the pad at a place.
fn second_at(pads: &Items<Pad>, at: usize) -> Option<u32>
    ensures { result ≡ option_map (λ p. p.second) (slice_get pads.now at) }
{
    match pads.get(at) {
        Some(pad) => Some(pad.second),
        None => None,
    }
}

impl Lookup {
    /// The place of the node at an address at which nothing is to come.
    pub fn place_of(&self, pc: u32) -> usize
        ensures { IsPlace point_order.cmp-value.it self.now.points.items (point_of pc Seq) result }
    {
        place_in(&self.points, &sequential(pc))
    }

    /// Whether a procedure begins at an address.
    pub fn is_entry(&self, pc: u32) -> bool
        ensures { IsStrictlySortedBy nat_cmp self.now.entries.items → IsTrue result ↔ Contains self.now.entries.items pc }
    {
        find(&self.entries, &pc).is_some()
    }

    /// Where a procedure may return to besides a return address.
    pub fn second(&self, pads: &Items<Pad>, back: u32) -> Option<u32>
        ensures there { (p : Pad) → self.now.returns.items ≡ map (λ q. q.at) pads.now → IsStrictlySortedBy nat_cmp self.now.returns.items →
            Contains pads.now p → p.at ≡ back → result ≡ Some p.second }
        ensures none { self.now.returns.items ≡ map (λ q. q.at) pads.now → (Contains self.now.returns.items back → ⊥) → result ≡ None }
    {
        match find(&self.returns, &back) {
            Some(at) => second_at(pads, at),
            None => None,
        }
    }

    /// The ways of the node at a place.
    pub fn ways_at(&self, place: usize) -> Option<&Ways>
        ensures { option_copied result ≡ slice_get self.now.ways.items place }
    {
        self.ways.get(place)
    }
}
