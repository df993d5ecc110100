//! The graph of a program.
ghost use Rattle.std.specs.Prelude.{◌≡◌, ◌≢◌, ◌<◌, ◌^◌, ◌+◌, ◌-◌, length, Ok, IfOk, OnOk, IfErr, List, ℕ};
ghost use Rattle.points.specs.Exactly.{IsExactly};
ghost use Rattle.points.specs.Graphs.{IsGraph};
ghost use Rattle.discover.specs.Parts.{AreTablesOf, ArePadsOf};
ghost use Rattle.discover.specs.Places.{InBody, IsTooLarge};
ghost use Rattle.discover.specs.Seen.{AreLooks, AreTables};

use crate::jumps::{pads_at, tables_at};
use crate::nodes::{Nodes, nodes_of};
use crate::outline::outline_of;
use crate::place::{Place, starts_of};
use crate::program::Program;
use crate::search::{Search, new_search};
use points::{Graph, JumpTable, Pad};
use sqlite_items::Items;
use std::alloc::{AllocError, Global};
use worklist::{ClosureFault, closure};

/// Why there is no graph.
#[derive(Clone, Copy, Debug, PartialEq, Eq)]
pub enum DiscoverFault {
    /// The bodies of all procedures together have more points than the limit, a point counted once for each body.
    /// `points` is the limit and one more.
    TooLarge { points: u32 },
    /// Memory ran out.
    NoMemory,
}

impl From<AllocError> for DiscoverFault {
    ghost use Rattle.discover.specs.declared.discovery.DiscoverFault.TheVariants.{NoMemory};

    ghost from_gives = { λ _ fault. fault ≡ NoMemory };

    fn from(_: AllocError) -> Self {
        DiscoverFault::NoMemory
    }
}

/// The tables and the pads of a graph.
#[derive(Drop)]
struct Jumps {
    tables: Vec<JumpTable>,
    pads: Vec<Pad>,
}

/// The tables and the pads of nodes.
fn jumps_at<P: Program>(
    alloc: Global,
    search: &mut Search<'_, P>,
    nodes: &Nodes,
) -> Result<Jumps, AllocError>
    requires sound { P.sound search.old.program.now }
    requires tables { AreTables (P.code search.old.program.now) search.old.tables.entries }
    ensures tables { IfOk result (λ j. AreTablesOf (P.code search.old.program.now) nodes.now.nodes.items j.tables.items) }
    ensures pads { IfOk result (λ j. ArePadsOf (P.code search.old.program.now) nodes.now.backs.items j.pads.items) }
{
    let tables = tables_at(alloc, search.program, &mut search.tables, &nodes.nodes)?;
    let pads = pads_at(alloc, search.program, &nodes.backs)?;
    Ok(Jumps { tables, pads })
}

/// The graph of the places that a search has found.
fn graph_of<P: Program>(
    alloc: Global,
    search: &mut Search<'_, P>,
    places: &[Place],
) -> Result<Graph, AllocError>
    requires small { length places.now < 2 ^ 32 }
    requires sound { P.sound search.old.program.now }
    requires looks { AreLooks (P.code search.old.program.now) search.old.looks.entries }
    requires tables { AreTables (P.code search.old.program.now) search.old.tables.entries }
    ensures { (roots : List ℕ) → IsExactly (InBody (P.code search.old.program.now) roots) places.now → IfOk result (IsGraph (P.code search.old.program.now) roots) }
{
    let outline = outline_of(alloc, places)?;
    let nodes = nodes_of(
        alloc,
        search.program,
        &mut search.looks,
        outline.points.as_slice(),
    )?;
    let jumps = jumps_at(alloc, search, &nodes)?;
    Ok(Graph {
        nodes: Items::from_vec(nodes.nodes),
        procs: Items::from_vec(outline.procs),
        tables: Items::from_vec(jumps.tables),
        pads: Items::from_vec(jumps.pads),
    })
}

/// A graph, with want of memory as a fault.
fn or_fault(graph: Result<Graph, AllocError>) -> Result<Graph, DiscoverFault>
    ensures ok { IfOk result (λ g. graph ≡ Ok g) }
    ensures err { IfErr result (λ f. f ≡ DiscoverFault.NoMemory) }
{
    Ok(graph?)
}

/// The graph of a program whose procedures begin at the roots and where calls lead. `TooLarge` exactly where the
/// bodies of all procedures together have more than `limit` points, a point counted once for each body, unless
/// memory runs out before that is known.
pub fn discover_in<P: Program>(
    alloc: Global,
    program: &P,
    roots: &[u32],
    limit: usize,
) -> Result<Graph, DiscoverFault>
    requires limit { limit < 2 ^ 32 - 1 }
    requires sound { P.sound program.now }
    ensures graph { IfOk result (IsGraph (P.code program.now) roots.now) }
    ensures enough { OnOk result (IsTooLarge (P.code program.now) roots.now limit → ⊥) }
    ensures too_large { IfErr result (λ f. f ≢ DiscoverFault.NoMemory → (f ≡ DiscoverFault.TooLarge (limit + 1)) × IsTooLarge (P.code program.now) roots.now limit) }
{
    let starts = starts_of(alloc, roots)?;
    let mut search = new_search(alloc, program);
    match closure(alloc, &mut search, &starts, limit) {
        Ok(places) => or_fault(graph_of(alloc, &mut search, places.as_slice())),
        Err(ClosureFault::TooMany) => Err(DiscoverFault::TooLarge {
            points: limit as u32 + 1,
        }),
        Err(ClosureFault::NoMemory) => Err(DiscoverFault::NoMemory),
    }
}
