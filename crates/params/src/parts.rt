//! What is listed of each procedure: the procedures that it calls, the cells that it names, and those that it may assign.
ghost use Rattle.std.specs.Prelude.{◌≡◌, ◌↔◌, ℕ, ◌<◌, ◌^◌, ◌++◌, nat_eq, length, map, IfOk, OnOk};
ghost use Rattle.std.specs.List.{Contains, list_any};
ghost use Rattle.params.specs.Parts.{entered_by, opens_by, has_no_targets, node_part, place_part, whole_part, is_whole, proc_part, place_opens, proc_opens, openers};

use crate::arrivals::jump_at_once;
use crate::columns::push_if;
use crate::named::{add_assigned, add_names, add_row};
use indexmap::IndexSet;
use points::{Graph, JumpTable, Node, Proc, Slot};
use rtl_core::{Conv, Machine};
use sqlite_items::Items;
use std::alloc::{AllocError, Global};

/// What is listed of a procedure.
#[derive(Clone, Copy, Debug, PartialEq, Eq)]
pub enum Part {
    /// The entries of the procedures that its calls of constant targets enter.
    Calls,
    /// The cells that its instructions name.
    Names,
    /// The cells that its instructions may assign.
    Assigns,
}

/// The lists of all procedures, in their order. The error is want of memory.
pub fn lists(
    alloc: Global,
    graph: &Graph,
    machine: &Machine,
    conv: &Conv,
    part: Part,
) -> Result<Vec<Items<u32>>, AllocError>
    requires few { length machine.now.widths < 2 ^ 32 }
    ensures { IfOk result (λ lists. lists.items ≡ map (proc_part machine.now conv.now part graph.now.nodes) graph.now.procs) }
{
    let mut lists = Vec::new(alloc);
    for proc in graph.procs.as_slice() {
        lists.push(list_of(alloc, graph.nodes.as_slice(), machine, conv, part, proc)?)?;
    }
    Ok(lists)
}

/// The list of a procedure.
fn list_of(
    alloc: Global,
    nodes: &[Node],
    machine: &Machine,
    conv: &Conv,
    part: Part,
    proc: &Proc,
) -> Result<Items<u32>, AllocError>
    requires few { length machine.now.widths < 2 ^ 32 }
    ensures { IfOk result (λ list. list ≡ proc_part machine.now conv.now part nodes.now proc.now) }
{
    let mut list = Items::new(alloc);
    for place in proc.body.as_slice() {
        add_place(&mut list, nodes, machine, conv, part, *place)?;
    }
    add_whole(&mut list, machine, conv, part, proc.entry)?;
    Ok(list)
}

/// Adds what is listed of the node at a place.
fn add_place(
    list: &mut Items<u32>,
    nodes: &[Node],
    machine: &Machine,
    conv: &Conv,
    part: Part,
    place: u32,
) -> Result<(), AllocError>
    ensures { OnOk result (list.new ≡ list.old ++ place_part machine.now conv.now part nodes.now place) }
{
    match nodes.get(place as usize) {
        None => Ok(()),
        Some(node) => add_node(list, machine, conv, part, node),
    }
}

/// Adds what is listed of a node.
fn add_node(
    list: &mut Items<u32>,
    machine: &Machine,
    conv: &Conv,
    part: Part,
    node: &Node,
) -> Result<(), AllocError>
    ensures { OnOk result (list.new ≡ list.old ++ node_part machine.now conv.now part node.now) }
{
    match part {
        Part::Calls => {
            add_entered(list, node.point.slot)?;
            add_entered(list, jump_at_once(machine, node))
        }
        Part::Names => add_names(list, machine, conv, &node.block),
        Part::Assigns => add_assigned(list, machine, conv, &node.block),
    }
}

/// Adds the entry of the procedure that a call of a constant target enters.
fn add_entered(list: &mut Items<u32>, slot: Slot) -> Result<(), AllocError>
    ensures { OnOk result (list.new ≡ list.old ++ entered_by slot) }
{
    match slot {
        Slot::CallTo(target, _) => list.push(target),
        _ => Ok(()),
    }
}

/// Adds all cells where the conventions say that a procedure needs them.
fn add_whole(
    list: &mut Items<u32>,
    machine: &Machine,
    conv: &Conv,
    part: Part,
    entry: u32,
) -> Result<(), AllocError>
    requires few { length machine.now.widths < 2 ^ 32 }
    ensures { OnOk result (list.new ≡ list.old ++ whole_part machine.now conv.now part entry) }
{
    match part {
        Part::Names => {
            if is_whole(conv, entry) {
                add_row(list, 0, machine.widths.len() as u32)?;
            }
            Ok(())
        }
        Part::Calls | Part::Assigns => Ok(()),
    }
}

/// Whether the conventions say that a procedure needs all cells.
fn is_whole(conv: &Conv, entry: u32) -> bool
    ensures { result ≡ is_whole conv.now entry }
{
    conv.wholes.as_slice().iter().any(|whole| *whole == entry)
}

/// The places of the procedures that may enter any, by a computed call or a computed plain jump without targets. The
/// error is want of memory.
pub fn openers(alloc: Global, graph: &Graph, machine: &Machine) -> Result<Items<usize>, AllocError>
    ensures { IfOk result (λ found. found ≡ openers machine.now (has_no_targets graph.now.tables) graph.now) }
{
    let empty = empty_tables(alloc, graph.tables.as_slice())?;
    let found = openers_by(alloc, graph, machine, &empty)?;
    Ok(found)
}

/// The same, by the addresses of the tables without targets.
fn openers_by(
    alloc: Global,
    graph: &Graph,
    machine: &Machine,
    empty: &IndexSet<u32>,
) -> Result<Items<usize>, AllocError>
    ensures { IfOk result (λ found. found ≡ openers machine.now (λ a. list_any (nat_eq a) empty.now.keys) graph.now) }
{
    let mut openers = Items::new(alloc);
    for (place, proc) in graph.procs.as_slice().iter().enumerate() {
        let opens = opens(graph.nodes.as_slice(), machine, empty, proc);
        push_if(&mut openers, opens, place)?;
    }
    Ok(openers)
}

/// Whether a procedure may enter any.
fn opens(nodes: &[Node], machine: &Machine, empty: &IndexSet<u32>, proc: &Proc) -> bool
    ensures { result ≡ proc_opens machine.now (λ a. list_any (nat_eq a) empty.now.keys) nodes.now proc.now }
{
    proc.body
        .as_slice()
        .iter()
        .any(|place| place_opens(nodes, machine, empty, *place))
}

/// Whether any procedure can be entered at the node at a place.
fn place_opens(nodes: &[Node], machine: &Machine, empty: &IndexSet<u32>, place: u32) -> bool
    ensures { result ≡ place_opens machine.now (λ a. list_any (nat_eq a) empty.now.keys) nodes.now place }
{
    match nodes.get(place as usize) {
        None => false,
        Some(node) => {
            opens_by(empty, node.point.slot) || opens_by(empty, jump_at_once(machine, node))
        }
    }
}

/// Whether a jump may enter any procedure.
fn opens_by(empty: &IndexSet<u32>, slot: Slot) -> bool
    ensures { result ≡ opens_by (λ a. list_any (nat_eq a) empty.now.keys) slot }
{
    match slot {
        Slot::CallDyn(_) => true,
        Slot::Dyn(at) => empty.contains(&at),
        _ => false,
    }
}

/// The addresses of the tables without targets.
fn empty_tables(alloc: Global, tables: &[JumpTable]) -> Result<IndexSet<u32>, AllocError>
    ensures { IfOk result (λ empty. (a : ℕ) → list_any (nat_eq a) empty.keys ≡ has_no_targets tables.now a) }
{
    let mut empty = IndexSet::new(alloc);
    for table in tables {
        if table.targets.is_empty() {
            empty.insert(table.at)?;
        }
    }
    Ok(empty)
}
