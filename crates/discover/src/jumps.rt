//! The tables and the pads of a graph.
ghost use Rattle.std.specs.Prelude.{◌≡◌, ◌++◌, map, IfOk, OnOk};
ghost use Rattle.std.specs.List.{flat_map};
ghost use Rattle.points.specs.Flows.{is_computed, is_computed_kind};
ghost use Rattle.discover.specs.Parts.{is_seq, jump_in, table_at, pads_in, AreTablesOf, ArePadsOf};
ghost use Rattle.discover.specs.Seen.{AreTables};

use crate::program::Program;
use indexmap::IndexMap;
use points::{Block, JumpKind, JumpTable, Node, Pad, Slot};
use sqlite_items::Items;
use std::alloc::{AllocError, Global};
use worklist::ascending;

/// Whether nothing is to come.
fn comes_plain(slot: Slot) -> bool
    ensures { result ≡ is_seq slot }
{
    matches!(slot, Slot::Seq)
}

/// Whether a jump is plain and computed.
fn is_computed_jump(kind: JumpKind) -> bool
    ensures { result ≡ is_computed_kind kind }
{
    matches!(kind, JumpKind::Dyn)
}

/// Whether an instruction with such a jump stands there.
fn jumps_computed(block: &Block) -> bool
    ensures { result ≡ is_computed block.now }
{
    match block {
        Block::Inst(_, kind) => is_computed_jump(*kind),
        Block::Outside | Block::Illegal => false,
    }
}

/// Puts the computed plain jump of a node at which nothing is to come.
fn push_jump(into: &mut Vec<u32>, node: &Node) -> Result<(), AllocError>
    ensures { OnOk result (into.new.items ≡ into.old.items ++ jump_in node.now) }
{
    if comes_plain(node.point.slot) && jumps_computed(&node.block) {
        into.push(node.point.pc)?;
    }
    Ok(())
}

/// The computed plain jumps of nodes.
fn jumps_of(alloc: Global, nodes: &[Node]) -> Result<Vec<u32>, AllocError>
    ensures { IfOk result (λ v. v.items ≡ flat_map jump_in nodes.now) }
{
    let mut jumps = Vec::new(alloc);
    for node in nodes {
        push_jump(&mut jumps, node)?;
    }
    Ok(jumps)
}

/// The table of a jump; what is remembered of it is forgotten.
fn take_table<P: Program>(
    alloc: Global,
    program: &P,
    tables: &mut IndexMap<u32, Items<u32>>,
    at: u32,
) -> Result<Items<u32>, AllocError>
    requires sound { P.sound program.now }
    requires tables { AreTables (P.code program.now) tables.old.entries }
    ensures targets { IfOk result (λ t. t ≡ (P.code program.now).table at) }
    ensures tables { AreTables (P.code program.now) tables.new.entries }
{
    match tables.swap_remove(&at) {
        Some(known) => Ok(known),
        None => program.table(alloc, at),
    }
}

/// The tables of jumps.
fn tables_of<P: Program>(
    alloc: Global,
    program: &P,
    tables: &mut IndexMap<u32, Items<u32>>,
    jumps: &[u32],
) -> Result<Vec<JumpTable>, AllocError>
    requires sound { P.sound program.now }
    requires tables { AreTables (P.code program.now) tables.old.entries }
    ensures { IfOk result (λ v. v.items ≡ map (table_at (P.code program.now)) jumps.now) }
{
    let mut made = Vec::new(alloc);
    for at in jumps {
        let targets = take_table(alloc, program, tables, *at)?;
        made.push(JumpTable { at: *at, targets })?;
    }
    Ok(made)
}

/// The tables of the jumps of nodes.
pub fn tables_at<P: Program>(
    alloc: Global,
    program: &P,
    tables: &mut IndexMap<u32, Items<u32>>,
    nodes: &[Node],
) -> Result<Vec<JumpTable>, AllocError>
    requires sound { P.sound program.now }
    requires tables { AreTables (P.code program.now) tables.old.entries }
    ensures { IfOk result (λ v. AreTablesOf (P.code program.now) nodes.now v.items) }
{
    let all = jumps_of(alloc, nodes)?;
    let jumps = ascending(alloc, &all)?;
    tables_of(alloc, program, tables, &jumps)
}

/// Puts the pad of a return address, where it has a second return point.
fn push_pad<P: Program>(program: &P, into: &mut Vec<Pad>, back: u32) -> Result<(), AllocError>
    requires sound { P.sound program.now }
    ensures { OnOk result (into.new.items ≡ into.old.items ++ pads_in (P.code program.now) back) }
{
    if let Some(second) = program.second(back) {
        into.push(Pad { at: back, second })?;
    }
    Ok(())
}

/// The pads of return addresses, in their order.
fn pads_of<P: Program>(alloc: Global, program: &P, backs: &[u32]) -> Result<Vec<Pad>, AllocError>
    requires sound { P.sound program.now }
    ensures { IfOk result (λ v. v.items ≡ flat_map (pads_in (P.code program.now)) backs.now) }
{
    let mut pads = Vec::new(alloc);
    for back in backs {
        push_pad(program, &mut pads, *back)?;
    }
    Ok(pads)
}

/// The pads of return addresses, each once and ascending.
pub fn pads_at<P: Program>(
    alloc: Global,
    program: &P,
    backs: &[u32],
) -> Result<Vec<Pad>, AllocError>
    requires sound { P.sound program.now }
    ensures { IfOk result (λ v. ArePadsOf (P.code program.now) backs.now v.items) }
{
    let returns = ascending(alloc, backs)?;
    pads_of(alloc, program, &returns)
}
