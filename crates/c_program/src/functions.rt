//! The function of a procedure.
ghost use Rattle.std.specs.Prelude.{◌≡◌, ◌<◌, ◌≤◌, ◌++◌, [], ◌∷◌, if◌then◌else◌, length, slice_index_or, All, IfOk, OnOk};
ghost use Rattle.c_lower.specs.Lowerable.{most_temporaries};
ghost use Rattle.c_control.specs.Blocks.{block_c, further_c};
ghost use Rattle.c_control.specs.Plans.{Plan};
ghost use Rattle.c_program.specs.Functions.{no_node, nodes_at, is_entry, block_if_any, point_part, part_of, blocks_of, block_need, most_need, function_of};
ghost use Rattle.c_program.specs.Ready.{IsReady};
ghost use Rattle.c_program.specs.Shown.{Shows};

use crate::blocks::{further_block, point_block};
use crate::sources::Sources;
use c_lang::{CBlock, Function};
use c_lower::temporaries;
use points::{Block, Node, Point, Slot};
use sqlite_items::Items;
use std::alloc::{AllocError, Global};

/// A part of the blocks of a function.
#[derive(Clone, Copy)]
pub(crate) enum Part {
    /// The block of the entry.
    Entry,
    /// Those of the other points.
    Others,
    /// The further blocks.
    Further,
}

/// The node at a place.
fn node_at<'a>(nodes: &'a [Node], place: u32) -> &'a Node
    requires { place < length nodes.now }
    ensures { result.now ≡ slice_index_or nodes.now place no_node }
{
    &nodes[place as usize]
}

/// Whether a point is that of a procedure's entry.
fn is_entry(entry: u32, point: Point) -> bool
    ensures { result ≡ is_entry entry point }
{
    point
        == Point {
            pc: entry,
            slot: Slot::Seq,
        }
}

/// Pushes the block of a node, where it is wanted.
fn push_block_if(
    alloc: Global,
    out: &mut Items<CBlock>,
    on: &Sources,
    node: &Node,
    wanted: bool,
) -> Result<(), AllocError>
    ghost plan: { Plan }
    requires shows { Shows plan on.now }
    requires ready { IsReady plan on.now node.now }
    ensures { OnOk result (out.new ≡ out.old ++ (if wanted then block_c plan on.now.own.now.entry node.now.point ∷ [] else [])) }
{
    if wanted {
        out.push(point_block(alloc, on, node)?)
    } else {
        Ok(())
    }
}

/// Pushes the further block of a node, where it has one.
fn push_further(
    alloc: Global,
    out: &mut Items<CBlock>,
    on: &Sources,
    node: &Node,
) -> Result<(), AllocError>
    ghost plan: { Plan }
    requires shows { Shows plan on.now }
    requires ready { IsReady plan on.now node.now }
    ensures { OnOk result (out.new ≡ out.old ++ block_if_any (further_c plan on.now.own.now.entry node.now.point)) }
{
    match further_block(alloc, on, node)? {
        None => Ok(()),
        Some(block) => out.push(block),
    }
}

/// Pushes the blocks of a node in a part.
fn push_node(
    alloc: Global,
    out: &mut Items<CBlock>,
    on: &Sources,
    node: &Node,
    part: Part,
) -> Result<(), AllocError>
    ghost plan: { Plan }
    requires shows { Shows plan on.now }
    requires ready { IsReady plan on.now node.now }
    ensures { OnOk result (out.new ≡ out.old ++ point_part plan on.now.own.now.entry part node.now.point) }
{
    let first = is_entry(on.own.entry, node.point);
    match part {
        Part::Entry => push_block_if(alloc, out, on, node, first),
        Part::Others => push_block_if(alloc, out, on, node, !first),
        Part::Further => push_further(alloc, out, on, node),
    }
}

/// Pushes the blocks of the nodes at some places in a part.
fn push_part(
    alloc: Global,
    out: &mut Items<CBlock>,
    on: &Sources,
    nodes: &[Node],
    places: &[u32],
    part: Part,
) -> Result<(), AllocError>
    ghost plan: { Plan }
    requires shows { Shows plan on.now }
    requires ready { All (IsReady plan on.now) nodes.now }
    requires within { All (λ k. k < length nodes.now) places.now }
    ensures { OnOk result (out.new ≡ out.old ++ part_of plan on.now.own.now.entry part (nodes_at nodes.now places.now)) }
{
    for k in places {
        push_node(alloc, out, on, node_at(nodes, *k), part)?;
    }
    Ok(())
}

/// How many temporaries the statements of a block take.
fn temporaries_of(block: &Block) -> u16
    requires { block_need block.now ≤ most_temporaries }
    ensures { result ≡ block_need block.now }
{
    match block {
        Block::Outside | Block::Illegal => 4,
        Block::Inst(inst, _) => temporaries(inst),
    }
}

/// How many temporaries the statements of the nodes at some places take, at least the first four.
fn most_temporaries_of(nodes: &[Node], places: &[u32]) -> u16
    requires few { All (λ n. block_need n.block ≤ most_temporaries) nodes.now }
    requires within { All (λ k. k < length nodes.now) places.now }
    ensures { result ≡ most_need (nodes_at nodes.now places.now) }
{
    let mut most: u16 = 4;
    for k in places {
        most = most.max(temporaries_of(&node_at(nodes, *k).block));
    }
    most
}

/// The function of the procedure whose body is at some places.
pub(crate) fn function(
    alloc: Global,
    on: &Sources,
    nodes: &[Node],
    places: &[u32],
) -> Result<Function, AllocError>
    ghost plan: { Plan }
    requires shows { Shows plan on.now }
    requires ready { All (IsReady plan on.now) nodes.now }
    requires few { All (λ n. block_need n.block ≤ most_temporaries) nodes.now }
    requires within { All (λ k. k < length nodes.now) places.now }
    ensures { IfOk result (λ f. f ≡ function_of plan nodes.now on.now.own.now.entry places.now) }
{
    let mut blocks = Items::new(alloc);
    push_part(alloc, &mut blocks, on, nodes, places, Part::Entry)?;
    push_part(alloc, &mut blocks, on, nodes, places, Part::Others)?;
    push_part(alloc, &mut blocks, on, nodes, places, Part::Further)?;
    Ok(Function {
        entry: on.own.entry,
        params: Items::from_slice(alloc, on.own.refs.as_slice())?,
        cells: Items::new(alloc),
        temps: most_temporaries_of(nodes, places),
        blocks,
    })
}
