//! The tree of some constructors.
ghost use Rattle.std.specs.Prelude.{◌≡◌, ◌<◌, ◌+◌, ◌^◌, suc, ◌∷◌, [], ◌++◌, IfOk, IfSome, length, map, get_or, ◌≤◌};
ghost use Rattle.sled_match.specs.Pruned.{allowed_in, IsTreeOf};
ghost use Rattle.sled_match.specs.Split.{IsSplit, IsSmallSplit};
ghost use Rattle.sled_match.specs.TreeSizes.{room, AreAdded, IsSmallTree};

use crate::allowed::{Allowed, PLACES};
use crate::split::{Split, split_at_place};
use crate::tree::{LEVELS, Node, Tree};
use sqlite_items::Items;
use std::alloc::{AllocError, Global};

/// So few constructors are tried one after another.
const FEW: usize = 4;

/// The weight of a split: the squares of what its lists hold. A place that tells nothing apart leaves it as it was.
fn weight(split: &Split) -> u64 {
    let mut sum = 0u64;
    for list in split.lists.as_slice() {
        let size = list.len() as u64;
        sum = sum.saturating_add(size.saturating_mul(size));
    }
    sum
}

/// For each key the child of its list.
fn branches_of(alloc: Global, index: &[u16], children: &[u32]) -> Result<Items<u32>, AllocError>
    ensures { IfOk result (λ it. it ≡ map (λ at. get_or children.now at 0) index.now) }
{
    let mut branches = Items::new(alloc);
    for at in index {
        let child = if (*at as usize) < children.len() {
            children[*at as usize]
        } else {
            0
        };
        branches.push(child)?;
    }
    Ok(branches)
}

/// Adds a node, and says where it stands.
fn add(nodes: &mut Items<Node>, node: Node) -> Result<u32, AllocError>
    requires { length nodes.old < 2 ^ 32 }
    ensures { IfOk result (λ at. (at ≡ length nodes.old) × (nodes.new ≡ nodes.old ++ node ∷ [])) }
{
    let at = nodes.len();
    nodes.push(node)?;
    Ok(at as u32)
}

/// The place whose split leaves the least, if one is worth a node.
fn best_split(
    alloc: Global,
    table: &Allowed,
    constructors: &[u16],
) -> Result<Option<(u8, Split)>, AllocError>
    requires { length constructors.now < 2 ^ 32 }
    ensures { IfOk result (λ best. IfSome best (λ p. IsSplit (allowed_in table.now.rows) p.0 constructors.now p.1.lists p.1.index 257 × IsSmallSplit (length constructors.now) p.1.lists)) }
{
    let most = constructors.len() as u64;
    let mut best = None;
    let mut least = most.saturating_mul(most);
    for place in 0..PLACES {
        if let Some(found) = split_at_place(alloc, table, place, constructors)? {
            let size = weight(&found);
            if size < least {
                least = size;
                best = Some((place, found));
            }
        }
    }
    Ok(best)
}

/// The tree of some constructors, its nodes behind those that are there.
#[cycle(growing)]
fn grow(
    alloc: Global,
    table: &Allowed,
    nodes: &mut Items<Node>,
    levels: usize,
    constructors: &[u16],
) -> Result<u32, AllocError>
    requires { length nodes.old + (1 + room levels (length constructors.now)) < 2 ^ 32 }
    ensures { IfOk result (λ at. AreAdded levels 1 (length constructors.now) nodes.old nodes.new × IsTreeOf (suc levels) (allowed_in table.now.rows) nodes.new at constructors.now) }
{
    if levels > 0 && constructors.len() > FEW {
        if let Some((place, found)) = best_split(alloc, table, constructors)? {
            return grow_inner(alloc, table, nodes, levels - 1, constructors, place, &found);
        }
    }
    add(nodes, Node::Leaf(Items::from_slice(alloc, constructors)?))
}

/// The tree of constructors that are split at a place.
#[cycle(growing)]
fn grow_inner(
    alloc: Global,
    table: &Allowed,
    nodes: &mut Items<Node>,
    below: usize,
    constructors: &[u16],
    place: u8,
    found: &Split,
) -> Result<u32, AllocError>
    requires many { 4 < length constructors.now }
    requires short { length nodes.old + (1 + room (suc below) (length constructors.now)) < 2 ^ 32 }
    requires split { IsSplit (allowed_in table.now.rows) place constructors.now found.now.lists found.now.index 257 }
    requires small { IsSmallSplit (length constructors.now) found.now.lists }
    ensures { IfOk result (λ at. AreAdded (suc below) 1 (length constructors.now) nodes.old nodes.new × IsTreeOf (suc (suc below)) (allowed_in table.now.rows) nodes.new at constructors.now) }
{
    let mut children = Items::new(alloc);
    for list in found.lists.as_slice() {
        let child = grow(alloc, table, nodes, below, list.as_slice())?;
        children.push(child)?;
    }
    let branches = branches_of(alloc, found.index.as_slice(), children.as_slice())?;
    add(nodes, Node::Inner(place, branches))
}

/// The tree of constructors in text order, by what a table allows. The error is want of memory.
pub fn build(alloc: Global, table: &Allowed, constructors: &[u16]) -> Result<Tree, AllocError>
    requires { length constructors.now ≤ 4096 }
    ensures tree { IfOk result (λ tree. IsTreeOf LEVELS (allowed_in table.now.rows) tree.nodes tree.root constructors.now) }
    ensures small { IfOk result (λ tree. IsSmallTree (length constructors.now) tree.nodes) }
{
    let mut nodes = Items::new(alloc);
    let root = grow(alloc, table, &mut nodes, LEVELS - 1, constructors)?;
    Ok(Tree { nodes, root })
}
