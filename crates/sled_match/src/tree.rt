//! The tree over the first bytes, as a list of nodes.
ghost use Rattle.std.specs.Prelude.{◌≡◌};
ghost use Rattle.sled_match.specs.Tree.{key, listed};

use sqlite_items::Items;

/// A leaf lists constructors in text order. An inner node has a place, counted from the front of the bytes,
/// and 257 branches: one for each byte there, and the last where the bytes end before it.
#[derive(Debug, Drop)]
pub enum Node {
    Leaf(Items<u16>),
    Inner(u8, Items<u32>),
}

/// All nodes, children before their parents, and where the root stands.
#[derive(Debug, Drop)]
pub struct Tree {
    pub nodes: Items<Node>,
    pub root: u32,
}

/// The most nodes from the root to a leaf, both counted.
pub const LEVELS: usize = 4;

/// The branch that a place chooses: the byte there, or 256 behind the end.
fn key_at(place: u8, bytes: &[u8]) -> usize
    ensures { result ≡ key place bytes.now }
{
    if (place as usize) < bytes.len() {
        bytes[place as usize] as usize
    } else {
        256
    }
}

impl Tree {
    /// The constructors that may match at the front of the bytes, in text order.
    pub fn walk(&self, bytes: &[u8]) -> &[u16]
        ensures { result.now ≡ listed LEVELS self.now.nodes self.now.root bytes.now }
    {
        let mut at = self.root as usize;
        let mut levels = LEVELS;
        while levels > 0 {
            levels -= 1;
            match self.nodes.get(at) {
                None => return &[],
                Some(Node::Leaf(constructors)) => return constructors.as_slice(),
                Some(Node::Inner(place, branches)) => match branches.get(key_at(*place, bytes)) {
                    None => return &[],
                    Some(next) => at = *next as usize,
                },
            }
        }
        &[]
    }
}
