//! How large a tree is.
ghost use Rattle.std.specs.Prelude.{◌≡◌, ◌+◌, ◌*◌, ◌<◌, ◌≤◌, ◌^◌, ◌∷◌, [], length, max, count_by, sum_by};
ghost use Rattle.sled_match.specs.TreeSizes.{is_inner, is_leaf, held, longest};

use crate::tree::{Node, Tree};

/// Inner nodes, leaves, and the most constructors of one leaf.
#[derive(Clone, Copy, Debug, PartialEq, Eq)]
pub struct TreeSize {
    pub inner: u32,
    pub leaves: u32,
    pub longest: u32,
}

impl TreeSize {
    /// The size with one node more.
    fn with(self, node: &Node) -> TreeSize
        requires inner { self.inner < 0xffff_ffff }
        requires leaves { self.leaves < 0xffff_ffff }
        requires short { held node.now < 2 ^ 32 }
        ensures inner { result.inner ≡ self.inner + count_by is_inner (node.now ∷ []) }
        ensures leaves { result.leaves ≡ self.leaves + count_by is_leaf (node.now ∷ []) }
        ensures longest { result.longest ≡ max (held node.now) self.longest }
    {
        match node {
            Node::Leaf(constructors) => TreeSize {
                inner: self.inner,
                leaves: self.leaves + 1,
                longest: (constructors.len() as u32).max(self.longest),
            },
            Node::Inner(_, _) => TreeSize {
                inner: self.inner + 1,
                leaves: self.leaves,
                longest: self.longest,
            },
        }
    }
}

impl Tree {
    /// How large the tree is. Takes no memory.
    pub fn measured(&self) -> TreeSize
        requires few { length self.now.nodes < 2 ^ 32 }
        requires short { sum_by held self.now.nodes < 2 ^ 32 }
        ensures inner { result.inner ≡ count_by is_inner self.now.nodes }
        ensures leaves { result.leaves ≡ count_by is_leaf self.now.nodes }
        ensures longest { result.longest ≡ longest self.now.nodes }
    {
        let mut size = TreeSize {
            inner: 0,
            leaves: 0,
            longest: 0,
        };
        for node in self.nodes.as_slice() {
            size = size.with(node);
        }
        size
    }
}
