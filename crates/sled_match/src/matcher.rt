//! The matcher of a machine.
ghost use Rattle.std.specs.Prelude.{◌≡◌, ◌<◌, ◌≤◌, ◌+◌, ◌*◌, ◌^◌, IfOk, length, option_map};
ghost use Rattle.rtl_core.specs.Matching.{instruction};
ghost use Rattle.rtl_core.specs.SoundEncodings.{IsSoundEncodings};
ghost use Rattle.sled_match.specs.Matched.{matched_inst};
ghost use Rattle.sled_match.specs.Ready.{AreReady};
ghost use Rattle.sled_match.specs.TreeSizes.{IsSizeOf, IsSmallTree};
ghost use Rattle.sled_match.specs.Walks.{IsScan, instructions};

use crate::copies::Duplicate;
use crate::grow::build;
use crate::matched::MatchedInst;
use crate::pruning::table;
use crate::size::TreeSize;
use crate::taking::take_first;
use crate::tree::Tree;
use rtl_core::Encodings;
use std::alloc::{AllocError, Global};
use std::marker::Model;

/// Sound encodings, ready to be matched. Contracts see them as the encodings.
#[derive(Drop)]
pub struct Matcher {
    enc: Encodings,
    tree: Tree,
    alloc: Global,
}

impl Model for Matcher {
    ghost use Rattle.std.specs.Prelude.{◌≤◌, length};
    ghost use Rattle.rtl_core.specs.declared.encodings.Encodings.{Encodings};
    ghost use Rattle.sled_match.specs.Ready.{AreReady};
    ghost use Rattle.sled_match.specs.TreeSizes.{IsSmallTree};
    ghost use Rattle.sled_match.specs.Walks.{IsScan, instructions};

    ghost Value = { Encodings };

    ghost view = { λ s. s.enc };

    ghost invariant = { λ s. AreReady s.enc × (IsScan s.enc s.tree.nodes s.tree.root (instructions s.enc) × (IsSmallTree (length (instructions s.enc)) s.tree.nodes × (length (instructions s.enc) ≤ 4096))) };
}

impl Matcher {
    /// A matcher of these encodings, which it copies. The error is want of memory.
    pub fn build(alloc: Global, enc: &Encodings) -> Result<Matcher, AllocError>
        requires { IsSoundEncodings enc.now }
        ensures { IfOk result (λ matcher. matcher ≡ enc.now) }
    {
        let enc = enc.duplicate(alloc)?;
        let tree = tree_of(alloc, &enc)?;
        Ok(Matcher { enc, tree, alloc })
    }

    /// The first constructor of type instruction, in the order of the text, that matches at the front of
    /// the bytes, with its operands and its length; `None` exactly where none does. Takes no memory.
    pub fn find(&self, bytes: &[u8]) -> Option<MatchedInst>
        requires { length bytes.now < 2 ^ 32 }
        ensures { result ≡ option_map matched_inst (instruction self.now bytes.now) }
    {
        let deep = self.enc.constructors.len();
        if deep == 0 {
            return None;
        }
        let listed = self.tree.walk(bytes);
        take_first(self.alloc, &self.enc, deep - 1, listed, bytes)
    }

    /// How large the tree is that `find` walks: its inner nodes, its leaves, and the most constructors of one
    /// leaf. Takes no memory.
    pub fn tree_size(&self) -> TreeSize
        ensures exact { IsSizeOf self.now result }
        ensures inner { 5 * result.inner ≤ 7 * length (instructions self.now) }
        ensures leaves { result.leaves ≤ 1 + 7 * length (instructions self.now) }
    {
        self.tree.measured()
    }
}

/// The tree of the constructors of type instruction.
fn tree_of(alloc: Global, enc: &Encodings) -> Result<Tree, AllocError>
    requires ready { AreReady enc.now }
    requires few { length (instructions enc.now) ≤ 4096 }
    ensures scan { IfOk result (λ tree. IsScan enc.now tree.nodes tree.root (instructions enc.now)) }
    ensures small { IfOk result (λ tree. IsSmallTree (length (instructions enc.now)) tree.nodes) }
{
    let table = table(alloc, enc)?;
    build(alloc, &table, instructions_of(enc))
}

/// The constructors of type instruction in the order of the text.
fn instructions_of(enc: &Encodings) -> &[u16]
    ensures { result.now ≡ instructions enc.now }
{
    match enc.types.get(0) {
        None => &[],
        Some(list) => list.as_slice(),
    }
}
