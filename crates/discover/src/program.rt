//! What is asked of a program.
ghost use Rattle.std.specs.Prelude.{◌≡◌, IfOk};
ghost use Rattle.points.specs.Bodies.{Code};

use points::{Block, Next, Point};
use sqlite_items::Items;
use std::alloc::{AllocError, Global};

/// A program by its addresses. The error of each call is want of memory.
pub trait Program {
    /// All that is asked of it.
    ghost code: { Self → Code };

    /// What each call needs.
    ghost sound: { Self → Type 0 };

    /// What stands at an address.
    fn block_at(&self, alloc: Global, pc: u32) -> Result<Block, AllocError>
        requires { sound self.now }
        ensures { IfOk result (λ b. b ≡ (code self.now).block_at pc) };

    /// All that control can do at a point with this block.
    fn after(&self, alloc: Global, point: &Point, block: &Block) -> Result<Items<Next>, AllocError>
        requires { sound self.now }
        ensures { IfOk result (λ nexts. nexts ≡ (code self.now).after point.now block.now) };

    /// The targets of the computed plain jump at an address.
    fn table(&self, alloc: Global, at: u32) -> Result<Items<u32>, AllocError>
        requires { sound self.now }
        ensures { IfOk result (λ targets. targets ≡ (code self.now).table at) };

    /// The second return point of a return address.
    fn second(&self, back: u32) -> Option<u32>
        requires { sound self.now }
        ensures { result ≡ (code self.now).second back };
}
