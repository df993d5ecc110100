//! A described program, as discovery asks for it.
ghost use Rattle.std.specs.Prelude.{◌≡◌};
ghost use Rattle.points.specs.Flows.{is_computed};

use decode::Bundle;
use discover::Program;
use points::{Block, JumpKind, Next, Point, after, block_at, second};
use sqlite_items::Items;
use std::alloc::{AllocError, Global};

/// A described machine and an image for it, as a program by its addresses.
#[derive(Clone, Copy)]
pub struct Described<'a> {
    pub on: Bundle<'a>,
}

/// Whether a computed plain jump stands in a block.
pub fn jumps_computed(block: &Block) -> bool
    ensures { result ≡ is_computed block.now }
{
    match block {
        Block::Inst(_, JumpKind::Dyn) => true,
        Block::Inst(_, _) | Block::Outside | Block::Illegal => false,
    }
}

impl Program for Described<'_> {
    ghost use Rattle.points.specs.Bodies.{code_of};
    ghost use Rattle.points.specs.Bundles.{setting_of, IsSoundBundle};
    ghost use Rattle.jumptables.proofs.TheTable.{the_table};

    ghost code = { λ d. code_of (setting_of d.on) (the_table (setting_of d.on)) };

    ghost sound = { λ d. IsSoundBundle d.on };

    fn block_at(&self, alloc: Global, pc: u32) -> Result<Block, AllocError> {
        block_at(alloc, &self.on, pc)
    }

    fn after(
        &self,
        alloc: Global,
        point: &Point,
        block: &Block,
    ) -> Result<Items<Next>, AllocError> {
        after(alloc, &self.on, point, block)
    }

    fn table(&self, alloc: Global, at: u32) -> Result<Items<u32>, AllocError> {
        let block = block_at(alloc, &self.on, at)?;
        if !jumps_computed(&block) {
            return Ok(Items::new(alloc));
        }
        let targets = jumptables::table(alloc, &self.on, at)?;
        Ok(Items::from_vec(targets))
    }

    fn second(&self, back: u32) -> Option<u32> {
        second(&self.on, back)
    }
}
