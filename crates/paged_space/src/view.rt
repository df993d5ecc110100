//! A Space in its pool, as a memory.
use crate::space::Space;
use page_pool::Pool;
use rtl_core::Memory;

/// A Space with the pool that it stands in.
///
/// As a memory it is whole where the Space stands in the pool, and ready where the pool has the spare frames that `store` asks. A later
/// value follows an earlier one where both hold the same references, and `Follows` says what became of the Space and the pool.
#[derive(Drop)]
pub struct View<'a, 'b> {
    pub space: &'a mut Space,
    pub pool: &'b mut Pool,
}

impl Memory for View<'_, '_> {
    ghost use Rattle.std.specs.Prelude.{◌≡◌, ◌≤◌};
    ghost use Rattle.std.proofs.Common.{refl, ◌∙◌};
    ghost use Rattle.page_pool.specs.Frames.{spare_of};
    ghost use Rattle.paged_space.specs.PageTable.{contents_of};
    ghost use Rattle.paged_space.specs.Moves.{StandIn};
    ghost use Rattle.paged_space.specs.Follows.{Follows, shared_of};
    ghost use Rattle.paged_space.specs.FollowsLaws.{follows_next, follows_same};

    ghost contents = { λ v. contents_of v.space.now v.pool.now };

    ghost whole = { λ v. StandIn v.space.now.frames v.pool.now };

    ghost ready = { λ v. shared_of v.space.now v.pool.now ≤ spare_of v.pool.now };

    ghost follows = { λ v w. (w.space.ghost_name ≡ v.space.ghost_name) × (w.pool.ghost_name ≡ v.pool.ghost_name) × Follows v.space.now w.space.now v.pool.now w.pool.now };

    fn load8(&self, a: u32) -> Option<u8> {
        self.space.load8(self.pool, a)
    }

    fn writable8(&self, a: u32) -> bool {
        self.space.writable8(a)
    }

    fn store8(&mut self, a: u32, v: u8) -> bool {
        self.space.store8(self.pool, a, v)
    }

    ghost follows_itself = { λ m. (refl, refl, follows_same m.space.now m.pool.now) };

    ghost follows_on = { λ a b c p q. (q.0 ∙ p.0, q.1 ∙ p.1, follows_next _ _ _ _ _ _ p.2 q.2) };
}
