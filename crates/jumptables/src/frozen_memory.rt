//! The bytes that no store changes, as a memory.
ghost use Rattle.std.specs.Prelude.{◌≡◌, refl};
ghost use Rattle.points.specs.PartialRuns.{frozen_contents};

use rtl_core::{Frozen, Memory};

/// A view of the frozen bytes: nothing else is mapped, and no byte may be written.
#[derive(Clone, Copy)]
pub struct FrozenMemory<'a> {
    pub frozen: &'a Frozen,
}

impl<'a> Memory for FrozenMemory<'a> {
    ghost contents = { λ m. frozen_contents m.frozen.now };

    ghost whole = { λ m. Unit {0} };

    ghost ready = { λ m. Unit {0} };

    ghost follows = { λ m n. n.frozen.now ≡ m.frozen.now };

    fn load8(&self, a: u32) -> Option<u8> {
        self.frozen.byte(a)
    }

    fn writable8(&self, _a: u32) -> bool {
        false
    }

    fn store8(&mut self, _a: u32, _v: u8) -> bool {
        false
    }

    ghost follows_itself = { λ m. refl };

    ghost follows_on = { λ a b c p q. Prim.cc (p, q) };
}
