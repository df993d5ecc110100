//! The variables of all open calls.
ghost use Rattle.std.specs.Prelude.{◌≡◌, ◌<◌, ◌+◌, ◌≤◌, ◌^◌, ◌++◌, ◌∷◌, [], ℕ, List, Option, None, false, length, replicate, IfOk, if◌then◌else◌, vec_capacity};
ghost use Rattle.c_lang.specs.State.{is_global as is_shared, with_var};
ghost use Rattle.c_lang.specs.Value.{value as value_in};
ghost use Rattle.c_frames.specs.Slots.{slot_of as place_of, local_vars, global_vars, seen};

use crate::slots::{is_global, slot_of};
use crate::values::value_over;
use c_lang::{CExpr, Var};
use std::alloc::{AllocError, Global};
use std::marker::Model;

/// How many calls can be open.
const MOST_CALLS: usize = 65_537;

/// How many slots the shared variables have.
const SHARED: usize = 260;

/// The variables of all open calls: those of each call lie in slots of its own, of which all calls have the same number.
///
/// All memory is taken at the start and none later.
#[derive(Drop)]
pub struct Variables {
    size: usize,
    // How many calls stand below the one on top, and how many slots they have.
    depth: usize,
    base: usize,
    slots: Vec<Option<u64>>,
    globals: Vec<u64>,
}

impl Model for Variables {
    ghost use Rattle.std.specs.Prelude.{length, take, drop, vec_capacity};
    ghost use Rattle.c_frames.specs.Stack.{Stack, calls_in, IsStacked};

    ghost Value = { Stack };

    ghost view = { λ s. record { size = s.size; top = drop s.base s.slots.items; below = calls_in s.size s.depth (take s.base s.slots.items); globals = s.globals.items } };

    ghost invariant = { λ s. IsStacked s.size s.depth s.base (length s.slots.items) (vec_capacity s.slots) (length s.globals.items) };
}

impl Variables {
    /// One call without any variable set, and all shared variables at 0.
    pub fn reserve(alloc: Global, size: usize) -> Result<Variables, AllocError>
        requires { size < 2 ^ 32 }
        ensures { IfOk result (λ s. s ≡ record { size = size; top = replicate size None; below = []; globals = replicate 260 0 }) }
    {
        let mut slots = Vec::with_capacity(alloc, MOST_CALLS * size)?;
        push_unset(&mut slots, size);
        let globals = vec![in alloc; 0; SHARED]?;
        Ok(Variables {
            size,
            depth: 0,
            base: 0,
            slots,
            globals,
        })
    }

    /// How many calls stand below the one on top.
    pub fn depth(&self) -> usize
        ensures { result ≡ length self.now.below }
    {
        self.depth
    }

    /// The value of an expression in the call on top.
    pub fn value(&self, e: &CExpr) -> Option<u64>
        ensures { result ≡ value_in (seen self.now.top self.now.globals) e.now }
    {
        value_over(&self.slots[self.base..], &self.globals, e)
    }

    /// Gives a value to a variable, where it belongs.
    pub fn put(&mut self, v: Var, n: u64)
        requires { is_shared v ≡ false → place_of v < self.old.size }
        ensures locals { local_vars self.new.top ≡ (if is_shared v then local_vars self.old.top else with_var (local_vars self.old.top) v n) }
        ensures globals { global_vars self.new.globals ≡ (if is_shared v then with_var (global_vars self.old.globals) v n else global_vars self.old.globals) }
        ensures size { self.new.size ≡ self.old.size }
        ensures below { self.new.below ≡ self.old.below }
    {
        let at = slot_of(v);
        if is_global(v) {
            self.globals[at] = n;
        } else {
            self.slots[self.base + at] = Some(n);
        }
    }

    /// Opens a call without any variable set.
    pub fn enter(&mut self)
        requires { length self.old.below < 65536 }
        ensures { self.new ≡ record self.old { top = replicate self.old.size None; below = self.old.top ∷ self.old.below } }
    {
        push_unset(&mut self.slots, self.size);
        self.base += self.size;
        self.depth += 1;
    }

    /// Gives up the call on top.
    pub fn leave(&mut self)
        requires { 0 < length self.old.below }
        ensures frames { self.old.below ≡ self.new.top ∷ self.new.below }
        ensures size { self.new.size ≡ self.old.size }
        ensures globals { self.new.globals ≡ self.old.globals }
    {
        self.slots.truncate(self.base);
        self.base -= self.size;
        self.depth -= 1;
    }

    /// The value of an expression in the call below the one on top.
    pub fn value_below(&self, e: &CExpr) -> Option<u64>
        requires { 0 < length self.now.below }
        ensures { (caller : List (Option ℕ)) (more : List (List (Option ℕ))) → self.now.below ≡ caller ∷ more → result ≡ value_in (seen caller self.now.globals) e.now }
    {
        let (front, _) = self.slots.as_slice().split_at(self.base);
        let (_, caller) = front.split_at(self.base - self.size);
        value_over(caller, &self.globals, e)
    }
}

/// Puts slots without a value behind others, where there is room for them.
fn push_unset(slots: &mut Vec<Option<u64>>, count: usize)
    requires { length slots.old.items + count ≤ vec_capacity slots.old }
    ensures items { slots.new.items ≡ slots.old.items ++ replicate count None }
    ensures capacity { vec_capacity slots.new ≡ vec_capacity slots.old }
{
    for i in 0..count {
        let _ = i;
        slots.push_reserved(None);
    }
}
