//! The closure of some starts under steps, by a worklist that is the set itself: what is found goes last, and each is
//! looked at in turn.
ghost use Rattle.std.specs.Prelude.{◌≡◌, ◌<◌, ◌≤◌, List, true, length, IfOk, IfErr, OnOk};
ghost use Rattle.std.specs.List.{All, Contains, IsDistinct};
ghost use Rattle.worklist.specs.Closures.{InClosure, AreMore, IsExtended};

use indexmap::IndexSet;
use std::alloc::{AllocError, AllocFailed, Global};
use std::hash::Hash;

/// Why there is no closure.
#[derive(Clone, Copy, Debug, PartialEq, Eq)]
pub enum ClosureFault {
    /// It has more than the limit.
    TooMany,
    /// Memory ran out.
    NoMemory,
}

impl From<AllocError> for ClosureFault {
    ghost use Rattle.worklist.specs.declared.search.ClosureFault.TheVariants.{NoMemory};

    ghost from_gives = { λ _ fault. fault ≡ NoMemory };

    fn from(_: AllocError) -> Self {
        ClosureFault::NoMemory
    }
}

impl<T: Drop> From<AllocFailed<T>> for ClosureFault {
    ghost use Rattle.worklist.specs.declared.search.ClosureFault.TheVariants.{NoMemory};

    ghost from_gives = { λ _ fault. fault ≡ NoMemory };

    fn from(_: AllocFailed<T>) -> Self {
        ClosureFault::NoMemory
    }
}

/// Steps from one thing to others. What was found out on the way may be remembered.
pub trait Successors<T> {
    /// The things one step behind each.
    ghost next: { Self → T → List T };

    /// What each call asks and keeps: what is remembered is right.
    ghost ready: { Self → Type 0 };

    /// What stays between a value and the later ones.
    ghost stays: { Self → Self → Type 0 };

    /// The things one step behind this one. The error is want of memory.
    fn successors(&mut self, alloc: Global, of: &T) -> Result<Vec<T>, AllocError>
        requires ready { ready self.old }
        ensures next { IfOk result (λ v. v.items ≡ next self.old of.now) }
        ensures same { next self.new ≡ next self.old }
        ensures ready { ready self.new }
        ensures stays { (earlier : Self) → stays earlier self.old → stays earlier self.new };
}

/// Puts each that the set lacks last, until it has more than the limit.
fn insert_each<T: Eq + Hash + Copy + Drop>(
    set: &mut IndexSet<T>,
    items: &[T],
    limit: usize,
) -> Result<(), ClosureFault>
    requires same { (x y : T) → T.eq x y ≡ true → x ≡ y }
    requires within { length set.old.keys ≤ limit }
    ensures extended { IsExtended items.now set.old.keys set.new.keys }
    ensures all { OnOk result (All (Contains set.new.keys) items.now) }
    ensures within { OnOk result (length set.new.keys ≤ limit) }
    ensures over { IfErr result (λ f. f ≡ ClosureFault.TooMany → (limit < length set.new.keys) × IsDistinct T.eq set.new.keys) }
{
    for item in items {
        set.insert(*item)?;
        if set.len() > limit {
            return Err(ClosureFault::TooMany);
        }
    }
    Ok(())
}

/// All that steps reach from the starts, each once, in the order in which it is found. `TooMany` exactly where it is
/// more than `limit`, unless memory ran out before that was known.
pub fn closure<T: Eq + Hash + Copy + Drop, S: Successors<T>>(
    alloc: Global,
    steps: &mut S,
    starts: &[T],
    limit: usize,
) -> Result<IndexSet<T>, ClosureFault>
    requires same { (x y : T) → T.eq x y ≡ true → x ≡ y }
    requires ready { S.ready steps.old }
    ensures only { IfOk result (λ s. All (InClosure (S.next steps.old) starts.now) s.keys) }
    ensures whole { IfOk result (λ s. (x : T) → InClosure (S.next steps.old) starts.now x → Contains s.keys x) }
    ensures distinct { IfOk result (λ s. IsDistinct T.eq s.keys) }
    ensures within { IfOk result (λ s. length s.keys ≤ limit) }
    ensures enough { OnOk result (AreMore T.eq limit (InClosure (S.next steps.old) starts.now) → ⊥) }
    ensures over { IfErr result (λ f. f ≡ ClosureFault.TooMany → AreMore T.eq limit (InClosure (S.next steps.old) starts.now)) }
    ensures same { S.next steps.new ≡ S.next steps.old }
    ensures ready { S.ready steps.new }
    ensures stays { (earlier : S) → S.stays earlier steps.old → S.stays earlier steps.new }
{
    let mut found = IndexSet::new(alloc);
    insert_each(&mut found, starts, limit)?;
    let mut at = 0;
    while at < found.len() {
        let item = found.as_slice()[at];
        let next = steps.successors(alloc, &item)?;
        insert_each(&mut found, &next, limit)?;
        at += 1;
    }
    Ok(found)
}
