//! Sets as lists whose items ascend.
ghost use Rattle.std.specs.Prelude.{◌≡◌, ◌≤◌, IfOk, true, length};
ghost use Rattle.std.specs.List.{All, Contains, IsDistinct};
ghost use Rattle.std.specs.List.Sorted.{IsStrictlySortedBy};

use indexmap::IndexSet;
use std::alloc::{AllocError, Global};
use std::hash::Hash;

/// The different items of a list, each below the next. The error is want of memory.
pub fn ascending<T: Ord + Copy + Drop>(alloc: Global, items: &[T]) -> Result<Vec<T>, AllocError>
    requires same { (x y : T) → T.eq x y ≡ true → x ≡ y }
    ensures ascend { IfOk result (λ v. IsStrictlySortedBy T.cmp v.items) }
    ensures only { IfOk result (λ v. All (Contains items.now) v.items) }
    ensures whole { IfOk result (λ v. All (Contains v.items) items.now) }
{
    let mut distinct = Vec::from_slice(alloc, items)?;
    distinct.sort()?;
    distinct.dedup();
    Ok(distinct)
}

/// The same, as a set in which each item is found at once. The error is want of memory.
pub fn ascending_set<T: Ord + Hash + Copy + Drop>(
    alloc: Global,
    items: &[T],
) -> Result<IndexSet<T>, AllocError>
    requires same { (x y : T) → T.eq x y ≡ true → x ≡ y }
    ensures ascend { IfOk result (λ s. IsStrictlySortedBy T.cmp s.keys) }
    ensures only { IfOk result (λ s. All (Contains items.now) s.keys) }
    ensures whole { IfOk result (λ s. All (Contains s.keys) items.now) }
    ensures distinct { IfOk result (λ s. IsDistinct T.eq s.keys) }
    ensures fewer { IfOk result (λ s. length s.keys ≤ length items.now) }
{
    let mut set = IndexSet::new(alloc);
    for item in items {
        set.insert(*item)?;
    }
    set.sort()?;
    Ok(set)
}
