//! Sets of lists of which no two members are alike.
ghost use Rattle.std.specs.Prelude.{◌≡◌, IfOk};
ghost use Rattle.c_rules.specs.Distinct.{Gathered};

use indexmap::IndexSet;
use std::alloc::{AllocError, Global};
use std::hash::Hash;

/// The set of the values, or None where two are alike. The error is want of memory.
pub fn gather<T: Hash + Eq + Copy + Drop>(
    alloc: Global,
    values: &[T],
) -> Result<Option<IndexSet<T>>, AllocError>
    ensures { IfOk result (λ found. Gathered T.eq values.now found) }
{
    let mut set = IndexSet::new(alloc);
    for value in values {
        if !set.insert(*value)? {
            return Ok(None);
        }
    }
    Ok(Some(set))
}
