//! Lists turned round: for each key the places of the lists that have it.
ghost use Rattle.std.specs.Prelude.{◌≡◌, ◌↔◌, ◌⊎◌, ℕ, ◌+◌, ◌<◌, ◌++◌, [], ◌∷◌, length, slice_index, slice_index_or, slice_set, slice_get, replicate, Some, IfOk, OnOk, MatchOption};
ghost use Rattle.std.specs.List.{Contains};
ghost use Rattle.std.specs.List.Sorted.{IsStrictlySortedBy};
ghost use Rattle.std.specs.Ordering.{nat_cmp};
ghost use Rattle.params.specs.Leading.{row, AreRows, AreAdded};

use sqlite_items::Items;
use std::alloc::{AllocError, Global};

/// For each key the places of the lists that have it; the keys ascend. The error is want of memory.
pub fn rows(
    alloc: Global,
    keys: &[u32],
    lists: &[Items<u32>],
) -> Result<Vec<Items<usize>>, AllocError>
    ensures count { IfOk result (λ rows. length rows.items ≡ length keys.now) }
    ensures rows { IfOk result (λ rows. IsStrictlySortedBy nat_cmp keys.now → AreRows keys.now lists.now rows.items) }
{
    let mut rows = no_rows(alloc, keys.len())?;
    for (place, list) in lists.iter().enumerate() {
        add_list(&mut rows, keys, list.as_slice(), place)?;
    }
    Ok(rows)
}

/// So many rows of nothing.
fn no_rows(alloc: Global, count: usize) -> Result<Vec<Items<usize>>, AllocError>
    ensures { IfOk result (λ rows. rows.items ≡ replicate count []) }
{
    let mut rows = Vec::new(alloc);
    for _row in 0..count {
        rows.push(Items::new(alloc))?;
    }
    Ok(rows)
}

/// Puts a list's place into the row of each of its items that is a key.
fn add_list(
    rows: &mut Vec<Items<usize>>,
    keys: &[u32],
    list: &[u32],
    place: usize,
) -> Result<(), AllocError>
    ensures count { OnOk result (length rows.new.items ≡ length rows.old.items) }
    ensures added { OnOk result (length rows.old.items ≡ length keys.now → IsStrictlySortedBy nat_cmp keys.now → AreAdded keys.now list.now place rows.old.items rows.new.items) }
{
    for item in list {
        if let Some(at) = place_of(keys, *item) {
            add_to_row(rows, at, place)?;
        }
    }
    Ok(())
}

/// Puts a place into a row, where that is there.
fn add_to_row(rows: &mut Vec<Items<usize>>, at: usize, place: usize) -> Result<(), AllocError>
    ensures { OnOk result (rows.new.items ≡ slice_set rows.old.items at (row rows.old.items at ++ place ∷ [])) }
{
    if at < rows.len() {
        rows[at].push(place)?;
    }
    Ok(())
}

/// The place of a key.
fn place_of(keys: &[u32], key: u32) -> Option<usize>
    ensures { IsStrictlySortedBy nat_cmp keys.now → MatchOption result (Contains keys.now key → ⊥) (λ at. slice_get keys.now at ≡ Some key) }
{
    match keys.binary_search(&key) {
        Ok(at) => Some(at),
        Err(_) => None,
    }
}
