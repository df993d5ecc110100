//! What the keys at a place leave of some constructors.
ghost use Rattle.std.specs.Prelude.{◌≡◌, ◌≤◌, ◌<◌, ◌*◌, ◌^◌, IfOk, IfSome, Some, slice_get, length};
ghost use Rattle.sled_match.specs.Pruned.{allowed_in, kept as kept_of};
ghost use Rattle.sled_match.specs.Split.{IsSplit, IsSmallSplit};

use crate::allowed::{Allowed, KEYS};
use sqlite_items::Items;
use std::alloc::{AllocError, Global};

/// The lists that the keys of a place leave, each once, and for each key which of them it is.
#[derive(Drop)]
pub struct Split {
    pub lists: Items<Items<u16>>,
    pub index: Items<u16>,
}

/// Those of some constructors that a key at a place leaves, in their order.
pub fn kept(
    alloc: Global,
    table: &Allowed,
    place: u8,
    key: u16,
    constructors: &[u16],
) -> Result<Items<u16>, AllocError>
    ensures { IfOk result (λ it. it ≡ kept_of (allowed_in table.now.rows) place key constructors.now) }
{
    let mut left = Items::new(alloc);
    for constructor in constructors {
        if table.permits(*constructor, place, key) {
            left.push(*constructor)?;
        }
    }
    Ok(left)
}

/// Where a list stands among lists.
pub fn find_list(lists: &[Items<u16>], mine: &[u16]) -> Option<u16>
    requires { length lists.now < 65536 }
    ensures { IfSome result (λ at. slice_get lists.now at ≡ Some mine.now) }
{
    for (at, list) in lists.iter().enumerate() {
        if list.as_slice() == mine {
            return Some(at as u16);
        }
    }
    None
}

/// Splits constructors by what stands at a place; `None` where there would be more lists than constructors,
/// or where the lists would hold more than twice as many.
pub fn split_at_place(
    alloc: Global,
    table: &Allowed,
    place: u8,
    constructors: &[u16],
) -> Result<Option<Split>, AllocError>
    requires { length constructors.now < 2 ^ 32 }
    ensures { IfOk result (λ split. IfSome split (λ s. IsSplit (allowed_in table.now.rows) place constructors.now s.lists s.index 257 × IsSmallSplit (length constructors.now) s.lists)) }
{
    let most = constructors.len();
    let mut lists = Items::new(alloc);
    let mut index = Items::new(alloc);
    let mut held = 0usize;
    for key in 0..KEYS {
        let mine = kept(alloc, table, place, key, constructors)?;
        match find_list(lists.as_slice(), mine.as_slice()) {
            Some(at) => index.push(at)?,
            None => {
                held += mine.len();
                index.push(lists.len() as u16)?;
                lists.push(mine)?;
                if held > 2 * most || lists.len() > most {
                    return Ok(None);
                }
            }
        }
    }
    Ok(Some(Split { lists, index }))
}
