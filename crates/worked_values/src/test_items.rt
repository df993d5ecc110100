//! Lists of one and of two items.
ghost use Rattle.std.specs.Prelude.{◌≡◌, [], ◌∷◌, IfOk};

use sqlite_items::Items;
use std::alloc::{AllocError, Global};

pub fn one<T: Drop>(alloc: Global, item: T) -> Result<Items<T>, AllocError>
    ensures { IfOk result (λ it. it ≡ item ∷ []) }
{
    let mut items = Items::new(alloc);
    items.push(item)?;
    Ok(items)
}

pub fn two<T: Drop>(alloc: Global, first: T, second: T) -> Result<Items<T>, AllocError>
    ensures { IfOk result (λ it. it ≡ first ∷ second ∷ []) }
{
    let mut items = one(alloc, first)?;
    items.push(second)?;
    Ok(items)
}
