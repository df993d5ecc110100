//! Places in lists that ascend.
ghost use Rattle.std.specs.Prelude.{◌≡◌, true};
ghost use Rattle.graph_control.specs.Finding.{IsFound, IsPlace};

/// The place of an item in a list that ascends; `None` exactly where it is not there.
pub fn find<T: Ord>(items: &[T], item: &T) -> Option<usize>
    requires same { (x y : T) → T.eq x y ≡ true → x ≡ y }
    ensures { IsFound T.cmp items.now item.now result }
{
    match items.binary_search(item) {
        Ok(at) => Some(at),
        Err(_) => None,
    }
}

/// The place of an item in a list that ascends; the length of the list where it is not there.
pub fn place_in<T: Ord>(items: &[T], item: &T) -> usize
    requires same { (x y : T) → T.eq x y ≡ true → x ≡ y }
    ensures { IsPlace T.cmp items.now item.now result }
{
    match find(items, item) {
        Some(at) => at,
        None => items.len(),
    }
}
