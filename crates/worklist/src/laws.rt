//! A law of lists of any type with an order.
ghost use Rattle.std.specs.Prelude.{◌≡◌, List};
ghost use Rattle.std.specs.List.Sorted.{IsStrictlySortedBy};
ghost use Rattle.worklist.specs.Closures.{HaveSameMembers};

/// Lists that ascend and have the same items are equal.
pub fn ascending_lists_are_one<T: Ord>()
    ensures { (xs ys : List T) → IsStrictlySortedBy T.cmp xs → IsStrictlySortedBy T.cmp ys → HaveSameMembers xs ys → xs ≡ ys }
{}
