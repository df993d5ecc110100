//! The procedures that use one of those given: all to which the rows of their callers lead.
ghost use Rattle.std.specs.Prelude.{◌≡◌, ℕ, List, [], ◌∷◌, length, replicate, false, slice_index_or, IfOk, OnOk};
ghost use Rattle.params.specs.Leading.{mark, AreUsers, IsPut, IsOnTheWay};

use sqlite_items::Items;
use std::alloc::{AllocError, Global};

/// What was found so far: a mark for each place, and the places whose rows wait.
#[derive(Drop)]
struct Search {
    marks: Items<bool>,
    waiting: Items<usize>,
}

/// Marks all to which rows lead from those given and the openers; none where none is given. The error is want of memory.
pub fn users(
    alloc: Global,
    rows: &[Items<usize>],
    openers: &[usize],
    given: &[usize],
) -> Result<Items<bool>, AllocError>
    ensures count { IfOk result (λ marks. length marks ≡ length rows.now) }
    ensures users { IfOk result (AreUsers rows.now openers.now given.now) }
{
    if given.is_empty() {
        return no_marks(alloc, rows.len());
    }
    let mut search = Search {
        marks: no_marks(alloc, rows.len())?,
        waiting: Items::new(alloc),
    };
    search.put_all(given)?;
    search.put_all(openers)?;
    search.go_on(rows)?;
    Ok(search.marks)
}

/// So many places without a mark.
fn no_marks(alloc: Global, count: usize) -> Result<Items<bool>, AllocError>
    ensures { IfOk result (λ marks. marks ≡ replicate count false) }
{
    Ok(Items::from_vec(vec![in alloc; false; count]?))
}

/// Whether a place has a mark.
pub fn is_marked(marks: &[bool], place: usize) -> bool
    ensures { result ≡ mark marks.now place }
{
    match marks.get(place) {
        None => false,
        Some(mark) => *mark,
    }
}

impl Search {
    /// Goes on from all that waits until nothing does.
    fn go_on(&mut self, rows: &[Items<usize>]) -> Result<(), AllocError>
        ensures { OnOk result ((starts : List ℕ) → IsOnTheWay rows.now starts self.old.marks self.old.waiting → IsOnTheWay rows.now starts self.new.marks []) }
    {
        while let Some(place) = self.waiting.pop() {
            if let Some(row) = rows.get(place) {
                self.put_all(row.as_slice())?;
            }
        }
        Ok(())
    }

    /// Finds each of some places.
    fn put_all(&mut self, places: &[usize]) -> Result<(), AllocError>
        ensures { OnOk result (IsPut places.now self.old.marks self.new.marks self.old.waiting self.new.waiting) }
    {
        for place in places {
            self.put(*place)?;
        }
        Ok(())
    }

    /// Finds a place, which waits where it is new.
    fn put(&mut self, place: usize) -> Result<(), AllocError>
        ensures { OnOk result (IsPut (place ∷ []) self.old.marks self.new.marks self.old.waiting self.new.waiting) }
    {
        if place < self.marks.len() && !is_marked(self.marks.as_slice(), place) {
            self.marks.set(place, true);
            self.waiting.push(place)?;
        }
        Ok(())
    }
}
