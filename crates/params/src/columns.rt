//! For each cell the procedures that have it.
ghost use Rattle.std.specs.Prelude.{◌≡◌, ◌≤◌, ◌&&◌, not, ◌++◌, ◌∷◌, [], if◌then◌else◌, length, IfOk, OnOk};
ghost use Rattle.params.specs.Leading.{mark, AreColumns};
ghost use Rattle.params.specs.Cells.{is_zero, marked_cells, moving_cells};

use crate::search::{is_marked, users};
use sqlite_items::Items;
use std::alloc::{AllocError, Global};

/// A column of marks for each row of those given. The error is want of memory.
pub fn columns(
    alloc: Global,
    rows: &[Items<usize>],
    openers: &[usize],
    given: &[Items<usize>],
) -> Result<Vec<Items<bool>>, AllocError>
    ensures { IfOk result (λ columns. AreColumns rows.now openers.now given.now columns.items) }
{
    let mut columns = Vec::new(alloc);
    for places in given {
        columns.push(users(alloc, rows, openers, places.as_slice())?)?;
    }
    Ok(columns)
}

/// The cells whose columns have a mark at a place, but for the zero cell, ascending. The error is want of memory.
pub fn marked_cells(
    alloc: Global,
    columns: &[Items<bool>],
    zero: Option<u8>,
    place: usize,
) -> Result<Items<u8>, AllocError>
    requires { length columns.now ≤ 256 }
    ensures { IfOk result (λ cells. cells ≡ marked_cells columns.now zero place) }
{
    let mut cells = Items::new(alloc);
    for (cell, column) in columns.iter().enumerate() {
        push_if(
            &mut cells,
            is_chosen(column.as_slice(), zero, place, cell as u8),
            cell as u8,
        )?;
    }
    Ok(cells)
}

/// All cells but the zero cell, ascending. The error is want of memory.
pub fn moving_cells(alloc: Global, count: usize, zero: Option<u8>) -> Result<Items<u8>, AllocError>
    requires { count ≤ 256 }
    ensures { IfOk result (λ cells. cells ≡ moving_cells count zero) }
{
    let mut cells = Items::new(alloc);
    for cell in 0..count {
        push_if(&mut cells, !is_zero(zero, cell as u8), cell as u8)?;
    }
    Ok(cells)
}

/// Whether a column has a mark at a place and is not that of the zero cell.
fn is_chosen(column: &[bool], zero: Option<u8>, place: usize, cell: u8) -> bool
    ensures { result ≡ (mark column.now place && not (is_zero zero cell)) }
{
    is_marked(column, place) && !is_zero(zero, cell)
}

/// Whether a cell is the zero cell.
fn is_zero(zero: Option<u8>, cell: u8) -> bool
    ensures { result ≡ is_zero zero cell }
{
    match zero {
        None => false,
        Some(c) => c == cell,
    }
}

/// Puts a thing at the end, where it is chosen. The error is want of memory.
pub fn push_if<T: Copy + Drop>(
    items: &mut Items<T>,
    chosen: bool,
    item: T,
) -> Result<(), AllocError>
    ensures { OnOk result (items.new ≡ items.old ++ (if chosen then item ∷ [] else [])) }
{
    if chosen {
        items.push(item)?;
    }
    Ok(())
}
