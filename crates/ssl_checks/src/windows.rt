//! The cells of register windows.
ghost use Rattle.std.specs.Prelude.{◌≡◌, ◌+◌};
ghost use Rattle.ssl_rules.specs.Widths.{asked, cell_width};
ghost use Rattle.ssl_rules.specs.Windows.{is_from, is_window_cell, are_apart, are_there, holds_zero, is_zero, are_windows, group_differs, windows_differ};

use crate::measures::{asked, or};
use rtl_core::WinShape;
use ssl_rules::{Mismatch, Tables};

/// Whether a cell is one of so many from the first on.
fn is_from(first: u8, count: u8, cell: u8) -> bool
    ensures { result ≡ is_from first count cell }
{
    first <= cell && u16::from(cell) < u16::from(first) + u16::from(count)
}

/// Whether a cell is a window cell.
fn is_window_cell(windows: WinShape, cell: u8) -> bool
    ensures { result ≡ is_window_cell windows cell }
{
    is_from(windows.out_first, windows.count, cell)
        || is_from(windows.local_first, windows.count, cell)
        || is_from(windows.in_first, windows.count, cell)
}

/// Whether so many cells from one on and as many from another on are different cells.
fn are_apart(count: u8, a: u8, b: u8) -> bool
    ensures { result ≡ are_apart count a b }
{
    u16::from(a) + u16::from(count) <= u16::from(b)
        || u16::from(b) + u16::from(count) <= u16::from(a)
}

/// Whether so many cells from the first on are there, and none is the zero cell.
fn are_there(tables: &Tables, zeroed: Option<u8>, count: u8, first: u8) -> bool
    ensures { result ≡ are_there tables.now zeroed count first }
{
    let end = usize::from(first) + usize::from(count);
    end <= tables.widths.len() && !holds_zero(zeroed, count, first)
}

/// Whether the zero cell, where there is one, is one of so many from the first on.
fn holds_zero(zeroed: Option<u8>, count: u8, first: u8) -> bool
    ensures { result ≡ holds_zero zeroed count first }
{
    match zeroed {
        None => false,
        Some(cell) => is_from(first, count, cell),
    }
}

/// Whether a zero cell is there, and is no window cell.
pub fn is_zero(cell: Option<u8>, windows: Option<WinShape>) -> bool
    ensures { result ≡ is_zero cell windows }
{
    match (cell, windows) {
        (None, _) => false,
        (Some(_), None) => true,
        (Some(cell), Some(windows)) => !is_window_cell(windows, cell),
    }
}

/// Whether windows have 1 to 8 cells of each kind, that are there, and do not overlap.
pub fn are_windows(tables: &Tables, zeroed: Option<u8>, windows: WinShape) -> bool
    ensures { result ≡ are_windows tables.now zeroed windows }
{
    let count = windows.count;
    (1 <= count && count <= 8)
        && (are_there(tables, zeroed, count, windows.out_first)
            && are_there(tables, zeroed, count, windows.local_first)
            && are_there(tables, zeroed, count, windows.in_first))
        && (are_apart(count, windows.out_first, windows.local_first)
            && are_apart(count, windows.local_first, windows.in_first)
            && are_apart(count, windows.out_first, windows.in_first))
}

/// The first of so many cells from the first on that has not 32 bits.
fn group_differs(tables: &Tables, first: u8, count: u8) -> Option<Mismatch>
    ensures { result ≡ group_differs tables.now first count }
{
    let mut differs = None;
    for k in 0..count {
        differs = or(differs, cell_differs(tables, first, k));
    }
    differs
}

/// The width of the cell `k` behind the first, where it is not 32.
fn cell_differs(tables: &Tables, first: u8, k: u8) -> Option<Mismatch>
    ensures { result ≡ asked 32 (Some (cell_width tables.now (first + k))) }
{
    let width = tables.cell_width(usize::from(first) + usize::from(k));
    asked(32, Some(width))
}

/// The first window cell that has not 32 bits: of the out, the local and the in cells.
pub fn windows_differ(tables: &Tables, windows: WinShape) -> Option<Mismatch>
    ensures { result ≡ windows_differ tables.now windows }
{
    or(
        group_differs(tables, windows.out_first, windows.count),
        or(
            group_differs(tables, windows.local_first, windows.count),
            group_differs(tables, windows.in_first, windows.count),
        ),
    )
}
