//! What a function declares.
ghost use Rattle.std.specs.Prelude.{◌≡◌, ◌<◌, ◌≤◌, ◌+◌, ◌*◌, ◌^◌, ◌||◌, ℕ, All, true, false, slice_index_or};
ghost use Rattle.c_lang.specs.declared.tree.Function.{Function};
ghost use Rattle.c_lang.specs.State.{has, declares};
ghost use Rattle.c_declared.specs.Sheets.{IsSheet, HasRoom};

use c_lang::{Function, Var};

/// How many cells there can be.
const CELLS: usize = 256;

/// Which cells a function declares, and how many temporaries.
#[derive(Clone, Copy, Debug)]
pub struct Sheet {
    pub cells: [bool; 256],
    pub temps: u16,
}

impl Sheet {
    /// Whether the function of the sheet has a variable to assign.
    #[inline(always)]
    pub fn has(&self, v: Var) -> bool
        ensures { (f : Function) → IsSheet f self.now → result ≡ declares f v }
    {
        match v {
            Var::Cell(c) => self.cells[c as usize],
            Var::Temp(k) => k < self.temps,
            _ => true,
        }
    }
}

/// The sheet of a function.
pub fn sheet_of(f: &Function) -> Sheet
    ensures { IsSheet f.now result }
{
    let mut cells = [false; CELLS];
    mark(&mut cells, f.params.as_slice());
    mark(&mut cells, f.cells.as_slice());
    Sheet {
        cells,
        temps: f.temps,
    }
}

/// Marks some cells.
fn mark(cells: &mut [bool; 256], numbers: &[u8])
    ensures { (c : ℕ) → c < 256 → slice_index_or cells.new c false ≡ (slice_index_or cells.old c false || has numbers.now c) }
{
    for n in numbers {
        cells[*n as usize] = true;
    }
}

/// How many slots a call of any of these functions needs.
pub fn slots_of(functions: &[Function]) -> usize
    ensures room { All (HasRoom result) functions.now }
    ensures few { result < 2 ^ 32 }
{
    let mut most = 2;
    for f in functions {
        most = most.max(slots_in(f));
    }
    most
}

/// How many slots a call of a function needs.
fn slots_in(f: &Function) -> usize
    ensures room { HasRoom result f.now }
    ensures few { result < 2 ^ 32 }
{
    let temps = 2 * f.temps as usize + 2;
    let params = cell_slots(f.params.as_slice());
    let cells = cell_slots(f.cells.as_slice());
    temps.max(params).max(cells)
}

/// How many slots some cells need.
fn cell_slots(numbers: &[u8]) -> usize
    ensures room { (c : ℕ) → has numbers.now c ≡ true → 2 * c + 3 ≤ result }
    ensures few { result < 1024 }
{
    let mut most = 0;
    for n in numbers {
        most = most.max(2 * *n as usize + 3);
    }
    most
}
