//! Saves and restores of register windows (The SPARC Architecture Manual, Version 8, B.20).
ghost use Rattle.std.specs.Prelude.{◌≡◌, ◌+◌, ◌≤◌, ◌++◌, length, replicate};
ghost use Rattle.rtl_core.specs.Contents.{Contents};
ghost use Rattle.rtl_core.specs.SoundMachine.{HaveSoundWindows};
ghost use Rattle.rtl_core.specs.Transfers.{saving, restoring};
ghost use Rattle.rtl_core.specs.Windows.{cells_from, put_cells, entered, window_of, left};
ghost use Rattle.rtl_meaning.specs.Effects.{doing, ended};
ghost use Rattle.rtl_meaning.specs.Saved.{AreAmong, HaveShape};
ghost use Rattle.rtl_meaning.specs.declared.effect.Effect.{Effect};

use crate::windows::{MOST_WINDOWS, Window, Windows};
use rtl_core::{Cells, Machine, Stop, WinShape};

/// Saves the window and enters a new one: in is set to out, local and out to 0. `WindowFull` comes exactly where no more can be saved.
#[tactic(auto, using(crate::proofs::CellGroups::windows_among))]
pub fn save(machine: &Machine, cells: &mut Cells, windows: &mut Windows) -> Result<(), Stop>
    requires shape { HaveSoundWindows machine.now machine.now.windows }
    requires count { length cells.old.values ≡ length machine.now.widths }
    ensures { (memory : Contents) (effect : Effect) → saving machine.now.windows (doing cells.old.values memory windows.old effect)
        ≡ ended result (doing cells.new.values memory windows.new effect) }
{
    let Some(shape) = machine.windows else {
        return Ok(());
    };
    if windows.len() == MOST_WINDOWS {
        return Err(Stop::WindowFull);
    }
    windows.push(saved_window(&shape, cells));
    enter(&shape, cells);
    Ok(())
}

/// Goes back to the window saved last: out is set to in, and then local and in come back. `WindowEmpty` comes exactly where none is saved.
#[tactic(auto, using(crate::proofs::CellGroups::windows_among))]
pub fn restore(machine: &Machine, cells: &mut Cells, windows: &mut Windows) -> Result<(), Stop>
    requires shape { HaveSoundWindows machine.now machine.now.windows }
    requires count { length cells.old.values ≡ length machine.now.widths }
    requires saved { HaveShape machine.now windows.old }
    ensures { (memory : Contents) (effect : Effect) → restoring machine.now.windows windows.old (doing cells.old.values memory windows.old effect)
        ≡ ended result (doing cells.new.values memory windows.new effect) }
{
    let Some(shape) = machine.windows else {
        return Ok(());
    };
    let Some(kept) = windows.pop() else {
        return Err(Stop::WindowEmpty);
    };
    leave(&shape, kept.as_slice(), cells);
    Ok(())
}

/// What a save keeps: the local cells, then the in cells.
#[tactic(auto, using(crate::proofs::CellGroups::group_laws))]
fn saved_window(shape: &WinShape, cells: &Cells) -> Window
    requires { AreAmong shape.now (length cells.now.values) }
    ensures { result ≡ window_of shape.now cells.now.values }
{
    let mut kept = Window::new();
    read_cells(cells, shape.local_first, shape.count, &mut kept);
    read_cells(cells, shape.in_first, shape.count, &mut kept);
    kept
}

/// The cells of a new window.
#[tactic(auto, using(crate::proofs::CellGroups::group_laws))]
fn enter(shape: &WinShape, cells: &mut Cells)
    requires { AreAmong shape.now (length cells.old.values) }
    ensures { cells.new.values ≡ entered shape.now cells.old.values }
{
    let mut outs = Window::new();
    read_cells(cells, shape.out_first, shape.count, &mut outs);
    put_values(cells, shape.in_first, outs.as_slice());
    clear_cells(cells, shape.local_first, shape.count);
    clear_cells(cells, shape.out_first, shape.count);
}

/// The cells of a kept window.
#[tactic(auto, using(crate::proofs::CellGroups::group_laws))]
fn leave(shape: &WinShape, kept: &[u64], cells: &mut Cells)
    requires cells { AreAmong shape.now (length cells.old.values) }
    requires kept { length kept.now ≡ shape.now.count + shape.now.count }
    ensures { cells.new.values ≡ left shape.now kept.now cells.old.values }
{
    let mut ins = Window::new();
    read_cells(cells, shape.in_first, shape.count, &mut ins);
    put_values(cells, shape.out_first, ins.as_slice());
    let (kept_locals, kept_ins) = kept.split_at(usize::from(shape.count));
    put_values(cells, shape.local_first, kept_locals);
    put_values(cells, shape.in_first, kept_ins);
}

/// Adds the values of `count` cells, from the first on, to a window.
#[tactic(auto, using(crate::proofs::CellGroups::group_laws))]
fn read_cells(cells: &Cells, first: u8, count: u8, into: &mut Window)
    requires there { first + count ≤ length cells.now.values }
    requires room { length into.old + count ≤ 16 }
    ensures { into.new ≡ into.old ++ cells_from first count cells.now.values }
{
    let values = cells.values.as_slice();
    for i in 0..count {
        into.push(values[first as usize + i as usize]);
    }
}

/// Puts 0 into `count` cells, from the first on.
#[tactic(auto, using(crate::proofs::CellGroups::group_laws))]
fn clear_cells(cells: &mut Cells, first: u8, count: u8)
    requires few { count ≤ 8 }
    requires there { first + count ≤ length cells.old.values }
    ensures values { cells.new.values ≡ put_cells first (replicate count 0) cells.old.values }
    ensures count { length cells.new.values ≡ length cells.old.values }
{
    let zeros = [0; 8];
    put_values(cells, first, &zeros[..usize::from(count)]);
}

/// Puts values into cells, from the first on.
#[tactic(auto, using(crate::proofs::CellGroups::group_laws))]
fn put_values(cells: &mut Cells, first: u8, values: &[u64])
    requires { first + length values.now ≤ length cells.old.values }
    ensures values { cells.new.values ≡ put_cells first values.now cells.old.values }
    ensures count { length cells.new.values ≡ length cells.old.values }
{
    for (i, value) in values.iter().enumerate() {
        cells.values.set(first as usize + i, *value);
    }
}
