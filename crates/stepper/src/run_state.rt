//! What a run changes, and what it is at first.
ghost use Rattle.std.specs.Prelude.{◌≡◌, ◌<◌, ◌≤◌, ◌+◌, [], length, IfOk};
ghost use Rattle.rtl_core.specs.FirstMemory.{first_cells};
ghost use Rattle.rtl_meaning.specs.Saved.{HaveShape};
ghost use Rattle.points.specs.Bundles.{IsSoundSetting, setting_of};

use decode::Bundle;
use rtl_core::{Cells, Conv, Machine, Point};
use rtl_meaning::Windows;
use space::Space;
use sqlite_items::Items;
use std::alloc::{AllocError, Global};
use sysemu::Streams;

/// What a run changes: the cells, the saved windows, the memory, the streams and the point.
#[derive(Drop)]
pub struct RunState {
    pub cells: Cells,
    pub windows: Windows,
    pub space: Space,
    pub streams: Streams,
    pub point: Point,
}

/// What takes memory in it beside the space.
#[derive(Drop)]
pub struct FirstParts {
    pub cells: Cells,
    pub windows: Windows,
    pub streams: Streams,
}

/// The cells, the windows and the streams before the first instruction.
pub fn first_parts(alloc: Global, on: &Bundle, input: &[u8]) -> Result<FirstParts, AllocError>
    requires { IsSoundSetting (setting_of on.now) }
    ensures cells { IfOk result (λ p. p.cells.values ≡ first_cells on.now.machine.now on.now.conv.now) }
    ensures none { IfOk result (λ p. p.windows ≡ []) }
    ensures shape { IfOk result (λ p. HaveShape on.now.machine.now p.windows) }
    ensures streams { IfOk result (λ p. p.streams ≡ record { input = input.now; pending = []; heap_end = on.now.conv.now.heap_base }) }
{
    let cells = zeros_and_stack(alloc, on.machine, on.conv)?;
    let windows = Windows::reserve(alloc, on.machine)?;
    let streams = Streams::new(alloc, input, on.conv.heap_base)?;
    Ok(FirstParts {
        cells,
        windows,
        streams,
    })
}

/// The first cells: all 0 but the stack cell.
fn zeros_and_stack(alloc: Global, machine: &Machine, conv: &Conv) -> Result<Cells, AllocError>
    requires there { conv.now.stack_cell < length machine.now.widths }
    requires room { conv.now.room ≤ conv.now.stack_base + conv.now.stack_size }
    ensures { IfOk result (λ cells. cells.values ≡ first_cells machine.now conv.now) }
{
    let mut values = Items::from_vec(vec![in alloc; 0; machine.widths.len()]?);
    let end = u64::from(conv.stack_base) + u64::from(conv.stack_size);
    values.set(conv.stack_cell as usize, end - u64::from(conv.room));
    Ok(Cells { values })
}
