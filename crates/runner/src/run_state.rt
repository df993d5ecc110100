//! What a run changes, and what it is at first.
ghost use Rattle.std.specs.Prelude.{◌≡◌, ◌<◌, ◌≤◌, ◌+◌, [], length, IfOk};
ghost use Rattle.rtl_core.specs.FirstMemory.{first_cells};
ghost use Rattle.rtl_core.specs.SoundConv.{IsSoundConv, FitsMachine};
ghost use Rattle.rtl_meaning.specs.Saved.{HaveShape};

use graph_control::{Calls, Position};
use paged_space::Space;
use rtl_core::{Cells, Conv, Machine};
use rtl_meaning::Windows;
use sqlite_items::Items;
use std::alloc::{AllocError, Global};
use sysemu::Streams;

/// What a run changes: the cells, the saved windows, the memory, the streams, and where control is. All room that it needs
/// is taken at its start. The space has to be given back to its pool.
pub struct RunState {
    pub cells: Cells,
    pub windows: Windows,
    pub space: Space,
    pub streams: Streams,
    pub position: Position,
}

/// What takes memory in it beside the space.
#[derive(Drop)]
pub struct FirstParts {
    pub cells: Cells,
    pub windows: Windows,
    pub streams: Streams,
    pub calls: Calls,
}

/// The cells, the windows, the streams and the call list before the first instruction.
pub fn first_parts(
    alloc: Global,
    machine: &Machine,
    conv: &Conv,
    input: &[u8],
) -> Result<FirstParts, AllocError>
    requires conv { IsSoundConv conv.now }
    requires fits { FitsMachine conv.now machine.now }
    ensures cells { IfOk result (λ p. p.cells.values ≡ first_cells machine.now conv.now) }
    ensures none { IfOk result (λ p. p.windows ≡ []) }
    ensures shape { IfOk result (λ p. HaveShape machine.now p.windows) }
    ensures streams { IfOk result (λ p. p.streams ≡ record { input = input.now; pending = []; heap_end = conv.now.heap_base }) }
    ensures calls { IfOk result (λ p. p.calls ≡ []) }
{
    let cells = zeros_and_stack(alloc, machine, conv)?;
    let windows = Windows::reserve(alloc, machine)?;
    let streams = Streams::new(alloc, input, conv.heap_base)?;
    let calls = Calls::reserve(alloc)?;
    Ok(FirstParts {
        cells,
        windows,
        streams,
        calls,
    })
}

/// The first cells: all 0 but the stack cell.
fn zeros_and_stack(alloc: Global, machine: &Machine, conv: &Conv) -> Result<Cells, AllocError>
    requires there { conv.now.stack_cell < length machine.now.widths }
    requires room { conv.now.room ≤ conv.now.stack_base + conv.now.stack_size }
    ensures { IfOk result (λ cells. cells.values ≡ first_cells machine.now conv.now) }
{
    let mut values = Items::from_vec(vec![in alloc; 0; machine.widths.len()]?);
    let end = u64::from(conv.stack_base) + u64::from(conv.stack_size);
    values.set(conv.stack_cell as usize, end - u64::from(conv.room));
    Ok(Cells { values })
}
