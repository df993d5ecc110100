//! The summaries of a graph.
ghost use Rattle.std.specs.Prelude.{◌≡◌, ℕ, ◌<◌, ◌≤◌, ◌^◌, List, length, map, IfOk};
ghost use Rattle.std.specs.List.Sorted.{IsStrictlySortedBy};
ghost use Rattle.std.specs.List.{range_with_len};
ghost use Rattle.std.specs.Ordering.{nat_cmp};
ghost use Rattle.rtl_core.specs.declared.encodings.Encodings.{Encodings};
ghost use Rattle.rtl_core.specs.declared.frozen.Frozen.{Frozen};
ghost use Rattle.rtl_core.specs.SoundMachine.{IsSoundMachine};
ghost use Rattle.points.specs.Summaries.{AreSummaries, AreWholeSummaries};
ghost use Rattle.params.specs.Accepted.{setting_of, IsAccepted};
ghost use Rattle.params.specs.Cells.{marked_cells, moving_cells};
ghost use Rattle.params.specs.Leading.{AreRows, AreColumns};
ghost use Rattle.params.specs.Listed.{AreCalls, AreCellColumns, summary_at, summaries_at, whole_summary};
ghost use Rattle.params.specs.Parts.{proc_part};
ghost use Rattle.params.specs.SummaryLaws.{summarized};

use crate::columns::{columns, marked_cells, moving_cells};
use crate::parts::{Part, lists, openers};
use crate::rows::rows;
use points::{Graph, Summary};
use rtl_core::{Conv, Machine};
use sqlite_items::Items;
use std::alloc::{AllocError, Global};

/// The procedures that call each, and those that may enter any, by their places.
#[derive(Drop)]
struct Uses {
    callers: Vec<Items<usize>>,
    openers: Items<usize>,
}

/// For each procedure of a graph the cells that it and all that it enters may read or assign, and those that they may
/// assign, both ascending and without the zero cell; in the order of the procedures. The error is want of memory.
pub fn summaries(
    alloc: Global,
    graph: &Graph,
    machine: &Machine,
    conv: &Conv,
) -> Result<Items<Summary>, AllocError>
    requires sound { IsSoundMachine machine.now }
    ensures { IfOk result (λ summaries. (encodings : Encodings) (frozen : Frozen) (table : ℕ → List ℕ) (roots : List ℕ) → IsAccepted (setting_of machine.now conv.now encodings frozen) table roots graph.now
        → AreSummaries (summarized (setting_of machine.now conv.now encodings frozen) table roots) graph.now summaries) }
{
    let calls = calls(alloc, graph, machine, conv)?;
    let reads = cell_columns(alloc, graph, machine, conv, &calls, Part::Names)?;
    let writes = cell_columns(alloc, graph, machine, conv, &calls, Part::Assigns)?;
    let found = listed(alloc, graph, machine, &reads, &writes)?;
    Ok(found)
}

/// The calls of a graph.
fn calls(alloc: Global, graph: &Graph, machine: &Machine, conv: &Conv) -> Result<Uses, AllocError>
    requires few { length machine.now.widths < 2 ^ 32 }
    ensures { IfOk result (λ calls. AreCalls machine.now conv.now graph.now calls.callers.items calls.openers) }
{
    let called = lists(alloc, graph, machine, conv, Part::Calls)?;
    let entries = entries(alloc, graph)?;
    Ok(Uses {
        callers: rows(alloc, &entries, &called)?,
        openers: openers(alloc, graph, machine)?,
    })
}

/// The entries of the procedures, in their order.
fn entries(alloc: Global, graph: &Graph) -> Result<Vec<u32>, AllocError>
    ensures { IfOk result (λ entries. entries.items ≡ map (λ p. p.entry) graph.now.procs) }
{
    let mut entries = Vec::new(alloc);
    for proc in graph.procs.as_slice() {
        entries.push(proc.entry)?;
    }
    Ok(entries)
}

/// A column for each cell, with a mark at each procedure that has it.
fn cell_columns(
    alloc: Global,
    graph: &Graph,
    machine: &Machine,
    conv: &Conv,
    calls: &Uses,
    part: Part,
) -> Result<Vec<Items<bool>>, AllocError>
    requires few { length machine.now.widths ≤ 256 }
    ensures count { IfOk result (λ columns. length columns.items ≡ length machine.now.widths) }
    ensures columns { IfOk result (λ columns. AreCellColumns machine.now conv.now graph.now part calls.now.callers.items calls.now.openers columns.items) }
{
    let listed = lists(alloc, graph, machine, conv, part)?;
    let cells = cell_numbers(alloc, machine.widths.len())?;
    let users = rows(alloc, &cells, &listed)?;
    let found = columns(alloc, &calls.callers, calls.openers.as_slice(), &users)?;
    Ok(found)
}

/// The numbers of so many cells.
fn cell_numbers(alloc: Global, count: usize) -> Result<Vec<u32>, AllocError>
    requires { count ≤ 256 }
    ensures { IfOk result (λ cells. cells.items ≡ range_with_len 0 count) }
{
    let mut cells = Vec::new(alloc);
    for cell in 0..count {
        cells.push(cell as u32)?;
    }
    Ok(cells)
}

/// A summary for each procedure, from the columns of the cells.
fn listed(
    alloc: Global,
    graph: &Graph,
    machine: &Machine,
    reads: &[Items<bool>],
    writes: &[Items<bool>],
) -> Result<Items<Summary>, AllocError>
    requires few_reads { length reads.now ≤ 256 }
    requires few_writes { length writes.now ≤ 256 }
    ensures { IfOk result (λ summaries. summaries ≡ summaries_at reads.now writes.now machine.now.zero 0 graph.now.procs) }
{
    let mut summaries = Items::new(alloc);
    for (place, proc) in graph.procs.as_slice().iter().enumerate() {
        summaries.push(Summary {
            entry: proc.entry,
            refs: marked_cells(alloc, reads, machine.zero, place)?,
            mods: marked_cells(alloc, writes, machine.zero, place)?,
        })?;
    }
    Ok(summaries)
}

/// A summary for each procedure of a graph that says that it reads and assigns all cells but the zero cell. The error
/// is want of memory.
pub fn whole_summaries(
    alloc: Global,
    graph: &Graph,
    machine: &Machine,
) -> Result<Items<Summary>, AllocError>
    requires sound { IsSoundMachine machine.now }
    ensures { IfOk result (AreWholeSummaries machine.now graph.now) }
{
    let mut summaries = Items::new(alloc);
    for proc in graph.procs.as_slice() {
        summaries.push(Summary {
            entry: proc.entry,
            refs: moving_cells(alloc, machine.widths.len(), machine.zero)?,
            mods: moving_cells(alloc, machine.widths.len(), machine.zero)?,
        })?;
    }
    Ok(summaries)
}
