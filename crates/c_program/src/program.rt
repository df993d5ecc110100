//! The program: its functions, and the values with which the first of them is called.
ghost use Rattle.std.specs.Prelude.{◌≡◌, ◌<◌, ◌≤◌, ◌==◌, ◌++◌, [], ◌∷◌, if◌then◌else◌, length, map, All, IfOk, OnOk};
ghost use Rattle.std.specs.List.{Contains};
ghost use Rattle.rtl_core.specs.FirstMemory.{first_stack};
ghost use Rattle.c_lower.specs.Lowerable.{most_temporaries};
ghost use Rattle.c_control.specs.Plans.{Plan};
ghost use Rattle.c_program.specs.Functions.{block_need, function_of, functions_of};
ghost use Rattle.c_program.specs.Ready.{IsReady};
ghost use Rattle.c_program.specs.Shown.{IsSummaryOf, Shows, entries_of};
ghost use Rattle.c_program.specs.Whole.{first_of, program_of};

use crate::functions::function;
use crate::header::header;
use crate::sources::Sources;
use c_lang::{CSeg, Function, Program};
use points::{Node, Proc, Summary};
use rtl_core::{Conv, Machine};
use sqlite_items::Items;
use std::alloc::{AllocError, Global};

/// The first values of some cells: 0 but for the stack cell.
fn first_values(
    alloc: Global,
    machine: &Machine,
    conv: &Conv,
    cells: &[u8],
) -> Result<Items<u64>, AllocError>
    requires there { All (λ c. c < length machine.now.widths) cells.now }
    requires room { conv.now.room ≤ conv.now.stack_size }
    ensures { IfOk result (λ out. out ≡ first_of machine.now conv.now cells.now) }
{
    let mut out = Items::new(alloc);
    for c in cells {
        out.push(first_value(conv, *c))?;
    }
    Ok(out)
}

/// The first value of a cell.
fn first_value(conv: &Conv, c: u8) -> u64
    requires room { conv.now.room ≤ conv.now.stack_size }
    ensures { result ≡ if c == conv.now.stack_cell then first_stack conv.now else 0 }
{
    if c == conv.stack_cell {
        u64::from(conv.stack_base) + u64::from(conv.stack_size - conv.room)
    } else {
        0
    }
}

/// Pushes the function of a procedure.
fn push_function(
    alloc: Global,
    out: &mut Items<Function>,
    on: &Sources,
    own: &Summary,
    nodes: &[Node],
    places: &[u32],
) -> Result<(), AllocError>
    ghost plan: { Plan }
    requires shows { Shows plan on.now }
    requires own { IsSummaryOf plan own.now }
    requires ready { All (IsReady plan on.now) nodes.now }
    requires few { All (λ n. block_need n.block ≤ most_temporaries) nodes.now }
    requires within { All (λ k. k < length nodes.now) places.now }
    ensures { OnOk result (out.new ≡ out.old ++ function_of plan nodes.now own.now.entry places.now ∷ []) }
{
    let here = Sources {
        machine: on.machine,
        conv: on.conv,
        tables: on.tables,
        pads: on.pads,
        sums: on.sums,
        own,
    };
    out.push(function(alloc, &here, nodes, places)?)
}

/// The functions of procedures with these summaries.
fn functions(
    alloc: Global,
    on: &Sources,
    nodes: &[Node],
    procs: &[Proc],
) -> Result<Items<Function>, AllocError>
    ghost plan: { Plan }
    requires shows { Shows plan on.now }
    requires ready { All (IsReady plan on.now) nodes.now }
    requires few { All (λ n. block_need n.block ≤ most_temporaries) nodes.now }
    requires within { All (λ p. All (λ k. k < length nodes.now) p.body) procs.now }
    requires entries { entries_of on.now.sums.now ≡ map (λ p. p.entry) procs.now }
    ensures { IfOk result (λ out. out ≡ functions_of plan nodes.now procs.now) }
{
    let mut out = Items::new(alloc);
    for (i, proc) in procs.iter().enumerate() {
        push_function(
            alloc,
            &mut out,
            on,
            &on.sums[i],
            nodes,
            proc.body.as_slice(),
        )?;
    }
    Ok(out)
}

/// The program whose first procedure is that of `on`.
pub(crate) fn program(
    alloc: Global,
    on: &Sources,
    nodes: &[Node],
    procs: &[Proc],
    segments: Items<CSeg>,
) -> Result<Program, AllocError>
    ghost plan: { Plan }
    requires shows { Shows plan on.now }
    requires ready { All (IsReady plan on.now) nodes.now }
    requires few { All (λ n. block_need n.block ≤ most_temporaries) nodes.now }
    requires within { All (λ p. All (λ k. k < length nodes.now) p.body) procs.now }
    requires entries { entries_of on.now.sums.now ≡ map (λ p. p.entry) procs.now }
    requires cells { All (λ c. c < length on.now.machine.now.widths) on.now.own.now.refs }
    requires room { on.now.conv.now.room ≤ on.now.conv.now.stack_size }
    ensures { IfOk result (λ p. p ≡ program_of plan on.now.machine.now on.now.conv.now nodes.now procs.now segments on.now.own.now.entry) }
{
    let first = first_values(alloc, on.machine, on.conv, on.own.refs.as_slice())?;
    Ok(Program {
        header: header(on.machine, on.conv),
        segments,
        functions: functions(alloc, on, nodes, procs)?,
        entry: on.own.entry,
        first,
    })
}
