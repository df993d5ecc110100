//! The program of a graph with summaries.
ghost use Rattle.std.specs.Prelude.{◌≡◌, map, IfOk};
ghost use Rattle.std.specs.List.{Contains};
ghost use Rattle.c_control.specs.Programs.{IsPlanned, IsSame, segment_of};
ghost use Rattle.params.specs.ByEntry.{AreMoving};
ghost use Rattle.c_program.specs.Planning.{AreSummariesOf, IsDescribed, Told, flow_of, graph_plan, graph_program};

use crate::program::program;
use crate::sources::{Sources, find_summary};
use c_lang::{CSeg, Program};
use points::{Graph, Summary};
use rtl_core::{Conv, Machine};
use sqlite_items::Items;
use std::alloc::{AllocError, Global};

/// The program of a graph with the summaries of its procedures, the least ones or those with all cells, over a first
/// memory of these segments, with the procedure at an entry as its first function. It is the C text of a plan, and so
/// the same as the described machine: whatever the machine writes within n instructions the C writes within the bound
/// times n + 1 steps, it writes nothing else, is never stuck, and stops exactly when the machine does. The error is want
/// of memory.
pub fn emit(
    alloc: Global,
    graph: &Graph,
    sums: &[Summary],
    machine: &Machine,
    conv: &Conv,
    segments: Items<CSeg>,
    entry: u32,
) -> Result<Program, AllocError>
    ghost told: { Told }
    requires machine { machine.now ≡ told.setting.machine }
    requires conv { conv.now ≡ told.setting.conv }
    requires described { IsDescribed told.setting told.table told.roots graph.now }
    requires sums { AreSummariesOf told.setting told.table told.roots graph.now sums.now }
    requires others { AreMoving told.setting.machine told.others }
    requires root { Contains told.roots entry }
    requires segments { segments ≡ map segment_of told.parts }
    ensures same { IfOk result (λ p. IsSame p (flow_of told.setting told.table graph.now.procs) told.parts entry) }
    ensures planned { IfOk result (IsPlanned (graph_plan told.setting told.table graph.now.procs sums.now told.others) told.roots told.parts entry) }
    ensures program { IfOk result (λ p. p ≡ graph_program told.setting told.table graph.now sums.now told.others told.parts entry) }
{
    program_of_graph(alloc, graph, sums, machine, conv, segments, entry)
}

/// The program of a graph with summaries, as its plan says.
fn program_of_graph(
    alloc: Global,
    graph: &Graph,
    sums: &[Summary],
    machine: &Machine,
    conv: &Conv,
    segments: Items<CSeg>,
    entry: u32,
) -> Result<Program, AllocError>
    ghost told: { Told }
    requires machine { machine.now ≡ told.setting.machine }
    requires conv { conv.now ≡ told.setting.conv }
    requires described { IsDescribed told.setting told.table told.roots graph.now }
    requires sums { AreSummariesOf told.setting told.table told.roots graph.now sums.now }
    requires others { AreMoving told.setting.machine told.others }
    requires root { Contains told.roots entry }
    requires segments { segments ≡ map segment_of told.parts }
    ensures { IfOk result (λ p. p ≡ graph_program told.setting told.table graph.now sums.now told.others told.parts entry) }
{
    match find_summary(sums, entry) {
        None => unreachable!(),
        Some(own) => {
            let on = Sources {
                machine,
                conv,
                tables: graph.tables.as_slice(),
                pads: graph.pads.as_slice(),
                sums,
                own,
            };
            program(
                alloc,
                &on,
                graph.nodes.as_slice(),
                graph.procs.as_slice(),
                segments,
            )
        }
    }
}
