//! The C program of a described program.
#![tactic(auto)]

ghost use Rattle.std.specs.Prelude.{◌≡◌, map, IfOk, OnOk, IfErr};
ghost use Rattle.std.specs.List.{Contains};
ghost use Rattle.points.specs.Bundles.{LieInMemory, setting_of, IsSoundBundle};
ghost use Rattle.c_lang.specs.Spellable.{HasSpelling, SegmentsFit};
ghost use Rattle.c_control.specs.Programs.{IsSame, segment_of};
ghost use Rattle.params.specs.ByEntry.{AreMoving};
ghost use Rattle.c_program.specs.Planning.{IsDescribed, Told, flow_of};
ghost use Rattle.c_static.specs.Laws.{ArePlaced, KeepsFive};
ghost use Rattle.program_graph.specs.Described.{IsOver, IsFault};
ghost use Rattle.translation.specs.Translations.{IsShaped, IsTranslation, parts_of};

use c_forms::graph_is_spelled;
use c_lang::{CSeg, Program};
use c_program::emit;
use c_shape::graph_has_full_shape;
use c_static::graph_is_static;
use c_unique::one_program;
use decode::Bundle;
use params::summaries;
use points::Graph;
use program_graph::{DiscoverFault, discover};
use sqlite_items::Items;
use std::alloc::{AllocError, Global};

/// The C program of the program at an entry of an image with these function symbols, over a first memory of these
/// segments: a translation. Whatever the described machine writes within n instructions the C writes within the bound
/// times n + 1 steps; the C never writes anything else, is never stuck, and ends exactly when the machine does, with the
/// same stop. It has the shape that is promised to a reader: one function for each procedure, with exactly the cells that it
/// reads or assigns, one block for each point, and so on. It can be spelled, keeps the static rules of a C text, and no
/// other program has its text.
///
/// `TooLarge` exactly where the bodies of all procedures together have more than 131,072 points, a point counted once
/// for each body, unless memory runs out before that is known.
pub fn translate(
    alloc: Global,
    on: &Bundle,
    segments: Items<CSeg>,
    entry: u32,
    symbols: &[u32],
) -> Result<Program, DiscoverFault>
    requires sound { IsSoundBundle on.now }
    requires lie { LieInMemory on.now.frozen.now }
    requires placed { ArePlaced on.now.conv.now (parts_of segments) }
    requires fit { SegmentsFit segments }
    ensures translation { IfOk result (IsTranslation (setting_of on.now) entry symbols.now (parts_of segments)) }
    ensures enough { OnOk result (IsOver (setting_of on.now) entry symbols.now → ⊥) }
    ensures fault { IfErr result (IsFault (setting_of on.now) entry symbols.now) }
{
    one_program();
    let graph = discover(alloc, on, entry, symbols)?;
    let program = program_of(alloc, on, &graph, segments, entry, symbols)?;
    Ok(program)
}

/// The program of a graph with the cells of its procedures. `symbols` is what the graph was made from.
fn program_of(
    alloc: Global,
    on: &Bundle,
    graph: &Graph,
    segments: Items<CSeg>,
    entry: u32,
    symbols: &[u32],
) -> Result<Program, AllocError>
    ghost told: { Told }
    requires setting { told.setting ≡ setting_of on.now }
    requires described { IsDescribed told.setting told.table told.roots graph.now }
    requires others { AreMoving told.setting.machine told.others }
    requires root { Contains told.roots entry }
    requires parts { segments ≡ map segment_of told.parts }
    requires placed { ArePlaced told.setting.conv told.parts }
    requires fit { SegmentsFit segments }
    ensures same { IfOk result (λ p. IsSame p (flow_of told.setting told.table graph.now.procs) told.parts entry) }
    ensures shaped { IfOk result (IsShaped told graph.now) }
    ensures spelled { IfOk result HasSpelling }
    ensures rules { IfOk result KeepsFive }
{
    graph_has_full_shape();
    graph_is_spelled();
    graph_is_static();
    let sums = summaries(alloc, graph, on.machine, on.conv)?;
    emit(
        alloc,
        graph,
        sums.as_slice(),
        on.machine,
        on.conv,
        segments,
        entry,
    )
}
