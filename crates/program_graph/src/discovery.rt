//! The graph of a program from its entry and its symbols.
ghost use Rattle.std.specs.Prelude.{◌≡◌, ◌≤◌, length, filter, IfOk, OnOk, IfErr};
ghost use Rattle.rtl_core.specs.Code.{is_code};
ghost use Rattle.points.specs.Bodies.{roots_of};
ghost use Rattle.points.specs.Bundles.{LieInMemory, setting_of, IsSoundBundle};
ghost use Rattle.program_graph.specs.Described.{IsGraphOf, IsOver, IsFault, most_points};

use crate::described::Described;
use decode::Bundle;
use discover::{DiscoverFault, discover_in};
use points::Graph;
use std::alloc::{AllocError, Global};

/// The most points that the bodies of all procedures together may have.
const MOST_POINTS: usize = 131_072;

/// The symbols that lie in code.
fn code_symbols(alloc: Global, on: &Bundle, symbols: &[u32]) -> Result<Vec<u32>, AllocError>
    ensures { IfOk result (λ found. found.items ≡ filter (is_code on.now.frozen.now) symbols.now) }
{
    symbols
        .iter()
        .copied()
        .filter(|symbol| on.frozen.in_code(*symbol))
        .collect(alloc)
}

/// Where procedures begin for other reasons than a call: at the entry, at each symbol in code, and where the
/// conventions say so.
fn roots(alloc: Global, on: &Bundle, entry: u32, symbols: &[u32]) -> Result<Vec<u32>, AllocError>
    ensures { IfOk result (λ roots. roots.items ≡ roots_of (setting_of on.now) entry symbols.now) }
{
    let mut roots = Vec::new(alloc);
    roots.push(entry)?;
    roots.extend_from_slice(&code_symbols(alloc, on, symbols)?)?;
    roots.extend_from_slice(on.conv.entries.as_slice())?;
    Ok(roots)
}

/// The graph of the program at an entry of an image with these function symbols: exactly the points that control can
/// reach, the procedures with their bodies, the tables of computed jumps and the pads of return addresses. Procedures
/// begin at the entry, at each symbol in code, at each `entry` line of the conventions and where calls lead.
///
/// `TooLarge` exactly where the bodies of all procedures together have more than 131,072 points, a point counted once
/// for each body, unless memory runs out before that is known; `points` is 131,073.
pub fn discover(
    alloc: Global,
    on: &Bundle,
    entry: u32,
    symbols: &[u32],
) -> Result<Graph, DiscoverFault>
    requires sound { IsSoundBundle on.now }
    requires lie { LieInMemory on.now.frozen.now }
    ensures graph { IfOk result (IsGraphOf (setting_of on.now) entry symbols.now) }
    ensures few { IfOk result (λ g. length g.procs ≤ most_points) }
    ensures enough { OnOk result (IsOver (setting_of on.now) entry symbols.now → ⊥) }
    ensures fault { IfErr result (IsFault (setting_of on.now) entry symbols.now) }
{
    let roots = roots(alloc, on, entry, symbols)?;
    let program = Described { on: *on };
    discover_in(alloc, &program, roots.as_slice(), MOST_POINTS)
}
