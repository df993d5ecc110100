//! What the blocks of a program are made from, and look-ups there.
ghost use Rattle.std.specs.Prelude.{◌≡◌, ◌≢◌, MatchOption};
ghost use Rattle.std.specs.List.{All, Contains};
ghost use Rattle.std.specs.List.Sorted.{IsNonDecreasingBy};

use points::{JumpTable, Pad, Summary};
use rtl_core::{Conv, Machine};
use sqlite_items::at;

/// The machine and its conventions; the tables, the pads and the summaries of a program, each ascending; and the summary of
/// the procedure whose blocks are made.
#[derive(Clone, Copy)]
pub(crate) struct Sources<'a> {
    pub(crate) machine: &'a Machine,
    pub(crate) conv: &'a Conv,
    pub(crate) tables: &'a [JumpTable],
    pub(crate) pads: &'a [Pad],
    pub(crate) sums: &'a [Summary],
    pub(crate) own: &'a Summary,
}

/// The table of the jump at an address; `None` exactly where none has one.
pub(crate) fn find_table<'a>(tables: &'a [JumpTable], a: u32) -> Option<&'a JumpTable>
    requires { IsNonDecreasingBy (λ t. t.at) tables.now }
    ensures { MatchOption result (All (λ t. t.at ≢ a) tables.now) (λ t. (t.now.at ≡ a) × Contains tables.now t.now) }
{
    let place = tables.partition_point(|t| t.at < a);
    match at(tables, place) {
        None => None,
        Some(table) => if table.at == a { Some(table) } else { None },
    }
}

/// The summary of the procedure at an entry; `None` exactly where none has one.
pub(crate) fn find_summary<'a>(sums: &'a [Summary], entry: u32) -> Option<&'a Summary>
    requires { IsNonDecreasingBy (λ s. s.entry) sums.now }
    ensures { MatchOption result (All (λ s. s.entry ≢ entry) sums.now) (λ s. (s.now.entry ≡ entry) × Contains sums.now s.now) }
{
    let place = sums.partition_point(|s| s.entry < entry);
    match at(sums, place) {
        None => None,
        Some(sum) => if sum.entry == entry { Some(sum) } else { None },
    }
}

/// The pad at a return address; `None` exactly where none stands there.
pub(crate) fn find_pad(pads: &[Pad], back: u32) -> Option<Pad>
    requires { IsNonDecreasingBy (λ p. p.at) pads.now }
    ensures { MatchOption result (All (λ p. p.at ≢ back) pads.now) (λ p. (p.at ≡ back) × Contains pads.now p) }
{
    let place = pads.partition_point(|p| p.at < back);
    match at(pads, place) {
        None => None,
        Some(pad) => if pad.at == back { Some(*pad) } else { None },
    }
}
