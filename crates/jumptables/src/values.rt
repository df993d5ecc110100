//! Values over cells of which some are unknown.
ghost use Rattle.std.specs.Prelude.{◌≡◌, false, slice_index_or};
ghost use Rattle.rtl_core.specs.Terms.{term_of};
ghost use Rattle.rtl_core.specs.SoundTerms.{Fit};
ghost use Rattle.rtl_meaning.specs.Sound.{IsSoundExpr};
ghost use Rattle.points.specs.PartialRuns.{is_known, known_value};

use crate::frozen_memory::FrozenMemory;
use rtl_core::{Cells, Expr, Frozen, Machine};
use rtl_meaning::eval;

/// The value of an expression over these cells and the frozen bytes. `None` exactly where a cell that it mentions is
/// unknown and where it traps: a load of a byte that is not frozen, a misaligned load, a division by 0.
pub fn known_value(
    machine: &Machine,
    frozen: &Frozen,
    cells: &Cells,
    known: &[bool],
    e: &Expr,
) -> Option<u64>
    requires sound { IsSoundExpr machine.now.widths e.now }
    requires fit { Fit machine.now cells.now.values }
    ensures { result ≡ known_value machine.now frozen.now cells.now.values known.now (term_of e.now) }
{
    if !is_known(known, e) {
        return None;
    }
    eval(machine, e, cells, &FrozenMemory { frozen }).ok()
}

/// Whether each cell that an expression mentions is known.
#[tactic(auto, using(rtl_core::proofs::TermLaws::term_laws))]
fn is_known(known: &[bool], e: &Expr) -> bool
    ensures { result ≡ is_known known.now (term_of e.now) }
{
    match e {
        Expr::Const(_, _) => true,
        Expr::Cell(c) => flag(known, *c),
        Expr::Load(_, a)
        | Expr::Un(_, a)
        | Expr::Slice(a, _, _)
        | Expr::Zext(_, a)
        | Expr::Sext(_, a) => is_known(known, a.get()),
        Expr::Bin(_, a, b) => is_known(known, a.get()) && is_known(known, b.get()),
        Expr::If(c, a, b) => {
            is_known(known, c.get()) && is_known(known, a.get()) && is_known(known, b.get())
        }
    }
}

/// The flag of a cell; that of a cell past the end is not set.
pub fn flag(flags: &[bool], cell: u8) -> bool
    ensures { result ≡ slice_index_or flags.now cell false }
{
    let at = usize::from(cell);
    at < flags.len() && flags[at]
}
