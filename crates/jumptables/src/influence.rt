//! Which cells the number in one cell reaches, and whether it decides what is done.
ghost use Rattle.std.specs.Prelude.{◌≡◌, false, length};
ghost use Rattle.rtl_core.specs.Terms.{term_of};
ghost use Rattle.jumptables.specs.Influence.{touches, touches_guard, reached, spreads_act, decides_act, spreads, decides};

use crate::mentions::set;
use crate::values::flag;
use rtl_core::{Act, Expr, Transfer};
use sqlite_items::Items;

/// Whether a cell with a flag decides one of an instruction's jumps, annuls, services or moves of the window. Where
/// none does, the cells that its assignments reach get a flag.
pub fn spread(flags: &mut Items<bool>, transfers: &[Transfer]) -> bool
    ensures decides { result ≡ decides transfers.now flags.old }
    ensures spreads { result ≡ false → flags.new ≡ spreads transfers.now flags.old }
    ensures count { length flags.new ≡ length flags.old }
{
    for transfer in transfers {
        if decides_act(flags.as_slice(), &transfer.guard, &transfer.act) {
            return true;
        }
        spread_act(flags, &transfer.guard, &transfer.act);
    }
    false
}

fn decides_act(flags: &[bool], guard: &Option<Expr>, act: &Act) -> bool
    ensures { result ≡ decides_act guard.now act.now flags.now }
{
    match act {
        Act::SetCell(_, _) | Act::SetSlice(_, _, _, _) | Act::Store(_, _, _) | Act::Trap(_) => {
            false
        }
        Act::Jump(_) | Act::Annul | Act::Service | Act::WinSave | Act::WinRestore => {
            touches_guard(flags, guard)
        }
    }
}

fn spread_act(flags: &mut Items<bool>, guard: &Option<Expr>, act: &Act)
    ensures { flags.new ≡ spreads_act guard.now act.now flags.old }
{
    match act {
        Act::SetCell(cell, e) | Act::SetSlice(cell, _, _, e) => reach(flags, guard, e, *cell),
        Act::Store(_, _, _)
        | Act::Jump(_)
        | Act::Annul
        | Act::Trap(_)
        | Act::Service
        | Act::WinSave
        | Act::WinRestore => {}
    }
}

/// A cell that is assigned gets a flag, where its guard or its value mentions a cell that has one.
fn reach(flags: &mut Items<bool>, guard: &Option<Expr>, e: &Expr, cell: u8)
    ensures { flags.new ≡ reached flags.old guard.now e.now cell }
{
    if touches_guard(flags.as_slice(), guard) || touches(flags.as_slice(), e) {
        set(flags, cell);
    }
}

fn touches_guard(flags: &[bool], guard: &Option<Expr>) -> bool
    ensures { result ≡ touches_guard flags.now guard.now }
{
    match guard {
        None => false,
        Some(e) => touches(flags, e),
    }
}

/// Whether an expression mentions a cell that has a flag.
#[tactic(auto, using(rtl_core::proofs::TermLaws::term_laws))]
fn touches(flags: &[bool], e: &Expr) -> bool
    ensures { result ≡ touches flags.now (term_of e.now) }
{
    match e {
        Expr::Const(_, _) => false,
        Expr::Cell(c) => flag(flags, *c),
        Expr::Load(_, a)
        | Expr::Un(_, a)
        | Expr::Slice(a, _, _)
        | Expr::Zext(_, a)
        | Expr::Sext(_, a) => touches(flags, a.get()),
        Expr::Bin(_, a, b) => touches(flags, a.get()) || touches(flags, b.get()),
        Expr::If(c, a, b) => {
            touches(flags, c.get()) || touches(flags, a.get()) || touches(flags, b.get())
        }
    }
}
