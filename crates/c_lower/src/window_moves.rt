//! The statements of a window move.
ghost use Rattle.std.specs.Prelude.{◌≡◌, ◌+◌, ◌≤◌, ◌++◌, [], ◌∷◌, Some, OnOk, IfOk};
ghost use Rattle.rtl_core.specs.Windows.{most_windows};
ghost use Rattle.c_lower.specs.Lowered.{word_place, pushed, popped, moved, cleared, save_code, restore_code};
ghost use Rattle.c_lower.specs.Lowerable.{IsByteShape};

use crate::formulas::binary;
use c_lang::{CExpr, COp, Stmt, Var};
use rtl_core::WinShape;
use sqlite_items::Items;
use std::alloc::{AllocError, Global};

/// How many windows can be saved.
const MOST_WINDOWS: u64 = 65536;

/// Pushes a save: the local and in cells are kept, the out cells become the in cells, and the others 0.
#[tactic(auto, using(crate::proofs::MoveLaws::saved))]
pub(crate) fn push_save(alloc: Global, out: &mut Items<Stmt>, w: WinShape) -> Result<(), AllocError>
    requires { IsByteShape w }
    ensures { OnOk result (out.new ≡ out.old ++ save_code (Some w) []) }
{
    stop_at_count(alloc, out, MOST_WINDOWS, 6)?;
    push_words(alloc, out, 0, w.local_first, w.count)?;
    push_words(alloc, out, w.count, w.in_first, w.count)?;
    change_count(alloc, out, COp::Add)?;
    move_cells(out, w.out_first, w.in_first, w.count)?;
    clear_cells(out, w.local_first, w.count)?;
    clear_cells(out, w.out_first, w.count)
}

/// Pushes a restore: the in cells become the out cells, and the kept local and in cells come back.
#[tactic(auto, using(crate::proofs::MoveLaws::restored))]
pub(crate) fn push_restore(
    alloc: Global,
    out: &mut Items<Stmt>,
    w: WinShape,
) -> Result<(), AllocError>
    requires { IsByteShape w }
    ensures { OnOk result (out.new ≡ out.old ++ restore_code (Some w) []) }
{
    stop_at_count(alloc, out, 0, 7)?;
    change_count(alloc, out, COp::Sub)?;
    move_cells(out, w.in_first, w.out_first, w.count)?;
    pop_words(alloc, out, 0, w.local_first, w.count)?;
    pop_words(alloc, out, w.count, w.in_first, w.count)
}

/// Pushes a stop of this number for where so many windows are saved.
fn stop_at_count(
    alloc: Global,
    out: &mut Items<Stmt>,
    windows: u64,
    number: u64,
) -> Result<(), AllocError>
    ensures { OnOk result (out.new ≡ out.old ++ Stmt.If (CExpr.Bin COp.Eq (CExpr.Of Var.Wn) (CExpr.Num windows)) (Stmt.Stop number (CExpr.Num 0) ∷ []) ∷ []) }
{
    let mut stop = Items::new(alloc);
    stop.push(Stmt::Stop(number, CExpr::Num(0)))?;
    let test = binary(alloc, COp::Eq, CExpr::Of(Var::Wn), CExpr::Num(windows))?;
    out.push(Stmt::If(test, stop))
}

/// Pushes the count of saved windows, one more or one less.
fn change_count(alloc: Global, out: &mut Items<Stmt>, op: COp) -> Result<(), AllocError>
    ensures { OnOk result (out.new ≡ out.old ++ Stmt.Set Var.Wn (CExpr.Bin op (CExpr.Of Var.Wn) (CExpr.Num 1)) ∷ []) }
{
    let count = binary(alloc, op, CExpr::Of(Var::Wn), CExpr::Num(1))?;
    out.push(Stmt::Set(Var::Wn, count))
}

fn place_of_word(alloc: Global, i: u8) -> Result<CExpr, AllocError>
    ensures { IfOk result (λ e. e ≡ word_place i) }
{
    let window = binary(alloc, COp::Mul, CExpr::Of(Var::Wn), CExpr::Num(16))?;
    binary(alloc, COp::Add, window, CExpr::Num(u64::from(i)))
}

/// Pushes `n` cells from `first` on into the words from `i` on.
#[tactic(auto, using(crate::proofs::MoveLaws::pushed_more))]
fn push_words(
    alloc: Global,
    out: &mut Items<Stmt>,
    i: u8,
    first: u8,
    n: u8,
) -> Result<(), AllocError>
    requires { (i + n ≤ 16) × (first + n ≤ 256) }
    ensures { OnOk result (out.new ≡ out.old ++ pushed i first n []) }
{
    for j in 0..n {
        let place = place_of_word(alloc, i + j)?;
        out.push(Stmt::PutW(place, CExpr::Of(Var::Cell(first + j))))?;
    }
    Ok(())
}

/// Pushes the words from `i` on into `n` cells from `first` on.
#[tactic(auto, using(crate::proofs::MoveLaws::popped_more))]
fn pop_words(
    alloc: Global,
    out: &mut Items<Stmt>,
    i: u8,
    first: u8,
    n: u8,
) -> Result<(), AllocError>
    requires { (i + n ≤ 16) × (first + n ≤ 256) }
    ensures { OnOk result (out.new ≡ out.old ++ popped i first n []) }
{
    for j in 0..n {
        let place = place_of_word(alloc, i + j)?;
        out.push(Stmt::TakeW(Var::Cell(first + j), place))?;
    }
    Ok(())
}

/// Pushes `n` cells into as many others.
#[tactic(auto, using(crate::proofs::MoveLaws::moved_more))]
fn move_cells(out: &mut Items<Stmt>, from: u8, to: u8, n: u8) -> Result<(), AllocError>
    requires { (from + n ≤ 256) × (to + n ≤ 256) }
    ensures { OnOk result (out.new ≡ out.old ++ moved from to n []) }
{
    for j in 0..n {
        out.push(Stmt::Set(Var::Cell(to + j), CExpr::Of(Var::Cell(from + j))))?;
    }
    Ok(())
}

/// Pushes 0 into `n` cells.
#[tactic(auto, using(crate::proofs::MoveLaws::cleared_more))]
fn clear_cells(out: &mut Items<Stmt>, first: u8, n: u8) -> Result<(), AllocError>
    requires { first + n ≤ 256 }
    ensures { OnOk result (out.new ≡ out.old ++ cleared first n []) }
{
    for j in 0..n {
        out.push(Stmt::Set(Var::Cell(first + j), CExpr::Num(0)))?;
    }
    Ok(())
}
