//! The ends of blocks.
ghost use Rattle.std.specs.Prelude.{◌≡◌, ◌+◌, ◌≤◌, ◌++◌, [], IfOk, OnOk};
ghost use Rattle.points.specs.Courses.{point};
ghost use Rattle.c_control.specs.Pieces.{jumped_c, annuls_c};
ghost use Rattle.c_control.specs.Blocks.{case, go_on_at, never, switch_c, table_cases, back_cases, behind_call_by, ways, annul_ways, other_cases};

use crate::expressions::{ANNULS, JUMPED, flags};
use c_lang::{CExpr, Case, End, Var};
use points::{Mode, Point, sequential};
use sqlite_items::Items;
use std::alloc::{AllocError, Global};

/// The stop at a jump or an annul that stands where none may.
pub(crate) const COUPLE: u64 = 11;

/// Where an instruction leads, by whether it jumped and whether it annuls, as far as that can come out in two ways.
#[derive(Clone, Copy)]
pub(crate) struct Ways {
    pub(crate) jump: Mode,
    pub(crate) annul: Mode,
    pub(crate) stays: Point,
    pub(crate) jumps: Point,
    pub(crate) annuls: Point,
}

/// On at an address, with nothing to come.
pub(crate) fn go_on_at(pc: u32) -> End
    ensures { result ≡ go_on_at pc }
{
    End::Goto(sequential(pc))
}

/// An end that is never come to.
pub(crate) fn never() -> End
    ensures { result ≡ never }
{
    End::Finish(COUPLE, CExpr::Num(0))
}

/// A choice that has all cases that can come.
pub(crate) fn switch(e: CExpr, cases: Items<Case>) -> End
    ensures { result ≡ switch_c e cases }
{
    End::Switch(e, cases, COUPLE, CExpr::Num(0))
}

fn case(value: u64, to: Point) -> Case
    ensures { result ≡ case value to }
{
    Case { value, to }
}

/// Pushes the targets of a table, each a case of its own number and `more`.
pub(crate) fn push_table_cases(
    out: &mut Items<Case>,
    more: u64,
    targets: &[u32],
) -> Result<(), AllocError>
    requires { more ≤ 4 }
    ensures { OnOk result (out.new ≡ out.old ++ table_cases more targets.now) }
{
    for t in targets {
        out.push(case(more + u64::from(*t), sequential(*t)))?;
    }
    Ok(())
}

/// Pushes the return points of a return address, by what `uq_e` tells and `more`.
pub(crate) fn push_back_cases(
    out: &mut Items<Case>,
    more: u64,
    back: u32,
    far: Option<u32>,
) -> Result<(), AllocError>
    requires { more ≤ 4 }
    ensures { OnOk result (out.new ≡ out.old ++ back_cases more back far) }
{
    out.push(case(more, sequential(back)))?;
    match far {
        None => Ok(()),
        Some(far) => out.push(case(more + 1, sequential(far))),
    }
}

/// Behind a call: at its return address, or at its second return point where it has one.
pub(crate) fn behind_call(alloc: Global, back: u32, far: Option<u32>) -> Result<End, AllocError>
    ensures { IfOk result (λ e. e ≡ behind_call_by back far) }
{
    if far.is_none() {
        return Ok(go_on_at(back));
    }
    let mut cases = Items::new(alloc);
    push_back_cases(&mut cases, 0, back, far)?;
    Ok(switch(CExpr::Of(Var::ServeE), cases))
}

/// One of four ways; `both` where it jumped and annuls.
pub(crate) fn end_of_ways(alloc: Global, w: Ways, both: Point) -> Result<End, AllocError>
    ensures { IfOk result (λ e. e ≡ ways w.jump w.annul w.stays w.jumps w.annuls both) }
{
    match (w.jump, w.annul) {
        (Mode::Never, Mode::Never) => Ok(End::Goto(w.stays)),
        (Mode::Never, Mode::Maybe) => Ok(by_annul(w.annuls, w.stays)),
        (Mode::Never, Mode::Always) => Ok(End::Goto(w.annuls)),
        (Mode::Maybe, Mode::Never) => Ok(by_jump(w.jumps, w.stays)),
        (Mode::Maybe, Mode::Maybe) => four_ways(alloc, w, both),
        (Mode::Maybe, Mode::Always) => Ok(by_jump(both, w.annuls)),
        (Mode::Always, Mode::Never) => Ok(End::Goto(w.jumps)),
        (Mode::Always, Mode::Maybe) => Ok(by_annul(both, w.jumps)),
        (Mode::Always, Mode::Always) => Ok(End::Goto(both)),
    }
}

/// To one of two points, by whether the instruction jumped.
fn by_jump(jumps: Point, stays: Point) -> End
    ensures { result ≡ End.Branch jumped_c jumps stays }
{
    End::Branch(CExpr::Of(JUMPED), jumps, stays)
}

/// To one of two points, by whether the instruction annuls.
fn by_annul(annuls: Point, stays: Point) -> End
    ensures { result ≡ End.Branch annuls_c annuls stays }
{
    End::Branch(CExpr::Of(ANNULS), annuls, stays)
}

/// To one of four points, by both.
fn four_ways(alloc: Global, w: Ways, both: Point) -> Result<End, AllocError>
    ensures { IfOk result (λ e. e ≡ ways Mode.Maybe Mode.Maybe w.stays w.jumps w.annuls both) }
{
    let mut cases = Items::new(alloc);
    cases.push(case(0, w.stays))?;
    cases.push(case(1, w.jumps))?;
    cases.push(case(2, w.annuls))?;
    cases.push(case(3, both))?;
    Ok(switch(flags(alloc)?, cases))
}

/// One of two ways, by an annul alone.
pub(crate) fn end_by_annul(annul: Mode, stays: u32, annuls: u32) -> End
    ensures { result ≡ annul_ways annul stays annuls }
{
    match annul {
        Mode::Never => go_on_at(stays),
        Mode::Maybe => by_annul(sequential(annuls), sequential(stays)),
        Mode::Always => go_on_at(annuls),
    }
}

/// The cases of the ways that can come besides an arrival that is done at once.
pub(crate) fn other_cases(alloc: Global, w: Ways) -> Result<Items<Case>, AllocError>
    ensures { IfOk result (λ cases. cases ≡ other_cases w.jump w.annul w.stays w.jumps w.annuls []) }
{
    let mut cases = Items::new(alloc);
    match (w.jump, w.annul) {
        (Mode::Maybe, Mode::Never) => cases.push(case(0, w.stays))?,
        (Mode::Maybe, Mode::Maybe) => {
            cases.push(case(0, w.stays))?;
            cases.push(case(1, w.jumps))?;
            cases.push(case(2, w.annuls))?;
        }
        (Mode::Maybe, Mode::Always) => cases.push(case(2, w.annuls))?,
        (Mode::Always, Mode::Maybe) => cases.push(case(1, w.jumps))?,
        (Mode::Never, _) | (Mode::Always, _) => (),
    }
    Ok(cases)
}
