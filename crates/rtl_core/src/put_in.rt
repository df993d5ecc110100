//! Templates with the operands and addresses of an instruction put in.
ghost use Rattle.std.specs.Prelude.{◌≡◌, IfOk, map, option_map};
ghost use Rattle.rtl_core.specs.Grounding.{ground_expr, ground_place, ground_act, ground_transfer, assigning, template_argument, template_transfers};
ghost use Rattle.rtl_core.specs.GroundData.{place_of, argument_of, site_of};

use crate::expr::Expr;
use crate::machine::Machine;
use crate::site::{Argument, Place, Site, value_at};
use crate::template::{TAct, TExpr, TPlace, TTransfer, Template};
use crate::transfer::{Act, Transfer};
use crate::width::Width;
use sqlite_items::{Boxed, Items};
use std::alloc::{AllocError, Global};

/// An expression of a template, put in.
#[cycle(put)]
#[tactic(auto, using(crate::proofs::GroundLaws::ground_laws))]
fn put_expr(alloc: Global, machine: &Machine, site: &Site, e: &TExpr) -> Result<Expr, AllocError>
    ensures { IfOk result (λ r. r ≡ ground_expr machine.now (site_of site.now) e.now) }
{
    match e {
        TExpr::Const(w, n) => Ok(Expr::Const(*w, *n)),
        TExpr::Cell(c) => Ok(Expr::Cell(*c)),
        TExpr::Load(n, a) => Ok(Expr::Load(*n, put_boxed(alloc, machine, site, a)?)),
        TExpr::Un(op, a) => Ok(Expr::Un(*op, put_boxed(alloc, machine, site, a)?)),
        TExpr::Bin(op, a, b) => {
            let left = put_boxed(alloc, machine, site, a)?;
            Ok(Expr::Bin(*op, left, put_boxed(alloc, machine, site, b)?))
        }
        TExpr::Slice(a, lo, hi) => Ok(Expr::Slice(put_boxed(alloc, machine, site, a)?, *lo, *hi)),
        TExpr::Zext(w, a) => Ok(Expr::Zext(*w, put_boxed(alloc, machine, site, a)?)),
        TExpr::Sext(w, a) => Ok(Expr::Sext(*w, put_boxed(alloc, machine, site, a)?)),
        TExpr::If(c, a, b) => {
            let condition = put_boxed(alloc, machine, site, c)?;
            let first = put_boxed(alloc, machine, site, a)?;
            Ok(Expr::If(condition, first, put_boxed(alloc, machine, site, b)?))
        }
        TExpr::Operand(k) => site.value(alloc, *k),
        TExpr::FileAt(f, k) => value_at(alloc, site.file_place(machine, *f, *k)),
        TExpr::Pc => Ok(Expr::Const(Width::WORD, site.pc as u64)),
        TExpr::Next => Ok(Expr::Const(Width::WORD, site.next as u64)),
    }
}

#[cycle(put)]
fn put_boxed(
    alloc: Global,
    machine: &Machine,
    site: &Site,
    e: &Boxed<TExpr>,
) -> Result<Boxed<Expr>, AllocError>
    ensures { IfOk result (λ r. r ≡ ground_expr machine.now (site_of site.now) e.now) }
{
    Boxed::new(alloc, put_expr(alloc, machine, site, e.get())?)
}

/// A place of a template, put in.
fn put_place(
    alloc: Global,
    machine: &Machine,
    site: &Site,
    place: &TPlace,
) -> Result<Place, AllocError>
    ensures { IfOk result (λ p. place_of p ≡ ground_place machine.now (site_of site.now) place.now) }
{
    match place {
        TPlace::Cell(c) => Ok(Place::Whole(*c)),
        TPlace::Slice(c, lo, hi) => Ok(Place::Bits(*c, *lo, *hi)),
        TPlace::Memory(n, a) => Ok(Place::Bytes(*n, put_expr(alloc, machine, site, a)?)),
        TPlace::Operand(k) => site.place(alloc, *k),
        TPlace::FileAt(f, k) => Ok(site.file_place(machine, *f, *k)),
    }
}

/// A value assigned to a place.
fn assign(place: Place, e: Expr) -> Act
    ensures { result ≡ assigning (place_of place) e }
{
    match place {
        Place::Whole(c) => Act::SetCell(c, e),
        Place::Bits(c, lo, hi) => Act::SetSlice(c, lo, hi, e),
        Place::Bytes(n, a) => Act::Store(n, a, e),
    }
}

/// An act of a template, put in.
fn put_act(alloc: Global, machine: &Machine, site: &Site, act: &TAct) -> Result<Act, AllocError>
    ensures { IfOk result (λ a. a ≡ ground_act machine.now (site_of site.now) act.now) }
{
    match act {
        TAct::Assign(p, e) => {
            let place = put_place(alloc, machine, site, p)?;
            Ok(assign(place, put_expr(alloc, machine, site, e)?))
        }
        TAct::Jump(e) => Ok(Act::Jump(put_expr(alloc, machine, site, e)?)),
        TAct::Annul => Ok(Act::Annul),
        TAct::Trap(e) => Ok(Act::Trap(put_expr(alloc, machine, site, e)?)),
        TAct::Service => Ok(Act::Service),
        TAct::WinSave => Ok(Act::WinSave),
        TAct::WinRestore => Ok(Act::WinRestore),
    }
}

/// The guard of a transfer, put in.
fn put_guard(
    alloc: Global,
    machine: &Machine,
    site: &Site,
    guard: &Option<TExpr>,
) -> Result<Option<Expr>, AllocError>
    ensures { IfOk result (λ g. g ≡ option_map (ground_expr machine.now (site_of site.now)) guard.now) }
{
    match guard {
        None => Ok(None),
        Some(e) => Ok(Some(put_expr(alloc, machine, site, e)?)),
    }
}

/// The transfers of a template, put in.
fn put_transfers(
    alloc: Global,
    machine: &Machine,
    site: &Site,
    transfers: &[TTransfer],
) -> Result<Items<Transfer>, AllocError>
    ensures { IfOk result (λ ts. ts ≡ map (ground_transfer machine.now (site_of site.now)) transfers.now) }
{
    let mut out = Items::new(alloc);
    for transfer in transfers {
        let guard = put_guard(alloc, machine, site, &transfer.guard)?;
        let act = put_act(alloc, machine, site, &transfer.act)?;
        out.push(Transfer { guard, act })?;
    }
    Ok(out)
}

/// What a template stands for as an operand; transfers are none.
pub fn argument_from(
    alloc: Global,
    machine: &Machine,
    site: &Site,
    template: &Template,
) -> Result<Option<Argument>, AllocError>
    ensures { IfOk result (λ r. option_map argument_of r ≡ template_argument machine.now (site_of site.now) template.now) }
{
    match template {
        Template::Value(e) => Ok(Some(Argument::Value(put_expr(alloc, machine, site, e)?))),
        Template::Place(p) => Ok(Some(Argument::At(put_place(alloc, machine, site, p)?))),
        Template::Acts(_) => Ok(None),
    }
}

/// The transfers that a template stands for; a value or a place has none.
pub fn transfers_from(
    alloc: Global,
    machine: &Machine,
    site: &Site,
    template: &Template,
) -> Result<Option<Items<Transfer>>, AllocError>
    ensures { IfOk result (λ r. r ≡ template_transfers machine.now (site_of site.now) template.now) }
{
    match template {
        Template::Acts(ts) => Ok(Some(put_transfers(alloc, machine, site, ts.as_slice())?)),
        _ => Ok(None),
    }
}
