//! Whether names are known.
ghost use Rattle.std.specs.Prelude.{◌≡◌};
ghost use Rattle.std.specs.List.{list_all};
ghost use Rattle.ssl_rules.specs.LineScope.{scope};
ghost use Rattle.ssl_rules.specs.Known.{is_known_expr, is_known_place, is_known_act, is_known_guard, is_known_transfer, is_known_part};

use crate::known_names::KnownNames;
use ssl_rules::Tables;
use ssl_syntax::{SslAct, SslExpr, SslPlace, SslTransfer, ViewPart};

/// Whether every name of an expression is known.
#[cycle(known)]
#[tactic(auto, using(ssl_syntax::proofs::FoldLaws::fold_laws))]
pub fn is_known_expr(names: &KnownNames, e: &SslExpr) -> bool
    ensures { result ≡ is_known_expr names.now.surplus.now (scope names.now.line) e.now }
{
    match e {
        SslExpr::Number(_, _) => true,
        SslExpr::Named(name) => names.is_lone(name.as_slice()),
        SslExpr::At(name, _) => names.is_file(name.as_slice()),
        SslExpr::AtOp(name, op) => {
            names.is_file(name.as_slice()) && names.is_field(op.as_slice())
        }
        SslExpr::Load(_, a) => is_known_expr(names, a.get()),
        SslExpr::Not(a) => is_known_expr(names, a.get()),
        SslExpr::Neg(a) => is_known_expr(names, a.get()),
        SslExpr::Bin(_, a, b) => is_known_expr(names, a.get()) && is_known_expr(names, b.get()),
        SslExpr::Bits(a, _, _) => is_known_expr(names, a.get()),
        SslExpr::Zext(_, a) => is_known_expr(names, a.get()),
        SslExpr::Sext(_, a) => is_known_expr(names, a.get()),
        SslExpr::If(c, a, b) => {
            is_known_expr(names, c.get())
                && is_known_expr(names, a.get())
                && is_known_expr(names, b.get())
        }
        SslExpr::Call(name, args) => {
            names.is_function(name.as_slice()) && are_known(names, args.as_slice())
        }
        SslExpr::Pc => true,
        SslExpr::Next => true,
    }
}

/// Whether every name of some expressions is known.
#[cycle(known)]
fn are_known(names: &KnownNames, es: &[SslExpr]) -> bool
    ensures { result ≡ list_all (is_known_expr names.now.surplus.now (scope names.now.line)) es.now }
{
    for e in es {
        if !is_known_expr(names, e) {
            return false;
        }
    }
    true
}

/// Whether the names of what is assigned are known.
pub fn is_known_place(names: &KnownNames, place: &SslPlace) -> bool
    ensures { result ≡ is_known_place names.now.surplus.now (scope names.now.line) place.now }
{
    match place {
        SslPlace::Named(name) => names.is_lone(name.as_slice()),
        SslPlace::At(name, _) => names.is_file(name.as_slice()),
        SslPlace::AtOp(name, op) => {
            names.is_file(name.as_slice()) && names.is_field(op.as_slice())
        }
        SslPlace::Bits(cell, _, _) => names.is_cell(cell),
        SslPlace::Load(_, address) => is_known_expr(names, address),
    }
}

/// Whether the names of an act are known; a window move asks for windows.
fn is_known_act(names: &KnownNames, windows: bool, act: &SslAct) -> bool
    ensures { result ≡ is_known_act names.now.surplus.now (scope names.now.line) windows act.now }
{
    match act {
        SslAct::Assign(_, to, value) => is_known_place(names, to) && is_known_expr(names, value),
        SslAct::Jump(target) => is_known_expr(names, target),
        SslAct::Annul => true,
        SslAct::Trap(number) => is_known_expr(names, number),
        SslAct::Service => true,
        SslAct::WinSave => windows,
        SslAct::WinRestore => windows,
    }
}

/// Whether the names of a guard are known, where there is one.
fn is_known_guard(names: &KnownNames, guard: &Option<SslExpr>) -> bool
    ensures { result ≡ is_known_guard names.now.surplus.now (scope names.now.line) guard.now }
{
    match guard {
        None => true,
        Some(guard) => is_known_expr(names, guard),
    }
}

/// Whether the names of a transfer are known.
pub fn is_known_transfer(names: &KnownNames, windows: bool, transfer: &SslTransfer) -> bool
    ensures { result ≡ is_known_transfer names.now.surplus.now (scope names.now.line) windows transfer.now }
{
    is_known_guard(names, &transfer.guard) && is_known_act(names, windows, &transfer.act)
}

/// Whether the cell of a view's part is known.
pub fn is_known_part(tables: &Tables, part: &ViewPart) -> bool
    ensures { result ≡ is_known_part tables.now part.now }
{
    match part {
        ViewPart::Whole(cell) => tables.is_cell(cell),
        ViewPart::Bits(cell, _, _) => tables.is_cell(cell),
    }
}
