//! Whether calls have as many arguments as their functions have parameters.
ghost use Rattle.std.specs.Prelude.{◌≡◌, length};
ghost use Rattle.std.specs.List.{list_all};
ghost use Rattle.std.specs.Option.{option_copied};
ghost use Rattle.ssl_rules.specs.LineScope.{scope};
ghost use Rattle.ssl_rules.specs.Names.{function_named};
ghost use Rattle.ssl_rules.specs.Counted.{takes, is_counted_expr, is_counted_place, is_counted_act, is_counted_guard, is_counted_transfer};

use ssl_rules::{LineNames, Tables};
use ssl_syntax::{SslAct, SslExpr, SslPlace, SslTransfer};

/// Whether every call of an expression has the right number of arguments.
#[cycle(counted)]
#[tactic(auto, using(ssl_syntax::proofs::FoldLaws::fold_laws))]
pub fn is_counted_expr(names: &LineNames, e: &SslExpr) -> bool
    ensures { result ≡ is_counted_expr (scope names.now) e.now }
{
    match e {
        SslExpr::Load(_, a) => is_counted_expr(names, a.get()),
        SslExpr::Not(a) => is_counted_expr(names, a.get()),
        SslExpr::Neg(a) => is_counted_expr(names, a.get()),
        SslExpr::Bin(_, a, b) => {
            is_counted_expr(names, a.get()) && is_counted_expr(names, b.get())
        }
        SslExpr::Bits(a, _, _) => is_counted_expr(names, a.get()),
        SslExpr::Zext(_, a) => is_counted_expr(names, a.get()),
        SslExpr::Sext(_, a) => is_counted_expr(names, a.get()),
        SslExpr::If(c, a, b) => {
            is_counted_expr(names, c.get())
                && is_counted_expr(names, a.get())
                && is_counted_expr(names, b.get())
        }
        SslExpr::Call(name, args) => {
            takes(names.tables, name.as_slice(), args.len()) && are_counted(names, args.as_slice())
        }
        SslExpr::Number(_, _) => true,
        SslExpr::Named(_) => true,
        SslExpr::At(_, _) => true,
        SslExpr::AtOp(_, _) => true,
        SslExpr::Pc => true,
        SslExpr::Next => true,
    }
}

/// Whether every call of some expressions has the right number of arguments.
#[cycle(counted)]
fn are_counted(names: &LineNames, es: &[SslExpr]) -> bool
    ensures { result ≡ list_all (is_counted_expr (scope names.now)) es.now }
{
    for e in es {
        if !is_counted_expr(names, e) {
            return false;
        }
    }
    true
}

/// Whether the function of a name takes so many arguments.
fn takes(tables: &Tables, name: &[u8], count: usize) -> bool
    ensures { result ≡ takes (function_named tables.now name.now) count }
{
    match tables.function(name) {
        None => false,
        Some(function) => function.params.len() == count,
    }
}

/// The same of what is assigned.
fn is_counted_place(names: &LineNames, place: &SslPlace) -> bool
    ensures { result ≡ is_counted_place (scope names.now) place.now }
{
    match place {
        SslPlace::Load(_, address) => is_counted_expr(names, address),
        _ => true,
    }
}

/// The same of an act.
fn is_counted_act(names: &LineNames, act: &SslAct) -> bool
    ensures { result ≡ is_counted_act (scope names.now) act.now }
{
    match act {
        SslAct::Assign(_, to, value) => {
            is_counted_place(names, to) && is_counted_expr(names, value)
        }
        SslAct::Jump(target) => is_counted_expr(names, target),
        SslAct::Trap(number) => is_counted_expr(names, number),
        _ => true,
    }
}

/// The same of a guard, where there is one.
fn is_counted_guard(names: &LineNames, guard: &Option<SslExpr>) -> bool
    ensures { result ≡ is_counted_guard (scope names.now) guard.now }
{
    match guard {
        None => true,
        Some(guard) => is_counted_expr(names, guard),
    }
}

/// The same of a transfer.
pub fn is_counted_transfer(names: &LineNames, transfer: &SslTransfer) -> bool
    ensures { result ≡ is_counted_transfer (scope names.now) transfer.now }
{
    is_counted_guard(names, &transfer.guard) && is_counted_act(names, &transfer.act)
}
