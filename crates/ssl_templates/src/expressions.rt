//! Expressions with names looked up and calls expanded.
ghost use Rattle.std.specs.Prelude.{◌≡◌, IfOk, true, map, is_some, option_and_then};
ghost use Rattle.std.specs.List.{list_all};
ghost use Rattle.ssl_rules.specs.LineScope.{scope};
ghost use Rattle.ssl_rules.specs.Widths.{measured, is_width, slice_width};
ghost use Rattle.ssl_rules.specs.Formulas.{expanded, put_in};
ghost use Rattle.ssl_templates.specs.Ranged.{is_ranged};
ghost use Rattle.ssl_templates.specs.Params.{has_param};

use crate::copies::{copy_with, has_param};
use crate::names::{chosen_formula, lone_formula, nothing, part_formula};
use rtl_core::{Un, Width};
use sqlite_items::{Boxed, Items};
use ssl_checks::{is_width, measure};
use ssl_rules::{Formula, Function, Leaf, LineNames, operator};
use ssl_syntax::SslExpr;
use std::alloc::{AllocError, Global};

/// An expression with names looked up and calls expanded. The error is want of memory.
#[tactic(auto, unfolding(crate::specs::Ranged::is_ranged))]
pub fn expand(alloc: Global, names: &LineNames, e: &SslExpr) -> Result<Formula, AllocError>
    requires ranged { is_some (measured (scope names.now) e.now).width ≡ true }
    ensures { IfOk result (λ f. f ≡ expanded (scope names.now) e.now) }
{
    expansion(alloc, names, e)
}

/// The same, exact where the numbers are in range.
#[cycle(expansion)]
#[tactic(auto, using(ssl_syntax::proofs::FoldLaws::fold_laws, crate::proofs::ExpandLaws::expand_laws), unfolding(ssl_rules::specs::Formulas::expanded))]
fn expansion(alloc: Global, names: &LineNames, e: &SslExpr) -> Result<Formula, AllocError>
    ensures { IfOk result (λ f. is_ranged (scope names.now) e.now ≡ true → f ≡ expanded (scope names.now) e.now) }
{
    match e {
        SslExpr::Number(value, width) => {
            Ok(Formula::Leaf(Leaf::Const(width_of(*width), *value)))
        }
        SslExpr::Named(name) => Ok(lone_formula(names.lone(name.as_slice()))),
        SslExpr::At(name, index) => {
            Ok(part_formula(names.tables, names.tables.part(name.as_slice(), *index)))
        }
        SslExpr::AtOp(name, op) => Ok(chosen_formula(names, name.as_slice(), op.as_slice())),
        SslExpr::Load(bits, a) => Ok(Formula::Load(*bits / 8, boxed(alloc, names, a)?)),
        SslExpr::Not(a) => Ok(Formula::Un(Un::Not, boxed(alloc, names, a)?)),
        SslExpr::Neg(a) => Ok(Formula::Un(Un::Neg, boxed(alloc, names, a)?)),
        SslExpr::Bin(op, a, b) => {
            let left = boxed(alloc, names, a)?;
            Ok(Formula::Bin(operator(*op), left, boxed(alloc, names, b)?))
        }
        SslExpr::Bits(a, lo, hi) => {
            let ends = ends_of(names, a.get(), *lo, *hi);
            Ok(Formula::Slice(boxed(alloc, names, a)?, ends.0, ends.1))
        }
        SslExpr::Zext(width, a) => Ok(Formula::Zext(width_of(*width), boxed(alloc, names, a)?)),
        SslExpr::Sext(width, a) => Ok(Formula::Sext(width_of(*width), boxed(alloc, names, a)?)),
        SslExpr::If(c, a, b) => {
            let condition = boxed(alloc, names, c)?;
            let first = boxed(alloc, names, a)?;
            Ok(Formula::If(condition, first, boxed(alloc, names, b)?))
        }
        SslExpr::Call(name, args) => match names.tables.function(name.as_slice()) {
            None => Ok(nothing()),
            Some(function) => call(alloc, names, function, args.as_slice()),
        },
        SslExpr::Pc => Ok(Formula::Leaf(Leaf::Pc)),
        SslExpr::Next => Ok(Formula::Leaf(Leaf::Next)),
    }
}

#[cycle(expansion)]
fn boxed(alloc: Global, names: &LineNames, e: &Boxed<SslExpr>) -> Result<Boxed<Formula>, AllocError>
    ensures { IfOk result (λ f. is_ranged (scope names.now) e.now ≡ true → f ≡ expanded (scope names.now) e.now) }
{
    Boxed::new(alloc, expansion(alloc, names, e.get())?)
}

/// A call: the body of the function with the arguments put in.
#[cycle(expansion)]
fn call(
    alloc: Global,
    names: &LineNames,
    function: &Function,
    args: &[SslExpr],
) -> Result<Formula, AllocError>
    ensures { IfOk result (λ f. list_all (is_ranged (scope names.now)) args.now ≡ true → f ≡ put_in (map (expanded (scope names.now)) args.now) function.now.body) }
{
    let mut put = Items::new(alloc);
    for e in args {
        let place = put.len();
        put.push(argument(alloc, names, function, place, e)?)?;
    }
    copy_with(alloc, &function.body, put.as_slice())
}

/// An argument of a call, where the body has its parameter: what nothing uses is not expanded, as no nodes count it.
#[cycle(expansion)]
fn argument(
    alloc: Global,
    names: &LineNames,
    function: &Function,
    place: usize,
    e: &SslExpr,
) -> Result<Formula, AllocError>
    ensures { IfOk result (λ f. is_ranged (scope names.now) e.now ≡ true → has_param place function.now.body ≡ true → f ≡ expanded (scope names.now) e.now) }
{
    if has_param(&function.body, place) {
        expansion(alloc, names, e)
    } else {
        Ok(nothing())
    }
}

/// A width that is in range.
fn width_of(width: u64) -> Width
    ensures { is_width width ≡ true → result ≡ width }
{
    if !is_width(width) {
        return Width::FLAG;
    }
    match Width::new(width as u8) {
        Some(width) => width,
        None => Width::FLAG,
    }
}

/// The ends of bits of an expression, where it has them.
fn ends_of(names: &LineNames, e: &SslExpr, lo: u64, hi: u64) -> (u8, u8)
    ensures { is_some (option_and_then (slice_width lo hi) (measured (scope names.now) e.now).width) ≡ true → result ≡ (lo, hi) }
{
    match measure(names, e).width {
        Some(width) if lo <= hi && hi < u64::from(width) => (lo as u8, hi as u8),
        _ => (0, 0),
    }
}
