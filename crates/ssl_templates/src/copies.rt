//! Calls: the body of a function with arguments put in.
ghost use Rattle.std.specs.Prelude.{◌≡◌, IfOk, unwrap_or, slice_get};
ghost use Rattle.ssl_rules.specs.Formulas.{nothing, put_in};
ghost use Rattle.ssl_templates.specs.Params.{has_param};

use crate::names::nothing;
use sqlite_items::Boxed;
use ssl_rules::Formula;
use std::alloc::{AllocError, Global};

/// A body with arguments in place of the parameters. The error is want of memory.
#[cycle(putting)]
#[tactic(auto, using(crate::proofs::PutLemmas::put_laws))]
pub fn copy_with(alloc: Global, body: &Formula, args: &[Formula]) -> Result<Formula, AllocError>
    ensures { IfOk result (λ f. f ≡ put_in args.now body.now) }
{
    match body {
        Formula::Param(place) => argument(alloc, args, *place),
        Formula::Leaf(leaf) => Ok(Formula::Leaf(*leaf)),
        Formula::Load(n, a) => Ok(Formula::Load(*n, boxed_with(alloc, a, args)?)),
        Formula::Un(op, a) => Ok(Formula::Un(*op, boxed_with(alloc, a, args)?)),
        Formula::Bin(op, a, b) => {
            let left = boxed_with(alloc, a, args)?;
            Ok(Formula::Bin(*op, left, boxed_with(alloc, b, args)?))
        }
        Formula::Slice(a, lo, hi) => Ok(Formula::Slice(boxed_with(alloc, a, args)?, *lo, *hi)),
        Formula::Zext(w, a) => Ok(Formula::Zext(*w, boxed_with(alloc, a, args)?)),
        Formula::Sext(w, a) => Ok(Formula::Sext(*w, boxed_with(alloc, a, args)?)),
        Formula::If(c, a, b) => {
            let condition = boxed_with(alloc, c, args)?;
            let first = boxed_with(alloc, a, args)?;
            Ok(Formula::If(condition, first, boxed_with(alloc, b, args)?))
        }
    }
}

#[cycle(putting)]
fn boxed_with(
    alloc: Global,
    body: &Boxed<Formula>,
    args: &[Formula],
) -> Result<Boxed<Formula>, AllocError>
    ensures { IfOk result (λ f. f ≡ put_in args.now body.now) }
{
    Boxed::new(alloc, copy_with(alloc, body.get(), args)?)
}

/// Whether a body has the parameter at a place.
#[cycle(params)]
#[tactic(auto, using(crate::proofs::PutLemmas::param_laws))]
pub fn has_param(body: &Formula, place: usize) -> bool
    ensures { result ≡ has_param place body.now }
{
    match body {
        Formula::Param(other) => *other == place,
        Formula::Leaf(_) => false,
        Formula::Load(_, a) => has_param(a.get(), place),
        Formula::Un(_, a) => has_param(a.get(), place),
        Formula::Bin(_, a, b) => has_param(a.get(), place) || has_param(b.get(), place),
        Formula::Slice(a, _, _) => has_param(a.get(), place),
        Formula::Zext(_, a) => has_param(a.get(), place),
        Formula::Sext(_, a) => has_param(a.get(), place),
        Formula::If(c, a, b) => {
            has_param(c.get(), place) || has_param(a.get(), place) || has_param(b.get(), place)
        }
    }
}

/// The argument at a place.
fn argument(alloc: Global, args: &[Formula], place: usize) -> Result<Formula, AllocError>
    ensures { IfOk result (λ f. f ≡ unwrap_or (slice_get args.now place) nothing) }
{
    match args.get(place) {
        Some(arg) => copy_formula(alloc, arg),
        None => Ok(nothing()),
    }
}

/// The same expression once more.
#[cycle(copy)]
fn copy_formula(alloc: Global, f: &Formula) -> Result<Formula, AllocError>
    ensures { IfOk result (λ copy. copy ≡ f.now) }
{
    match f {
        Formula::Param(place) => Ok(Formula::Param(*place)),
        Formula::Leaf(leaf) => Ok(Formula::Leaf(*leaf)),
        Formula::Load(n, a) => Ok(Formula::Load(*n, copy_boxed(alloc, a)?)),
        Formula::Un(op, a) => Ok(Formula::Un(*op, copy_boxed(alloc, a)?)),
        Formula::Bin(op, a, b) => {
            let left = copy_boxed(alloc, a)?;
            Ok(Formula::Bin(*op, left, copy_boxed(alloc, b)?))
        }
        Formula::Slice(a, lo, hi) => Ok(Formula::Slice(copy_boxed(alloc, a)?, *lo, *hi)),
        Formula::Zext(w, a) => Ok(Formula::Zext(*w, copy_boxed(alloc, a)?)),
        Formula::Sext(w, a) => Ok(Formula::Sext(*w, copy_boxed(alloc, a)?)),
        Formula::If(c, a, b) => {
            let condition = copy_boxed(alloc, c)?;
            let first = copy_boxed(alloc, a)?;
            Ok(Formula::If(condition, first, copy_boxed(alloc, b)?))
        }
    }
}

#[cycle(copy)]
fn copy_boxed(alloc: Global, f: &Boxed<Formula>) -> Result<Boxed<Formula>, AllocError>
    ensures { IfOk result (λ copy. copy ≡ f.now) }
{
    Boxed::new(alloc, copy_formula(alloc, f.get())?)
}
