//! What typed constructors stand for.
ghost use Rattle.std.specs.Prelude.{◌≡◌, IfOk};
ghost use Rattle.ssl_rules.specs.Formulas.{leaf_place};
ghost use Rattle.ssl_rules.specs.Templates.{formula_place, formula_template};

use crate::values::value_of;
use rtl_core::{TPlace, Template};
use ssl_rules::{Formula, Leaf};
use std::alloc::{AllocError, Global};

/// What a typed constructor stands for: a place where its expression is one, else a value. The error is want of
/// memory.
pub fn operand_template(alloc: Global, formula: &Formula) -> Result<Template, AllocError>
    ensures { IfOk result (λ t. t ≡ formula_template formula.now) }
{
    match formula_place(alloc, formula)? {
        Some(place) => Ok(Template::Place(place)),
        None => Ok(Template::Value(value_of(alloc, formula)?)),
    }
}

/// An expanded expression as a place; none where it is a value.
#[tactic(auto, using(crate::proofs::ValueLaws::out_laws))]
fn formula_place(alloc: Global, formula: &Formula) -> Result<Option<TPlace>, AllocError>
    ensures { IfOk result (λ p. p ≡ formula_place formula.now) }
{
    match formula {
        Formula::Leaf(leaf) => Ok(leaf_place(*leaf)),
        Formula::Load(n, a) => Ok(Some(TPlace::Memory(*n, value_of(alloc, a.get())?))),
        _ => Ok(None),
    }
}

/// A part without parts as a place.
fn leaf_place(leaf: Leaf) -> Option<TPlace>
    ensures { result ≡ leaf_place leaf }
{
    match leaf {
        Leaf::Cell(cell) => Some(TPlace::Cell(cell)),
        Leaf::Part(part) => Some(TPlace::Slice(part.cell, part.lo, part.hi)),
        Leaf::Typed(operand, stands) => {
            if stands.place {
                Some(TPlace::Operand(operand))
            } else {
                None
            }
        }
        Leaf::FileAt(file, operand) => Some(TPlace::FileAt(file, operand)),
        _ => None,
    }
}
