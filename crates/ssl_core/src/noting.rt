//! What the constructors of a type stand for, noted once each has a template: each type is gone over once.
ghost use Rattle.std.specs.Prelude.{◌≡◌, IfSome};
ghost use Rattle.rtl_core.specs.declared.encodings.Encodings.{Encodings};
ghost use Rattle.ssl_rules.specs.Given.{stands_for};
ghost use Rattle.ssl_core.specs.State.{shown, Holds};
ghost use Rattle.ssl_core.specs.Stood.{AreStood, known_stands};

use crate::constructors::constructors_of;
use crate::given::Given;
use crate::stands::{are_made, stands_for};
use rtl_core::{Encodings, OperandKind};
use ssl_rules::Stands;

/// What is noted of a type.
fn noted(given: &Given, kind: usize) -> Option<Stands>
    ensures { (enc : Encodings) → Holds enc given.now → IfSome result (λ s. AreStood enc (shown given.now) kind s) }
{
    match given.stands.get(kind) {
        Some(stands) => *stands,
        None => None,
    }
}

/// What the constructors of a type stand for, where each has a template.
pub fn known_stands(enc: &Encodings, given: &Given, kind: usize) -> Option<Stands>
    requires { Holds enc.now given.now }
    ensures { result ≡ known_stands enc.now (shown given.now) kind }
{
    if let Some(stands) = noted(given, kind) {
        return Some(stands);
    }
    if !are_made(given, constructors_of(enc, kind)) {
        return None;
    }
    Some(stands_for(enc, given, kind))
}

/// What the constructors of a type stand for.
pub fn stands_of(enc: &Encodings, given: &Given, kind: usize) -> Stands
    requires { Holds enc.now given.now }
    ensures { result ≡ stands_for (shown given.now) enc.now kind }
{
    match noted(given, kind) {
        Some(stands) => stands,
        None => stands_for(enc, given, kind),
    }
}

/// Notes what the constructors of a type stand for.
fn note_type(enc: &Encodings, given: &mut Given, kind: usize)
    requires { Holds enc.now given.old }
    ensures same { shown given.new ≡ shown given.old }
    ensures holds { Holds enc.now given.new }
{
    if kind >= given.stands.len() || noted(given, kind).is_some() {
        return;
    }
    if let Some(stands) = known_stands(enc, given, kind) {
        given.stands.set(kind, Some(stands));
    }
}

/// Notes what the types of operands stand for.
pub fn note_types(enc: &Encodings, given: &mut Given, kinds: &[OperandKind])
    requires { Holds enc.now given.old }
    ensures same { shown given.new ≡ shown given.old }
    ensures holds { Holds enc.now given.new }
{
    for kind in kinds {
        if let OperandKind::Typed(kind) = kind {
            note_type(enc, given, usize::from(*kind));
        }
    }
}
