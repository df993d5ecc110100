//! Names that are given twice.
ghost use Rattle.std.specs.Prelude.{◌≡◌, ◌||◌, ◌∷◌, [], IfOk, map, nat_eq};
ghost use Rattle.std.specs.List.{list_any};
ghost use Rattle.std.specs.Cmp.Lexicographic.{pointwise};
ghost use Rattle.sled_rules.specs.Meanings.{is_taken};
ghost use Rattle.sled_rules.specs.Faults.{names_given, some_listed_twice, some_taken};

use crate::meaning::Meaning;
use crate::names::Names;
use crate::operands::is_listed;
use crate::unknown::is_type;
use sled_syntax::FieldDef;
use sqlite_items::Items;
use std::alloc::{AllocError, Global};

/// The name is taken, or one that was seen before.
#[tactic(auto, using(crate::proofs::TakenLaws::given_by_names))]
fn is_repeated(names: &Names, seen: &Names, name: &[u8]) -> bool
    ensures { result ≡ (is_taken names.now name.now || list_any (pointwise nat_eq name.now) (map (λ e. e.0) seen.now)) }
{
    names.is_taken(name) || seen.is_given(name)
}

/// A token's name or the name of one of its fields is taken, or stands on the line before.
pub fn are_taken(
    alloc: Global,
    names: &Names,
    token: &[u8],
    fields: &[FieldDef],
) -> Result<bool, AllocError>
    ensures { IfOk result (λ taken. taken ≡ some_taken names.now [] (token.now ∷ map (λ f. f.name) fields.now)) }
{
    if names.is_taken(token) {
        return Ok(true);
    }
    let mut seen = Names::new(alloc);
    seen.give(token, Meaning::Token)?;
    for field in fields {
        let name = field.name.as_slice();
        if is_repeated(names, &seen, name) {
            return Ok(true);
        }
        seen.give(name, Meaning::Token)?;
    }
    Ok(false)
}

/// The name of a constructor or, where it is the first of its type, that of the type is taken, or both are one.
pub fn is_constructor_taken(names: &Names, name: &[u8], type_name: &[u8]) -> bool
    ensures { result ≡ some_taken names.now [] (names_given names.now name.now type_name.now) }
{
    if is_type(names, type_name) {
        return names.is_taken(name);
    }
    names.is_taken(type_name) || names.is_taken(name) || name == type_name
}

/// An operand stands in the list twice.
pub fn is_listed_twice(ops: &[Items<u8>]) -> bool
    ensures { result ≡ some_listed_twice ops.now }
{
    let mut rest = ops;
    while let Some((op, more)) = rest.split_first() {
        if is_listed(more, op.as_slice()) {
            return true;
        }
        rest = more;
    }
    false
}
