//! Whether what is assigned is a place.
ghost use Rattle.std.specs.Prelude.{◌≡◌};
ghost use Rattle.ssl_rules.specs.LineScope.{scope};
ghost use Rattle.ssl_rules.specs.Places.{is_assignable, assigns_place, act_assigns_place};

use ssl_rules::{LineNames, Lone, Own};
use ssl_syntax::{SslAct, SslPlace};

/// Whether what a lone name stands for can be assigned: a cell, or an operand that is a place for every constructor
/// of its type.
fn is_assignable(lone: Lone) -> bool
    ensures { result ≡ is_assignable lone }
{
    match lone {
        Lone::Cell(_) => true,
        Lone::Own(Own::Typed { operand: _, stands }) => stands.place,
        Lone::Own(_) => false,
    }
}

/// Whether what is assigned is a place.
pub fn assigns_place(names: &LineNames, place: &SslPlace) -> bool
    ensures { result ≡ assigns_place (scope names.now) place.now }
{
    match place {
        SslPlace::Named(name) => match names.lone(name.as_slice()) {
            None => false,
            Some(lone) => is_assignable(lone),
        },
        _ => true,
    }
}

/// Whether what an act assigns, where it does, is a place.
pub fn act_assigns_place(names: &LineNames, act: &SslAct) -> bool
    ensures { result ≡ act_assigns_place (scope names.now) act.now }
{
    match act {
        SslAct::Assign(_, to, _) => assigns_place(names, to),
        _ => true,
    }
}
