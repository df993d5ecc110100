//! The nodes of what is assigned.
ghost use Rattle.std.specs.Prelude.{◌≡◌, unwrap_or, option_map};
ghost use Rattle.ssl_rules.specs.Formulas.{nodes};
ghost use Rattle.ssl_rules.specs.Templates.{typed_assigned, assigned_nodes, lone_assigned};

use ssl_rules::{Formula, Leaf, Lone, Own, Stands};

/// The nodes of an expanded expression where it is assigned, by its nodes: those of the address of a store.
#[tactic(auto, using(crate::proofs::ValueLaws::assigned_laws))]
pub fn assigned_count(formula: &Formula, read: u32) -> u32
    requires { read ≡ nodes formula.now }
    ensures { result ≡ assigned_nodes formula.now }
{
    match formula {
        Formula::Leaf(Leaf::Typed(_, stands)) => typed_assigned(*stands),
        Formula::Load(_, _) => read - 1,
        _ => 0,
    }
}

/// The nodes of a typed operand where it is assigned.
fn typed_assigned(stands: Stands) -> u32
    ensures { result ≡ typed_assigned stands }
{
    if stands.place { stands.assigned } else { 0 }
}

/// The nodes of what a name without brackets stands for, where it is assigned.
pub fn lone_assigned(lone: Option<Lone>) -> u32
    ensures { result ≡ unwrap_or (option_map lone_assigned lone) 0 }
{
    match lone {
        Some(Lone::Own(Own::Typed { operand: _, stands })) => typed_assigned(stands),
        _ => 0,
    }
}
