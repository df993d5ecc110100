//! What is assigned, which acts come once, and how many nodes there are.
ghost use Rattle.std.specs.Prelude.{◌≡◌, nat_le, IfOk};
ghost use Rattle.rtl_core.specs.declared.encodings.Encodings.{Encodings};
ghost use Rattle.ssl_rules.specs.LineScope.{scope};
ghost use Rattle.ssl_rules.specs.Formulas.{expanded, nodes};
ghost use Rattle.ssl_rules.specs.Templates.{transfers_nodes};
ghost use Rattle.ssl_rules.specs.Checks.{assigns_places, is_single, is_small};
ghost use Rattle.ssl_core.specs.State.{shown};
ghost use Rattle.ssl_core.specs.OwnNames.{own_of};

use crate::given::Given;
use ssl_checks::{are_places_assigned, are_single};
use ssl_nodes::node_count;
use ssl_rules::{LineNames, NameTable, Own};
use ssl_syntax::{SslBody, SslExpr, SslTransfer};
use ssl_templates::transfers_count;
use std::alloc::{AllocError, Global};

/// Whether all that a line assigns is a place.
pub fn assigns_places(given: &Given, own: &NameTable<Own>, body: &SslBody) -> bool
    ensures { (enc : Encodings) → own.now ≡ own_of enc (shown given.now) body.now → result ≡ assigns_places enc (shown given.now) body.now }
{
    let tables = &given.tables;
    let names = LineNames { tables, own };
    match body {
        SslBody::Instruction { transfers, .. } => are_places_assigned(&names, transfers.as_slice()),
        _ => true,
    }
}

/// Whether a line has at most one jump, one annul, one service, which is last, and one window move.
pub fn is_single(given: &Given, body: &SslBody) -> bool
    ensures { (enc : Encodings) → result ≡ is_single enc (shown given.now) body.now }
{
    match body {
        SslBody::Instruction { transfers, .. } => are_single(transfers.as_slice()),
        _ => true,
    }
}

/// Whether an expression has at most 256 nodes.
#[tactic(auto, using(crate::proofs::FewLemmas::few_enough))]
fn is_small_expr(alloc: Global, names: &LineNames, e: &SslExpr) -> Result<bool, AllocError>
    ensures { IfOk result (λ small. small ≡ nat_le (nodes (expanded (scope names.now) e.now)) 256) }
{
    Ok(node_count(alloc, names, e)? <= 256)
}

/// Whether an instruction has at most 256 nodes.
#[tactic(auto, using(crate::proofs::FewLemmas::few_enough))]
fn are_small_transfers(
    alloc: Global,
    names: &LineNames,
    transfers: &[SslTransfer],
) -> Result<bool, AllocError>
    ensures { IfOk result (λ small. small ≡ nat_le (transfers_nodes (scope names.now) transfers.now) 256) }
{
    Ok(transfers_count(alloc, names, transfers)? <= 256)
}

/// Whether a line has at most 256 nodes.
pub fn is_small(
    alloc: Global,
    given: &Given,
    own: &NameTable<Own>,
    body: &SslBody,
) -> Result<bool, AllocError>
    ensures { (enc : Encodings) → own.now ≡ own_of enc (shown given.now) body.now → IfOk result (λ small. small ≡ is_small enc (shown given.now) body.now) }
{
    let tables = &given.tables;
    let names = LineNames { tables, own };
    match body {
        SslBody::Function { body, .. } => is_small_expr(alloc, &names, body),
        SslBody::Operand { body, .. } => is_small_expr(alloc, &names, body),
        SslBody::Instruction { transfers, .. } => {
            are_small_transfers(alloc, &names, transfers.as_slice())
        },
        _ => Ok(true),
    }
}
