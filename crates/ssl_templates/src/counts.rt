//! The nodes of an instruction, counted before anything is expanded.
ghost use Rattle.std.specs.Prelude.{◌≡◌, ◌≤◌, IfOk};
ghost use Rattle.ssl_rules.specs.LineScope.{scope};
ghost use Rattle.ssl_rules.specs.Templates.{place_nodes, act_nodes, guard_nodes, transfer_nodes, transfers_nodes};
ghost use Rattle.ssl_nodes.specs.Sums.{few};

use crate::assigned::lone_assigned;
use ssl_nodes::{few, node_count};
use ssl_rules::LineNames;
use ssl_syntax::{SslAct, SslExpr, SslPlace, SslTransfer};
use std::alloc::{AllocError, Global};

/// The nodes of an instruction's transfers; more than 256 are told as 257. The error is want of memory.
pub fn transfers_count(
    alloc: Global,
    names: &LineNames,
    transfers: &[SslTransfer],
) -> Result<u32, AllocError>
    ensures exact { IfOk result (λ n. n ≡ few (transfers_nodes (scope names.now) transfers.now)) }
    ensures most { IfOk result (λ n. n ≤ 257) }
{
    let mut count = 0;
    for transfer in transfers {
        count = few(count + transfer_count(alloc, names, transfer)?);
    }
    Ok(count)
}

/// The nodes of a transfer.
fn transfer_count(
    alloc: Global,
    names: &LineNames,
    transfer: &SslTransfer,
) -> Result<u32, AllocError>
    ensures exact { IfOk result (λ n. n ≡ few (transfer_nodes (scope names.now) transfer.now)) }
    ensures most { IfOk result (λ n. n ≤ 257) }
{
    let guard = guard_count(alloc, names, &transfer.guard)?;
    Ok(few(1 + guard + act_count(alloc, names, &transfer.act)?))
}

/// The nodes of a guard; none where there is none.
fn guard_count(alloc: Global, names: &LineNames, guard: &Option<SslExpr>) -> Result<u32, AllocError>
    ensures exact { IfOk result (λ n. n ≡ few (guard_nodes (scope names.now) guard.now)) }
    ensures most { IfOk result (λ n. n ≤ 257) }
{
    match guard {
        None => Ok(0),
        Some(guard) => node_count(alloc, names, guard),
    }
}

/// The nodes of an act.
fn act_count(alloc: Global, names: &LineNames, act: &SslAct) -> Result<u32, AllocError>
    ensures exact { IfOk result (λ n. n ≡ few (act_nodes (scope names.now) act.now)) }
    ensures most { IfOk result (λ n. n ≤ 257) }
{
    match act {
        SslAct::Assign(_, to, e) => {
            let place = place_count(alloc, names, to)?;
            Ok(few(place + node_count(alloc, names, e)?))
        }
        SslAct::Jump(target) => node_count(alloc, names, target),
        SslAct::Trap(number) => node_count(alloc, names, number),
        _ => Ok(0),
    }
}

/// The nodes of what is assigned.
fn place_count(alloc: Global, names: &LineNames, place: &SslPlace) -> Result<u32, AllocError>
    ensures exact { IfOk result (λ n. n ≡ few (place_nodes (scope names.now) place.now)) }
    ensures most { IfOk result (λ n. n ≤ 257) }
{
    match place {
        SslPlace::Named(name) => Ok(few(lone_assigned(names.lone(name.as_slice())))),
        SslPlace::Load(_, address) => node_count(alloc, names, address),
        _ => Ok(0),
    }
}
