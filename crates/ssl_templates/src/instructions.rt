//! What instructions do.
ghost use Rattle.std.specs.Prelude.{◌≡◌, IfOk, true, option_map};
ghost use Rattle.std.specs.List.{list_all};
ghost use Rattle.ssl_rules.specs.LineScope.{scope};
ghost use Rattle.ssl_rules.specs.Widths.{is_act_in_range, is_guard_in_range, is_transfer_in_range};
ghost use Rattle.ssl_rules.specs.Templates.{expr_value, act_of, transfer_of, transfers_template};

use crate::places::{expr_value, place_of};
use rtl_core::{TAct, TExpr, TTransfer, Template};
use sqlite_items::Items;
use ssl_rules::LineNames;
use ssl_syntax::{SslAct, SslExpr, SslTransfer};
use std::alloc::{AllocError, Global};

/// What an instruction does. The error is want of memory.
pub fn instruction_template(
    alloc: Global,
    names: &LineNames,
    transfers: &[SslTransfer],
) -> Result<Template, AllocError>
    requires ranged { list_all (is_transfer_in_range (scope names.now)) transfers.now ≡ true }
    ensures { IfOk result (λ t. t ≡ transfers_template (scope names.now) transfers.now) }
{
    let mut out = Items::new(alloc);
    for transfer in transfers {
        out.push(transfer_of(alloc, names, transfer)?)?;
    }
    Ok(Template::Acts(out))
}

/// A transfer of a template.
fn transfer_of(
    alloc: Global,
    names: &LineNames,
    transfer: &SslTransfer,
) -> Result<TTransfer, AllocError>
    requires ranged { is_transfer_in_range (scope names.now) transfer.now ≡ true }
    ensures { IfOk result (λ t. t ≡ transfer_of (scope names.now) transfer.now) }
{
    let guard = guard_of(alloc, names, &transfer.guard)?;
    let act = act_of(alloc, names, &transfer.act)?;
    Ok(TTransfer { guard, act })
}

/// A guard of a template.
fn guard_of(
    alloc: Global,
    names: &LineNames,
    guard: &Option<SslExpr>,
) -> Result<Option<TExpr>, AllocError>
    requires ranged { is_guard_in_range (scope names.now) guard.now ≡ true }
    ensures { IfOk result (λ g. g ≡ option_map (expr_value (scope names.now)) guard.now) }
{
    match guard {
        None => Ok(None),
        Some(guard) => Ok(Some(expr_value(alloc, names, guard)?)),
    }
}

/// An act of a template.
fn act_of(alloc: Global, names: &LineNames, act: &SslAct) -> Result<TAct, AllocError>
    requires ranged { is_act_in_range (scope names.now) act.now ≡ true }
    ensures { IfOk result (λ a. a ≡ act_of (scope names.now) act.now) }
{
    match act {
        SslAct::Assign(_, to, e) => {
            let place = place_of(alloc, names, to)?;
            Ok(TAct::Assign(place, expr_value(alloc, names, e)?))
        }
        SslAct::Jump(target) => Ok(TAct::Jump(expr_value(alloc, names, target)?)),
        SslAct::Annul => Ok(TAct::Annul),
        SslAct::Trap(number) => Ok(TAct::Trap(expr_value(alloc, names, number)?)),
        SslAct::Service => Ok(TAct::Service),
        SslAct::WinSave => Ok(TAct::WinSave),
        SslAct::WinRestore => Ok(TAct::WinRestore),
    }
}
