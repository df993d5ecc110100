//! The widths of transfers.
ghost use Rattle.std.specs.Prelude.{◌≡◌};
ghost use Rattle.ssl_rules.specs.LineScope.{scope};
ghost use Rattle.ssl_rules.specs.Widths.{place_measured, is_act_in_range, act_differs, is_guard_in_range, guard_differs, is_transfer_in_range, transfer_differs, asked_of, measured};
ghost use Rattle.std.specs.Option.{option_or};

use crate::measures::{asked_of, leaf, load, measure, or};
use crate::named_widths::{at_op_width, at_width, cell_slice, named_width};
use crate::ranges::is_width;
use ssl_rules::{LineNames, Measure, Mismatch};
use ssl_syntax::{SslAct, SslExpr, SslPlace, SslTransfer};

/// The width of what is assigned, and the first two widths in it that differ.
fn place_measure(names: &LineNames, place: &SslPlace) -> Measure
    ensures { result ≡ place_measured (scope names.now) place.now }
{
    match place {
        SslPlace::Named(name) => leaf(named_width(names, name.as_slice())),
        SslPlace::At(name, index) => leaf(at_width(names.tables, name.as_slice(), *index)),
        SslPlace::AtOp(name, op) => leaf(at_op_width(names, name.as_slice(), op.as_slice())),
        SslPlace::Bits(cell, lo, hi) => leaf(cell_slice(names.tables, cell, *lo, *hi)),
        SslPlace::Load(bits, address) => load(*bits, measure(names, address)),
    }
}

/// Whether the numbers of an act are in range.
fn is_act_in_range(names: &LineNames, act: &SslAct) -> bool
    ensures { result ≡ is_act_in_range (scope names.now) act.now }
{
    match act {
        SslAct::Assign(width, to, value) => {
            is_width(*width)
                && place_measure(names, to).width.is_some()
                && measure(names, value).width.is_some()
        }
        SslAct::Jump(target) => measure(names, target).width.is_some(),
        SslAct::Trap(number) => measure(names, number).width.is_some(),
        _ => true,
    }
}

/// The first two widths of an assignment of so many bits that differ: the place first, then the value.
fn assignment_differs(
    names: &LineNames,
    width: u8,
    to: &SslPlace,
    value: &SslExpr,
) -> Option<Mismatch>
    ensures { result ≡ option_or (asked_of width (place_measured (scope names.now) to.now)) (asked_of width (measured (scope names.now) value.now)) }
{
    or(
        asked_of(width, place_measure(names, to)),
        asked_of(width, measure(names, value)),
    )
}

/// The first two widths of an act that differ.
fn act_differs(names: &LineNames, act: &SslAct) -> Option<Mismatch>
    ensures { result ≡ act_differs (scope names.now) act.now }
{
    match act {
        SslAct::Assign(width, to, value) => {
            if is_width(*width) {
                assignment_differs(names, *width as u8, to, value)
            } else {
                None
            }
        }
        SslAct::Jump(target) => asked_of(32, measure(names, target)),
        SslAct::Trap(number) => asked_of(32, measure(names, number)),
        _ => None,
    }
}

/// Whether the numbers of a guard are in range, where there is one.
fn is_guard_in_range(names: &LineNames, guard: &Option<SslExpr>) -> bool
    ensures { result ≡ is_guard_in_range (scope names.now) guard.now }
{
    match guard {
        None => true,
        Some(guard) => measure(names, guard).width.is_some(),
    }
}

/// The first two widths of a guard that differ.
fn guard_differs(names: &LineNames, guard: &Option<SslExpr>) -> Option<Mismatch>
    ensures { result ≡ guard_differs (scope names.now) guard.now }
{
    match guard {
        None => None,
        Some(guard) => asked_of(1, measure(names, guard)),
    }
}

/// Whether the numbers of a transfer are in range.
pub fn is_transfer_in_range(names: &LineNames, transfer: &SslTransfer) -> bool
    ensures { result ≡ is_transfer_in_range (scope names.now) transfer.now }
{
    is_guard_in_range(names, &transfer.guard) && is_act_in_range(names, &transfer.act)
}

/// The first two widths of a transfer that differ: its guard first.
pub fn transfer_differs(names: &LineNames, transfer: &SslTransfer) -> Option<Mismatch>
    ensures { result ≡ transfer_differs (scope names.now) transfer.now }
{
    or(
        guard_differs(names, &transfer.guard),
        act_differs(names, &transfer.act),
    )
}
