//! Whether the numbers of a line are in range.
ghost use Rattle.std.specs.Prelude.{◌≡◌, is_some};
ghost use Rattle.std.specs.List.{list_all};
ghost use Rattle.rtl_core.specs.declared.encodings.Encodings.{Encodings};
ghost use Rattle.ssl_rules.specs.Given.{shape_of};
ghost use Rattle.ssl_rules.specs.LineScope.{scope};
ghost use Rattle.ssl_rules.specs.Widths.{is_delay, is_width, measured};
ghost use Rattle.ssl_core.specs.Limits.{are_windows_of};
ghost use Rattle.ssl_rules.specs.Checks.{is_in_range};
ghost use Rattle.ssl_core.specs.State.{shown};
ghost use Rattle.ssl_core.specs.OwnNames.{own_of};

use crate::given::Given;
use rtl_core::WinShape;
use ssl_checks::{
    are_parts_in_range, are_transfers_in_range, are_windows, is_width, is_zero, measure,
};
use ssl_rules::{LineNames, NameTable, Own, Tables};
use ssl_syntax::{CellName, Param, SslBody, SslExpr};

/// Whether a delay slot can have so many bytes, where there is one.
fn is_delay(bytes: Option<u64>) -> bool
    ensures { result ≡ is_delay bytes }
{
    match bytes {
        None => true,
        Some(bytes) => 1 <= bytes && bytes <= 32,
    }
}

/// The window of so many cells from these on; at most 255.
pub fn shape_of(
    tables: &Tables,
    out_first: &CellName,
    local_first: &CellName,
    in_first: &CellName,
    count: u8,
) -> WinShape
    ensures { result ≡ shape_of tables.now out_first.now local_first.now in_first.now count }
{
    WinShape {
        out_first: tables.cell_number(out_first).unwrap_or(0),
        local_first: tables.cell_number(local_first).unwrap_or(0),
        in_first: tables.cell_number(in_first).unwrap_or(0),
        count,
    }
}

/// Whether the cells of windows are there, none the zero cell, and their number is in range.
fn are_windows_in_range(
    given: &Given,
    out_first: &CellName,
    local_first: &CellName,
    in_first: &CellName,
    count: u64,
) -> bool
    ensures { result ≡ are_windows_of (shown given.now) out_first.now local_first.now in_first.now count }
{
    let tables = &given.tables;
    if count > 8 {
        return false;
    }
    let windows = shape_of(tables, out_first, local_first, in_first, count as u8);
    tables.cell_number(out_first).is_some()
        && tables.cell_number(local_first).is_some()
        && tables.cell_number(in_first).is_some()
        && are_windows(tables, given.zeroed, windows)
}

/// Whether values can have the widths of all parameters.
fn are_widths(params: &[Param]) -> bool
    ensures { result ≡ list_all (λ p. is_width p.width) params.now }
{
    for param in params {
        if !is_width(param.width) {
            return false;
        }
    }
    true
}

/// Whether the numbers of an expression are in range.
fn is_expr_in_range(names: &LineNames, e: &SslExpr) -> bool
    ensures { result ≡ is_some (measured (scope names.now) e.now).width }
{
    measure(names, e).width.is_some()
}

/// Whether the numbers of a line are in range.
pub fn is_in_range(given: &Given, own: &NameTable<Own>, body: &SslBody) -> bool
    ensures { (enc : Encodings) → own.now ≡ own_of enc (shown given.now) body.now → result ≡ is_in_range enc (shown given.now) body.now }
{
    let tables = &given.tables;
    let names = LineNames { tables, own };
    match body {
        SslBody::Align { .. } => true,
        SslBody::Delay { bytes } => is_delay(*bytes),
        SslBody::Cell { width, .. } => is_width(*width),
        SslBody::Cells { width, .. } => is_width(*width),
        SslBody::View { width, parts, .. } => {
            is_width(*width) && are_parts_in_range(tables, parts.as_slice())
        },
        SslBody::Zero { cell } => is_zero(tables.cell_number(cell), given.windows),
        SslBody::Windows {
            out_first,
            local_first,
            in_first,
            count,
        } => are_windows_in_range(given, out_first, local_first, in_first, *count),
        SslBody::Function { params, body, .. } => {
            are_widths(params.as_slice()) && is_expr_in_range(&names, body)
        },
        SslBody::Operand { body, .. } => is_expr_in_range(&names, body),
        SslBody::Instruction { transfers, .. } => {
            are_transfers_in_range(&names, transfers.as_slice())
        },
    }
}
