//! How many cells, files, views and functions there may be, and how many operands, arguments and parts.
ghost use Rattle.std.specs.Prelude.{◌≡◌, ◌==◌, length, unwrap_or};
ghost use Rattle.rtl_core.specs.declared.encodings.Encodings.{Encodings};
ghost use Rattle.ssl_rules.specs.Given.{kinds_of};
ghost use Rattle.ssl_rules.specs.Checks.{is_counted, is_few};
ghost use Rattle.ssl_core.specs.State.{shown};
ghost use Rattle.ssl_core.specs.OwnNames.{constructor_of, own_of};
ghost use Rattle.ssl_core.specs.Limits.{has_place_in, has_room_in};

use crate::constructors::kinds_of;
use crate::given::Given;
use rtl_core::Encodings;
use ssl_checks::{are_counted_transfers, is_counted_expr};
use ssl_rules::{LineNames, NameTable, Own, Tables};
use ssl_syntax::SslBody;

/// Whether there are at most 120 cells with so many more.
fn has_room(tables: &Tables, count: u64) -> bool
    ensures { result ≡ has_room_in tables.now count }
{
    match 120usize.checked_sub(tables.widths.len()) {
        Some(room) => count <= room as u64,
        None => false,
    }
}

/// Whether there are at most 4,096 files, views and functions with one more.
fn has_place(tables: &Tables) -> bool
    ensures { result ≡ has_place_in tables.now }
{
    tables.files.len().saturating_add(tables.functions.len()) < 4096
}

/// Whether a line passes no limit.
pub fn is_few(given: &Given, body: &SslBody) -> bool
    ensures { (enc : Encodings) → result ≡ is_few enc (shown given.now) body.now }
{
    let tables = &given.tables;
    match body {
        SslBody::Cell { .. } => has_room(tables, 1),
        SslBody::Cells { count, .. } => has_room(tables, *count) && has_place(tables),
        SslBody::View { .. } => has_place(tables),
        SslBody::Function { .. } => has_place(tables),
        _ => true,
    }
}

/// Whether as many operands are listed as the constructor has.
fn has_operands(enc: &Encodings, constructor: Option<u16>, count: usize) -> bool
    ensures { result ≡ (count == length (kinds_of enc.now (unwrap_or constructor 0))) }
{
    count == kinds_of(enc, constructor.unwrap_or(0)).len()
}

/// Whether a line has as many operands, arguments and parts as it has to.
pub fn is_counted(
    enc: &Encodings,
    given: &Given,
    constructor: Option<u16>,
    own: &NameTable<Own>,
    body: &SslBody,
) -> bool
    requires constructor { constructor ≡ constructor_of enc.now body.now }
    requires own { own.now ≡ own_of enc.now (shown given.now) body.now }
    ensures { result ≡ is_counted enc.now (shown given.now) body.now }
{
    let tables = &given.tables;
    let names = LineNames { tables, own };
    match body {
        SslBody::View { count, parts, .. } => parts.len() as u64 == *count,
        SslBody::Function { body, .. } => is_counted_expr(&names, body),
        SslBody::Operand { ops, body, .. } => {
            has_operands(enc, constructor, ops.len()) && is_counted_expr(&names, body)
        },
        SslBody::Instruction { ops, transfers, .. } => {
            has_operands(enc, constructor, ops.len())
                && are_counted_transfers(&names, transfers.as_slice())
        },
        _ => true,
    }
}
