//! The first two widths of a line that differ.
ghost use Rattle.std.specs.Prelude.{◌≡◌, true, unwrap_or};
ghost use Rattle.std.specs.Option.{option_or};
ghost use Rattle.ssl_rules.specs.Given.{type_of, type_width};
ghost use Rattle.ssl_rules.specs.LineScope.{scope};
ghost use Rattle.ssl_rules.specs.Widths.{measured};
ghost use Rattle.ssl_rules.specs.Checks.{differing, is_in_range};
ghost use Rattle.ssl_core.specs.State.{shown, Holds};
ghost use Rattle.ssl_core.specs.OwnNames.{constructor_of, own_of};
ghost use Rattle.ssl_core.specs.TypeWidths.{against};

use crate::given::Given;
use crate::ranges::shape_of;
use crate::stands::{type_of, type_width};
use rtl_core::Encodings;
use ssl_checks::{asked, measure, parts_differ, transfers_differ, windows_differ};
use ssl_rules::{LineNames, Measure, Mismatch, NameTable, Own};
use ssl_syntax::{SslBody, SslExpr};

/// Two widths that differ: the first where there is one.
fn or(first: Option<Mismatch>, second: Option<Mismatch>) -> Option<Mismatch>
    ensures { result ≡ option_or first second }
{
    match first {
        Some(mismatch) => Some(mismatch),
        None => second,
    }
}

/// A template's width against that of the first template of its type, where there is one.
fn against(first: Option<u8>, m: Measure) -> Option<Mismatch>
    ensures { result ≡ against first m }
{
    match first {
        None => None,
        Some(width) => asked(width, m.width),
    }
}

/// The first two widths of a template that differ.
fn template_differs(
    enc: &Encodings,
    given: &Given,
    constructor: Option<u16>,
    names: &LineNames,
    e: &SslExpr,
) -> Option<Mismatch>
    requires { Holds enc.now given.now }
    ensures { result ≡ option_or (measured (scope names.now) e.now).differs (against (type_width (shown given.now) enc.now (type_of enc.now (unwrap_or constructor 0))) (measured (scope names.now) e.now)) }
{
    let m = measure(names, e);
    let kind = type_of(enc, given, constructor.unwrap_or(0));
    or(m.differs, against(type_width(enc, given, kind), m))
}

/// The first two widths of a line that differ, whose numbers are in range.
pub fn differing(
    enc: &Encodings,
    given: &Given,
    constructor: Option<u16>,
    own: &NameTable<Own>,
    body: &SslBody,
) -> Option<Mismatch>
    requires holds { Holds enc.now given.now }
    requires constructor { constructor ≡ constructor_of enc.now body.now }
    requires own { own.now ≡ own_of enc.now (shown given.now) body.now }
    requires ranged { is_in_range enc.now (shown given.now) body.now ≡ true }
    ensures { result ≡ differing enc.now (shown given.now) body.now }
{
    let tables = &given.tables;
    let names = LineNames { tables, own };
    match body {
        SslBody::View { width, parts, .. } => parts_differ(tables, *width, parts.as_slice()),
        SslBody::Windows {
            out_first,
            local_first,
            in_first,
            count,
        } => windows_differ(
            tables,
            shape_of(tables, out_first, local_first, in_first, *count as u8),
        ),
        SslBody::Function { body, .. } => measure(&names, body).differs,
        SslBody::Operand { body, .. } => template_differs(enc, given, constructor, &names, body),
        SslBody::Instruction { transfers, .. } => transfers_differ(&names, transfers.as_slice()),
        _ => None,
    }
}
