//! Whether the names of a line are known.
ghost use Rattle.std.specs.Prelude.{◌≡◌, drop, take};
ghost use Rattle.std.specs.List.{list_all};
ghost use Rattle.ssl_rules.specs.Known.{is_known_part};
ghost use Rattle.ssl_rules.specs.Checks.{is_known, is_known_kind};
ghost use Rattle.ssl_core.specs.State.{shown, Holds};
ghost use Rattle.ssl_core.specs.OwnNames.{FindSame, constructor_of, own_of};
ghost use Rattle.ssl_core.specs.Heads.{is_constructor_at, is_head, surplus_at};

use crate::constructors::kinds_of;
use crate::given::Given;
use crate::noting::known_stands;
use crate::stands::type_of;
use rtl_core::{Encodings, OperandKind};
use sqlite_items::Items;
use ssl_checks::{KnownNames, are_known_transfers, is_known_expr, is_known_part};
use ssl_rules::{LineNames, NameTable, Own, Tables};
use ssl_syntax::{SslBody, ViewPart};

/// Whether every constructor of an operand's type has a template.
#[tactic(auto, using(crate::proofs::StoodLemmas::some_known))]
fn is_known_kind(enc: &Encodings, given: &Given, kind: OperandKind) -> bool
    requires { Holds enc.now given.now }
    ensures { result ≡ is_known_kind enc.now (shown given.now) kind }
{
    match kind {
        OperandKind::Field(_) => true,
        OperandKind::Typed(kind) => known_stands(enc, given, usize::from(kind)).is_some(),
    }
}

/// The same of each of some operands.
fn are_known_kinds(enc: &Encodings, given: &Given, kinds: &[OperandKind]) -> bool
    requires { Holds enc.now given.now }
    ensures { result ≡ list_all (is_known_kind enc.now (shown given.now)) kinds.now }
{
    for kind in kinds {
        if !is_known_kind(enc, given, *kind) {
            return false;
        }
    }
    true
}

/// The first operands, at most so many.
fn first_kinds(kinds: &[OperandKind], count: usize) -> &[OperandKind]
    ensures { result.now ≡ take count kinds.now }
{
    let (first, _) = kinds.split_at(count.min(kinds.len()));
    first
}

/// Whether there is a constructor, and of an instruction or not.
fn is_constructor(
    enc: &Encodings,
    given: &Given,
    constructor: Option<u16>,
    instruction: bool,
) -> bool
    requires { Holds enc.now given.now }
    ensures { result ≡ is_constructor_at enc.now instruction constructor }
{
    match constructor {
        None => false,
        Some(constructor) => (type_of(enc, given, constructor) == 0) == instruction,
    }
}

/// Whether the constructor of a line is known, and the operands that are listed.
fn is_head(
    enc: &Encodings,
    given: &Given,
    constructor: Option<u16>,
    instruction: bool,
    count: usize,
) -> bool
    requires { Holds enc.now given.now }
    ensures { result ≡ is_head enc.now (shown given.now) instruction constructor count }
{
    is_constructor(enc, given, constructor, instruction)
        && are_known_kinds(
            enc,
            given,
            first_kinds(kinds_of(enc, constructor.unwrap_or(0)), count),
        )
}

/// What is behind the first of so many, where there are more.
fn behind(ops: &[Items<u8>], count: usize) -> &[Items<u8>]
    ensures { result.now ≡ drop count ops.now }
{
    let (_, rest) = ops.split_at(count.min(ops.len()));
    rest
}

/// The operands that a template's line lists behind the last that its constructor has.
fn surplus_of<'a>(enc: &Encodings, constructor: Option<u16>, body: &'a SslBody) -> &'a [Items<u8>]
    ensures { result.now ≡ surplus_at enc.now constructor body.now }
{
    let count = kinds_of(enc, constructor.unwrap_or(0)).len();
    match body {
        SslBody::Operand { ops, .. } => behind(ops.as_slice(), count),
        SslBody::Instruction { ops, .. } => behind(ops.as_slice(), count),
        _ => &[],
    }
}

/// Whether the cells of all parts are known.
fn are_known_parts(tables: &Tables, parts: &[ViewPart]) -> bool
    ensures { result ≡ list_all (is_known_part tables.now) parts.now }
{
    for part in parts {
        if !is_known_part(tables, part) {
            return false;
        }
    }
    true
}

/// Whether the names of a line are known.
pub fn is_known(
    enc: &Encodings,
    given: &Given,
    constructor: Option<u16>,
    own: &NameTable<Own>,
    body: &SslBody,
) -> bool
    requires holds { Holds enc.now given.now }
    requires constructor { constructor ≡ constructor_of enc.now body.now }
    requires own { FindSame own.now (own_of enc.now (shown given.now) body.now) }
    ensures { result ≡ is_known enc.now (shown given.now) body.now }
{
    let tables = &given.tables;
    let line = LineNames { tables, own };
    let surplus = surplus_of(enc, constructor, body);
    let names = KnownNames { line, surplus };
    match body {
        SslBody::View { parts, .. } => are_known_parts(tables, parts.as_slice()),
        SslBody::Zero { cell } => tables.is_cell(cell),
        SslBody::Windows {
            out_first,
            local_first,
            in_first,
            ..
        } => tables.is_cell(out_first) && tables.is_cell(local_first) && tables.is_cell(in_first),
        SslBody::Function { body, .. } => is_known_expr(&names, body),
        SslBody::Operand { ops, body, .. } => {
            is_head(enc, given, constructor, false, ops.len()) && is_known_expr(&names, body)
        },
        SslBody::Instruction { ops, transfers, .. } => {
            is_head(enc, given, constructor, true, ops.len())
                && are_known_transfers(&names, given.windows.is_some(), transfers.as_slice())
        },
        _ => true,
    }
}
