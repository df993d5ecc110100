//! The own names of a line.
ghost use Rattle.std.specs.Prelude.{◌≡◌, ◌≤◌, [], IfOk, OnOk, length};
ghost use Rattle.ssl_rules.specs.Given.{own_operand, own_operands, own_params};
ghost use Rattle.ssl_core.specs.State.{shown, Holds};
ghost use Rattle.rtl_core.specs.SoundEncodings.{IsSoundEncodings};
ghost use Rattle.ssl_core.specs.Kept.{kept, with_new};
ghost use Rattle.ssl_core.specs.OwnNames.{constructor_of, own_of};

use crate::constructors::{add_new, kinds_of};
use crate::given::Given;
use crate::noting::stands_of;
use rtl_core::{Encodings, OperandKind, Width};
use sqlite_items::Items;
use ssl_rules::{NameTable, Own};
use ssl_syntax::{Param, SslBody};
use std::alloc::{AllocError, Global};

/// A field operand, at its place.
fn add_field(
    own: &mut NameTable<Own>,
    operand: u8,
    name: &[u8],
    width: Width,
) -> Result<(), AllocError>
    ensures { OnOk result (own.new ≡ with_new own.old name.now (Own.Field operand width)) }
{
    let width = width.bits();
    add_new(own, name, Own::Field { operand, width })
}

/// A typed operand, at its place; an instruction has no value, and no name.
fn add_typed(
    own: &mut NameTable<Own>,
    enc: &Encodings,
    given: &Given,
    operand: u8,
    name: &[u8],
    kind: u16,
) -> Result<(), AllocError>
    requires { Holds enc.now given.now }
    ensures { OnOk result (own.new ≡ kept own.old (own_operand (shown given.now) enc.now operand name.now (OperandKind.Typed kind))) }
{
    if kind == 0 {
        return Ok(());
    }
    let stands = stands_of(enc, given, usize::from(kind));
    add_new(own, name, Own::Typed { operand, stands })
}

/// The operand of a kind at a place.
fn add_operand(
    own: &mut NameTable<Own>,
    enc: &Encodings,
    given: &Given,
    operand: u8,
    name: &[u8],
    kind: OperandKind,
) -> Result<(), AllocError>
    requires { Holds enc.now given.now }
    ensures { OnOk result (own.new ≡ kept own.old (own_operand (shown given.now) enc.now operand name.now kind)) }
{
    match kind {
        OperandKind::Field(width) => add_field(own, operand, name, width),
        OperandKind::Typed(kind) => add_typed(own, enc, given, operand, name, kind),
    }
}

/// Operands by position; of several with one name the first.
pub fn own_operands(
    alloc: Global,
    enc: &Encodings,
    given: &Given,
    ops: &[Items<u8>],
    kinds: &[OperandKind],
) -> Result<NameTable<Own>, AllocError>
    requires holds { Holds enc.now given.now }
    requires few { length kinds.now ≤ 8 }
    ensures { IfOk result (λ own. own ≡ kept [] (own_operands (shown given.now) enc.now 0 ops.now kinds.now)) }
{
    let mut own = NameTable::new(alloc);
    for k in 0..ops.len().min(kinds.len()) {
        let name = ops[k].as_slice();
        add_operand(&mut own, enc, given, k as u8, name, kinds[k])?;
    }
    Ok(own)
}

/// Parameters by position; of several with one name the first.
pub fn own_params(alloc: Global, params: &[Param]) -> Result<NameTable<Own>, AllocError>
    ensures { IfOk result (λ own. own ≡ kept [] (own_params 0 params.now)) }
{
    let mut own = NameTable::new(alloc);
    for (place, param) in params.iter().enumerate() {
        let width = param.width;
        add_new(&mut own, param.name.as_slice(), Own::Param { place, width })?;
    }
    Ok(own)
}

/// The own names of a line that names this constructor; of several with one name the first.
pub fn own_of(
    alloc: Global,
    enc: &Encodings,
    given: &Given,
    constructor: Option<u16>,
    body: &SslBody,
) -> Result<NameTable<Own>, AllocError>
    requires sound { IsSoundEncodings enc.now }
    requires holds { Holds enc.now given.now }
    requires constructor { constructor ≡ constructor_of enc.now body.now }
    ensures { IfOk result (λ own. own ≡ kept [] (own_of enc.now (shown given.now) body.now)) }
{
    let kinds = kinds_of(enc, constructor.unwrap_or(0));
    match body {
        SslBody::Function { params, .. } => own_params(alloc, params.as_slice()),
        SslBody::Operand { ops, .. } => own_operands(alloc, enc, given, ops.as_slice(), kinds),
        SslBody::Instruction { ops, .. } => own_operands(alloc, enc, given, ops.as_slice(), kinds),
        _ => Ok(NameTable::new(alloc)),
    }
}
