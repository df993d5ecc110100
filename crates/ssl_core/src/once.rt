//! What may stand once.
ghost use Rattle.std.specs.Prelude.{◌≡◌, ◌&&◌, [], ◌∷◌, IfOk, is_none, map, not, unwrap_or};
ghost use Rattle.rtl_core.specs.declared.encodings.Encodings.{Encodings};
ghost use Rattle.ssl_rules.specs.Given.{has_template};
ghost use Rattle.ssl_rules.specs.Checks.{is_once};
ghost use Rattle.ssl_core.specs.State.{shown};
ghost use Rattle.ssl_rules.specs.Lookup.{named};
ghost use Rattle.ssl_core.specs.Fresh.{are_fresh, is_fresh};
ghost use Rattle.ssl_core.specs.OwnNames.{constructor_of};

use crate::given::Given;
use crate::stands::has_template;
use sqlite_items::Items;
use ssl_rules::NameTable;
use ssl_syntax::{Param, SslBody, is_free};
use std::alloc::{AllocError, Global};

/// Whether no earlier line gives a name, and it is not reserved.
fn is_new(given: &Given, name: &[u8]) -> bool
    ensures { result ≡ is_fresh given.now.tables.names name.now }
{
    given.tables.names.get(name).is_none() && is_free(name)
}

/// Whether a name is new, and none of those that were seen.
fn is_unseen(given: &Given, seen: &NameTable<bool>, name: &[u8]) -> bool
    ensures { result ≡ (is_fresh given.now.tables.names name.now && is_none (named seen.now name.now)) }
{
    is_new(given, name) && seen.get(name).is_none()
}

/// Whether names are new, and each another than those before it.
fn are_new_operands(alloc: Global, given: &Given, ops: &[Items<u8>]) -> Result<bool, AllocError>
    ensures { IfOk result (λ new. new ≡ are_fresh given.now.tables.names [] ops.now) }
{
    let mut seen = NameTable::new(alloc);
    for op in ops {
        let name = op.as_slice();
        if !is_unseen(given, &seen, name) {
            return Ok(false);
        }
        seen.add(name, true)?;
    }
    Ok(true)
}

/// The same of a function's name and its parameters.
fn are_new_params(
    alloc: Global,
    given: &Given,
    function: &[u8],
    params: &[Param],
) -> Result<bool, AllocError>
    ensures { IfOk result (λ new. new ≡ are_fresh given.now.tables.names [] (function.now ∷ map (λ p. p.name) params.now)) }
{
    if !is_new(given, function) {
        return Ok(false);
    }
    let mut seen = NameTable::new(alloc);
    seen.add(function, true)?;
    for param in params {
        let name = param.name.as_slice();
        if !is_unseen(given, &seen, name) {
            return Ok(false);
        }
        seen.add(name, true)?;
    }
    Ok(true)
}

/// Whether a template is the first of its constructor, and its operands have new names.
fn is_first(
    alloc: Global,
    given: &Given,
    constructor: Option<u16>,
    ops: &[Items<u8>],
) -> Result<bool, AllocError>
    ensures { IfOk result (λ first. first ≡ (not (has_template (shown given.now) (unwrap_or constructor 0)) && are_fresh given.now.tables.names [] ops.now)) }
{
    if has_template(given, constructor.unwrap_or(0)) {
        return Ok(false);
    }
    are_new_operands(alloc, given, ops)
}

/// Whether a line gives nothing that is given.
pub fn is_once(
    alloc: Global,
    given: &Given,
    constructor: Option<u16>,
    body: &SslBody,
) -> Result<bool, AllocError>
    ensures { (enc : Encodings) → constructor ≡ constructor_of enc body.now → IfOk result (λ once. once ≡ is_once enc (shown given.now) body.now) }
{
    match body {
        SslBody::Align { .. } => Ok(given.align.is_none()),
        SslBody::Delay { .. } => Ok(given.delay.is_none()),
        SslBody::Cell { name, .. } => Ok(is_new(given, name.as_slice())),
        SslBody::Cells { name, .. } => Ok(is_new(given, name.as_slice())),
        SslBody::View { name, .. } => Ok(is_new(given, name.as_slice())),
        SslBody::Zero { .. } => Ok(given.zeroed.is_none()),
        SslBody::Windows { .. } => Ok(given.windows.is_none()),
        SslBody::Function { name, params, .. } => {
            are_new_params(alloc, given, name.as_slice(), params.as_slice())
        },
        SslBody::Operand { ops, .. } => is_first(alloc, given, constructor, ops.as_slice()),
        SslBody::Instruction { ops, .. } => { is_first(alloc, given, constructor, ops.as_slice()) },
    }
}
