//! The fault of a line.
ghost use Rattle.std.specs.Prelude.{◌≡◌, [], IfOk};
ghost use Rattle.ssl_rules.specs.Faults.{body_fault, first_of, late_faults};
ghost use Rattle.ssl_core.specs.State.{shown, Holds};
ghost use Rattle.ssl_core.specs.Kept.{kept};
ghost use Rattle.ssl_core.specs.OwnNames.{constructor_of, own_of};

use crate::given::Given;
use crate::known::is_known;
use crate::last_checks::{assigns_places, is_single, is_small};
use crate::limits::{is_counted, is_few};
use crate::once::is_once;
use crate::ranges::is_in_range;
use crate::widths::differing;
use rtl_core::Encodings;
use ssl_rules::{NameTable, Own, SslFault};
use ssl_syntax::SslBody;
use std::alloc::{AllocError, Global};

/// The fault of a line whose names are known, and which gives nothing that is given.
fn late_fault(
    alloc: Global,
    enc: &Encodings,
    given: &Given,
    constructor: Option<u16>,
    own: &NameTable<Own>,
    line: u32,
    body: &SslBody,
) -> Result<Option<SslFault>, AllocError>
    requires holds { Holds enc.now given.now }
    requires constructor { constructor ≡ constructor_of enc.now body.now }
    requires own { own.now ≡ own_of enc.now (shown given.now) body.now }
    ensures { IfOk result (λ fault. fault ≡ first_of (late_faults enc.now (shown given.now) line body.now)) }
{
    if !is_few(given, body) {
        return Ok(Some(SslFault::TooMany { line }));
    }
    if !is_counted(enc, given, constructor, own, body) {
        return Ok(Some(SslFault::OperandCount { line }));
    }
    if !is_in_range(given, own, body) {
        return Ok(Some(SslFault::IndexRange { line }));
    }
    if !assigns_places(given, own, body) {
        return Ok(Some(SslFault::NotPlace { line }));
    }
    if let Some(m) = differing(enc, given, constructor, own, body) {
        let (left, right) = (m.left, m.right);
        return Ok(Some(SslFault::WidthDiffers { line, left, right }));
    }
    if !is_single(given, body) {
        return Ok(Some(SslFault::TwoJumps { line }));
    }
    if !is_small(alloc, given, own, body)? {
        return Ok(Some(SslFault::TooWide { line }));
    }
    Ok(None)
}

/// The fault of a line: that of its first check that fails.
pub fn body_fault(
    alloc: Global,
    enc: &Encodings,
    given: &Given,
    constructor: Option<u16>,
    own: &NameTable<Own>,
    line: u32,
    body: &SslBody,
) -> Result<Option<SslFault>, AllocError>
    requires holds { Holds enc.now given.now }
    requires constructor { constructor ≡ constructor_of enc.now body.now }
    requires own { own.now ≡ kept [] (own_of enc.now (shown given.now) body.now) }
    ensures { IfOk result (λ fault. fault ≡ body_fault enc.now (shown given.now) line body.now) }
{
    if !is_known(enc, given, constructor, own, body) {
        return Ok(Some(SslFault::Unknown { line }));
    }
    if !is_once(alloc, given, constructor, body)? {
        return Ok(Some(SslFault::Twice { line }));
    }
    late_fault(alloc, enc, given, constructor, own, line, body)
}
