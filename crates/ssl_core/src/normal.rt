//! The normal form of a list of lines.
ghost use Rattle.std.specs.Prelude.{◌≡◌, ◌≢◌, ◌≤◌, Ok, Err, IfOk, IfErr, length};
ghost use Rattle.rtl_core.specs.SoundEncodings.{IsSoundEncodings};
ghost use Rattle.ssl_rules.specs.Faults.{missing_from};
ghost use Rattle.ssl_rules.specs.Machines.{normal};
ghost use Rattle.ssl_core.specs.State.{shown};

use crate::constructors::numbers_of;
use crate::given::Given;
use crate::lines::take_line;
use crate::machine::named_machine;
use crate::stands::has_template;
use rtl_core::{Coded, Encodings, NamedMachine};
use ssl_rules::SslFault;
use ssl_syntax::SslLine;
use std::alloc::Global;

/// The fault of the first constructor without a template.
fn missing(given: &Given, constructors: &[Coded]) -> Option<SslFault>
    requires { length constructors.now ≤ 4096 }
    ensures { result ≡ missing_from (shown given.now) 0 constructors.now }
{
    for k in 0..constructors.len() {
        let constructor = k as u16;
        if !has_template(given, constructor) {
            return Some(SslFault::Missing { constructor });
        }
    }
    None
}

/// The machine that lines describe over these encodings, or their first fault.
pub fn machine_or_fault(
    alloc: Global,
    lines: &[SslLine],
    enc: &Encodings,
) -> Result<NamedMachine, SslFault>
    requires { IsSoundEncodings enc.now }
    ensures value { IfOk result (λ named. normal enc.now lines.now ≡ Ok named) }
    ensures fault { IfErr result (λ f. f ≢ SslFault.NoMemory → normal enc.now lines.now ≡ Err f) }
{
    let numbers = numbers_of(alloc, enc)?;
    let mut given = Given::new(alloc, enc)?;
    for line in lines {
        take_line(alloc, enc, &numbers, &mut given, line)?;
    }
    if let Some(fault) = missing(&given, enc.constructors.as_slice()) {
        return Err(fault);
    }
    Ok(named_machine(alloc, enc, given)?)
}
