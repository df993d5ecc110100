//! The three texts, read and checked one after another.
ghost use Rattle.std.specs.Prelude.{◌<◌, ◌-◌, ◌^◌, length, IfErr, IfOk};
ghost use Rattle.rtl_core.specs.SoundConv.{AreSoundTogether};
ghost use Rattle.rtl_core.specs.SoundEncodings.{IsSoundEncodings};
ghost use Rattle.rtl_core.specs.SoundMachine.{AreSound, NamesItsCells};
ghost use Rattle.descriptions.specs.Accepted.{AreConventionsOf, AreEncodingsOf, Describe, IsConvFault, IsOfForm, IsMachineOf, IsSledFault, IsSslFault, IsUndescribed, StoppedBy};

use super::described::Described;
use super::fault::{DescFault, OneStop, Undescribed};
use conv_syntax::read_conv;
use conventions::{ConvFault, normal_conv};
use line_reading::SyntaxFault;
use rtl_core::{Conv, Encodings, NamedMachine};
use sled_core::normal_sled;
use sled_rules::SledFault;
use sled_syntax::read_sled;
use ssl_core::normal_ssl;
use ssl_rules::SslFault;
use ssl_syntax::read_ssl;
use std::alloc::Global;

/// A fault of a text's form as one of a description.
fn of_form(fault: SyntaxFault) -> OneStop
    ensures { IsOfForm fault result }
{
    match fault {
        SyntaxFault::Lex(fault) => OneStop::Fault(DescFault::Lex(fault)),
        SyntaxFault::BadLine { line } => OneStop::Fault(DescFault::BadLine { line }),
        SyntaxFault::NoMemory => OneStop::NoMemory,
    }
}

/// The encodings that a text describes.
#[tactic(auto, using(crate::proofs::Stops::sled_values))]
fn read_encodings(alloc: Global, text: &[u8]) -> Result<Encodings, OneStop>
    requires { length text.now < 2 ^ 32 - 1 }
    ensures read { IfOk result (λ enc. AreEncodingsOf text.now enc) }
    ensures sound { IfOk result (λ enc. IsSoundEncodings enc) }
    ensures fault { IfErr result (λ stop. StoppedBy (IsSledFault text.now) stop) }
{
    let lines = match read_sled(alloc, text) {
        Ok(lines) => lines,
        Err(fault) => return Err(of_form(fault)),
    };
    match normal_sled(alloc, lines.as_slice()) {
        Ok(encodings) => Ok(encodings),
        Err(SledFault::NoMemory) => Err(OneStop::NoMemory),
        Err(fault) => Err(OneStop::Fault(DescFault::Sled(fault))),
    }
}

/// The machine that a text describes over encodings.
#[tactic(auto, using(crate::proofs::Stops::ssl_values))]
fn read_machine(alloc: Global, text: &[u8], encodings: &Encodings) -> Result<NamedMachine, OneStop>
    requires short { length text.now < 2 ^ 32 - 1 }
    requires sound { IsSoundEncodings encodings.now }
    ensures read { IfOk result (λ named. IsMachineOf encodings.now text.now named) }
    ensures sound { IfOk result (λ named. AreSound encodings.now named.machine) }
    ensures names { IfOk result (λ named. NamesItsCells named) }
    ensures fault { IfErr result (λ stop. StoppedBy (IsSslFault encodings.now text.now) stop) }
{
    let lines = match read_ssl(alloc, text) {
        Ok(lines) => lines,
        Err(fault) => return Err(of_form(fault)),
    };
    match normal_ssl(alloc, lines.as_slice(), encodings) {
        Ok(named) => Ok(named),
        Err(SslFault::NoMemory) => Err(OneStop::NoMemory),
        Err(fault) => Err(OneStop::Fault(DescFault::Ssl(fault))),
    }
}

/// The conventions that a text describes over a machine.
fn read_conventions(
    alloc: Global,
    text: &[u8],
    encodings: &Encodings,
    named: &NamedMachine,
) -> Result<Conv, OneStop>
    requires short { length text.now < 2 ^ 32 - 1 }
    requires sound { AreSound encodings.now named.now.machine }
    requires names { NamesItsCells named.now }
    ensures read { IfOk result (λ conv. AreConventionsOf encodings.now named.now text.now conv) }
    ensures sound { IfOk result (λ conv. AreSoundTogether encodings.now named.now.machine conv) }
    ensures fault { IfErr result (λ stop. StoppedBy (IsConvFault encodings.now named.now text.now) stop) }
{
    let lines = match read_conv(alloc, text) {
        Ok(lines) => lines,
        Err(fault) => return Err(of_form(fault)),
    };
    match normal_conv(alloc, lines.as_slice(), encodings, named) {
        Ok(conv) => Ok(conv),
        Err(ConvFault::NoMemory) => Err(OneStop::NoMemory),
        Err(fault) => Err(OneStop::Fault(DescFault::Conv(fault))),
    }
}

/// The machine that three texts describe: encodings, then instructions, then conventions, each read whole and then
/// checked before the next is looked into.
///
/// Else the first text with a fault and its first fault: a lexical one, the first line of no form, or the first check
/// that fails. `NoMemory` may come in place of any answer.
pub fn read_descriptions(
    alloc: Global,
    sled: &[u8],
    ssl: &[u8],
    conv: &[u8],
) -> Result<Described, Undescribed>
    requires sled { length sled.now < 2 ^ 32 - 1 }
    requires ssl { length ssl.now < 2 ^ 32 - 1 }
    requires conv { length conv.now < 2 ^ 32 - 1 }
    ensures described { IfOk result (λ d. Describe sled.now ssl.now conv.now d) }
    ensures sound { IfOk result (λ d. AreSoundTogether d.encodings d.named.machine d.conv) }
    ensures fault { IfErr result (λ u. IsUndescribed sled.now ssl.now conv.now u) }
{
    let encodings = match read_encodings(alloc, sled) {
        Ok(encodings) => encodings,
        Err(OneStop::Fault(fault)) => return Err(Undescribed::Sled(fault)),
        Err(OneStop::NoMemory) => return Err(Undescribed::NoMemory),
    };
    let named = match read_machine(alloc, ssl, &encodings) {
        Ok(named) => named,
        Err(OneStop::Fault(fault)) => return Err(Undescribed::Ssl(fault)),
        Err(OneStop::NoMemory) => return Err(Undescribed::NoMemory),
    };
    let conv = match read_conventions(alloc, conv, &encodings, &named) {
        Ok(conv) => conv,
        Err(OneStop::Fault(fault)) => return Err(Undescribed::Conv(fault)),
        Err(OneStop::NoMemory) => return Err(Undescribed::NoMemory),
    };
    Ok(Described {
        encodings,
        named,
        conv,
    })
}
