//! Lines as conventions.
ghost use Rattle.std.specs.Prelude.{◌≡◌, ◌≢◌, Ok, Err, IfOk, IfErr};
ghost use Rattle.std.specs.List.{list_any};
ghost use Rattle.rtl_core.specs.SoundConv.{AreSoundTogether, calls_service};
ghost use Rattle.rtl_core.specs.SoundTemplates.{is_tservice};
ghost use Rattle.rtl_core.specs.SoundMachine.{AreSound, NamesItsCells};
ghost use Rattle.conventions.specs.Normal.{normal, serves};

use super::checks::checked;
use super::fault::ConvFault;
use super::instructions::Instructions;
use super::known::Known;
use super::said::Said;
use conv_syntax::ConvLine;
use rtl_core::{Conv, Encodings, Machine, NamedMachine, TAct, TTransfer, Template};
use std::alloc::Global;

/// The transfer calls the service.
fn is_service(transfer: &TTransfer) -> bool
    ensures { result ≡ is_tservice transfer.now.act }
{
    matches!(transfer.act, TAct::Service)
}

/// Some transfer calls the service.
fn call_service(transfers: &[TTransfer]) -> bool
    ensures { result ≡ list_any (λ transfer. is_tservice transfer.act) transfers.now }
{
    transfers.iter().any(|transfer| is_service(transfer))
}

/// The template calls the service.
fn calls_service(template: &Template) -> bool
    ensures { result ≡ calls_service template.now }
{
    match template {
        Template::Acts(transfers) => call_service(transfers.as_slice()),
        _ => false,
    }
}

/// Some instruction calls the service.
fn serves(machine: &Machine) -> bool
    ensures { result ≡ serves machine.now }
{
    machine
        .forms
        .as_slice()
        .iter()
        .any(|form| calls_service(&form.template))
}

/// The conventions that lines give, or their first fault: that of the first line with one, and where no line has
/// one, that of the first kind that is missing.
fn normal_lines(
    alloc: Global,
    lines: &[ConvLine],
    enc: &Encodings,
    named: &NamedMachine,
) -> Result<Conv, ConvFault>
    ensures value { IfOk result (λ conv. normal enc.now named.now lines.now ≡ Ok conv) }
    ensures fault { IfErr result (λ fault. fault ≢ ConvFault.NoMemory → normal enc.now named.now lines.now ≡ Err fault) }
{
    let known = Known {
        named,
        instructions: Instructions::of(alloc, enc)?,
    };
    let mut said = Said::new(alloc);
    for line in lines {
        let fact = checked(&known, &said, line)?;
        said.add(fact)?;
    }
    said.finished(serves(&named.machine))
}

/// The conventions that the lines of a convention file give, or their first fault: that of the first line with one, and
/// where no line has one, the first kind of line that is missing. Where the encodings and the machine are sound and the
/// names name its cells, the conventions are sound for the machine.
///
/// On one line `Unknown` is told before `Twice`, `Twice` before `FieldRange`, and `FieldRange` before `WidthDiffers`,
/// which is told of the leftmost cell. Of an area that shares a byte with the other, the later line is told.
/// `NoMemory` may come in place of any answer.
pub fn normal_conv(
    alloc: Global,
    lines: &[ConvLine],
    enc: &Encodings,
    named: &NamedMachine,
) -> Result<Conv, ConvFault>
    ensures value { IfOk result (λ conv. normal enc.now named.now lines.now ≡ Ok conv) }
    ensures sound { AreSound enc.now named.now.machine → NamesItsCells named.now → IfOk result (λ conv. AreSoundTogether enc.now named.now.machine conv) }
    ensures fault { IfErr result (λ fault. fault ≢ ConvFault.NoMemory → normal enc.now named.now lines.now ≡ Err fault) }
{
    let conv = normal_lines(alloc, lines, enc, named)?;
    Ok(conv)
}
