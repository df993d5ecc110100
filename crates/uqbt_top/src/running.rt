//! The command `run`: the described machine, run on the input.
ghost use Rattle.std.specs.Prelude.{◌≡◌, ◌<◌, ◌-◌, ◌^◌, length, All, IfOk, IfErr, OnErr};
ghost use Rattle.rtl_core.specs.SoundConv.{AreSoundTogether};
ghost use Rattle.points.specs.Machine.{machine_run};
ghost use Rattle.space.specs.Ranges.{memory_of};
ghost use Rattle.load_image.specs.Mapped.{AreBuildable};
ghost use Rattle.points.specs.Bundles.{IsSoundSetting, setting_of};
ghost use Rattle.uqbt_top.specs.Built.{IsReady};
ghost use Rattle.command_words.specs.Forms.{Run, file_names};
ghost use Rattle.uqbt_top.specs.Causes.{CommandCaused};
ghost use Rattle.uqbt_top.specs.Running.{HasMemory, LoadedRan, MachineRan, RunKeepsInput, RunKeepsOut, RunRead, TookSome, outcome_of_run};

use crate::Outcome;
use crate::built::{MOST_POINTS, TOO_LARGE, described, loaded};
use crate::input::whole_input;
use crate::reading::{Text, read_four};
use command_words::FileWords;
use decode::Bundle;
use descriptions::Described;
use edge_io::{Sink, Source, Store};
use load_image::Image;
use rtl_core::RunEnd;
use sled_match::Matcher;
use space::{Range, Space};
use std::alloc::Global;
use stepper::{Guest, line_ends};

/// Reads the files of an executable, and runs it.
pub fn run_files<F: Store, S: Source, K: Sink>(
    alloc: Global,
    names: &FileWords,
    steps: u64,
    files: &mut F,
    input: &mut S,
    out: &mut K,
) -> Result<RunEnd, Outcome>
    ensures caused { CommandCaused (Run (file_names names.now) steps)
        (record {
          told = F.files files.old;
          names = F.names files.old;
          names' = F.names files.new;
          input = S.input input.old;
          input' = S.input input.new;
          out = K.output out.old;
          out' = K.output out.new;
        }) (outcome_of_run result) }
    ensures refusal { RunKeepsOut (outcome_of_run result) (out.new ≡ out.old) }
    ensures files { F.files files.new ≡ F.files files.old }
    ensures input { RunKeepsInput (outcome_of_run result) (input.new ≡ input.old) }
{
    let texts = read_four(alloc, files, names)?;
    run_texts(alloc, texts.as_slice(), steps, input, out)
}

/// Runs an executable for some steps on the machine that three texts describe.
fn run_texts<S: Source, K: Sink>(
    alloc: Global,
    texts: &[Text],
    steps: u64,
    input: &mut S,
    out: &mut K,
) -> Result<RunEnd, Outcome>
    requires four { length texts.now ≡ 4 }
    requires short { All (λ t. length t < 2 ^ 32 - 1) texts.now }
    ensures caused { RunRead texts.now steps (S.input input.old) (S.input input.new)
        (K.output out.old) (K.output out.new) (outcome_of_run result) }
    ensures out { RunKeepsOut (outcome_of_run result) (out.new ≡ out.old) }
    ensures input { RunKeepsInput (outcome_of_run result) (input.new ≡ input.old) }
{
    let [sled, ssl, conv, exe] = texts else {
        unreachable!()
    };
    let on = described(alloc, sled.bytes(), ssl.bytes(), conv.bytes())?;
    let image = loaded(alloc, exe.bytes(), &on)?;
    run_image(alloc, &on, &image, steps, input, out)
}

/// Runs an image on a described machine.
fn run_image<S: Source, K: Sink>(
    alloc: Global,
    on: &Described,
    image: &Image,
    steps: u64,
    input: &mut S,
    out: &mut K,
) -> Result<RunEnd, Outcome>
    requires sound { AreSoundTogether on.now.encodings on.now.named.machine on.now.conv }
    requires ready { IsReady image.now }
    requires memory { HasMemory on.now image.now }
    ensures did { LoadedRan on.now image.now steps (S.input input.old) (S.input input.new)
        (K.output out.old) (K.output out.new) (outcome_of_run result) }
    ensures out { RunKeepsOut (outcome_of_run result) (out.new ≡ out.old) }
    ensures input { RunKeepsInput (outcome_of_run result) (input.new ≡ input.old) }
{
    let matcher = Matcher::build(alloc, &on.encodings)?;
    let bundle = Bundle {
        machine: &on.named.machine,
        matcher: &matcher,
        conv: &on.conv,
        frozen: &image.frozen,
    };
    if !line_ends(alloc, &bundle, MOST_POINTS, image.entry)? {
        return Err(TOO_LARGE);
    }
    let bytes = whole_input(alloc, input)?;
    run_guest(
        alloc,
        &bundle,
        image.ranges.as_slice(),
        bytes.as_slice(),
        image.entry,
        steps,
        out,
    )
}

/// Runs a machine from its first instruction on, over a memory of ranges.
fn run_guest<K: Sink>(
    alloc: Global,
    on: &Bundle,
    ranges: &[Range],
    input: &[u8],
    entry: u32,
    steps: u64,
    out: &mut K,
) -> Result<RunEnd, Outcome>
    requires sound { IsSoundSetting (setting_of on.now) }
    requires ranges { AreBuildable ranges.now }
    ensures ran { IfOk result (MachineRan (machine_run (setting_of on.now) (memory_of ranges.now) entry input.now steps)
        (K.output out.old) (K.output out.new)) }
    ensures refused { IfErr result (λ o. o ≡ Outcome.NoMemory) }
    ensures front { OnErr result (TookSome (machine_run (setting_of on.now) (memory_of ranges.now) entry input.now steps)
        (K.output out.old) (K.output out.new)) }
{
    let Ok(space) = Space::build(alloc, ranges) else {
        return Err(Outcome::NoMemory);
    };
    let Ok(mut guest) = Guest::build(alloc, on, space, input, entry) else {
        return Err(Outcome::NoMemory);
    };
    Ok(guest.run(steps, out)?)
}
