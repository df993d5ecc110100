//! The command `translate`.
ghost use Rattle.std.specs.Prelude.{◌≡◌, ◌<◌, ◌-◌, ◌^◌, length, All, IfOk, IfErr};
ghost use Rattle.c_lang.specs.Spellable.{HasSpelling};
ghost use Rattle.c_text.specs.Spells.{Spells};
ghost use Rattle.command_words.specs.Forms.{Translate, file_names};
ghost use Rattle.edge_io.specs.Input.{Input};
ghost use Rattle.uqbt_top.specs.Causes.{CommandCaused, outcome_of};
ghost use Rattle.uqbt_top.specs.Translating.{TranslateKeepsOut, TranslateRead};

use crate::Outcome;
use crate::built::translated;
use crate::reading::{Text, read_four};
use c_lang::Program;
use c_text::write_c;
use command_words::FileWords;
use edge_io::{Sink, Store};
use gathering::Gather;
use std::alloc::Global;

/// Translates the executable.
pub fn translate_files<F: Store, K: Sink>(
    alloc: Global,
    names: &FileWords,
    files: &mut F,
    out: &mut K,
) -> Result<(), Outcome>
    ensures caused { (input : Input) → CommandCaused (Translate (file_names names.now))
        (record {
          told = F.files files.old;
          names = F.names files.old;
          names' = F.names files.new;
          input = input;
          input' = input;
          out = K.output out.old;
          out' = K.output out.new;
        }) (outcome_of result) }
    ensures refusal { TranslateKeepsOut (outcome_of result) (out.new ≡ out.old) }
    ensures files { F.files files.new ≡ F.files files.old }
{
    let texts = read_four(alloc, files, names)?;
    write_program(alloc, texts.as_slice(), out)
}

// Writes the C text of the executable on the described machine. All of it is gathered before any is put out.
fn write_program<K: Sink>(alloc: Global, texts: &[Text], out: &mut K) -> Result<(), Outcome>
    requires four { length texts.now ≡ 4 }
    requires short { All (λ t. length t < 2 ^ 32 - 1) texts.now }
    ensures caused { TranslateRead texts.now (K.output out.old) (K.output out.new) (outcome_of result) }
    ensures refusal { TranslateKeepsOut (outcome_of result) (out.new ≡ out.old) }
{
    let [sled, ssl, conv, exe] = texts else {
        unreachable!()
    };
    let program = translated(alloc, sled.bytes(), ssl.bytes(), conv.bytes(), exe.bytes())?;
    let text = text_of(alloc, &program)?;
    match text.finish(out) {
        Ok(()) => Ok(()),
        Err(_) => Err(Outcome::WriteFault),
    }
}

// A C text of the program, gathered in memory.
fn text_of(alloc: Global, program: &Program) -> Result<Gather, Outcome>
    requires { HasSpelling program.now }
    ensures text { IfOk result (λ text. Spells text.bytes program.now) }
    ensures no_memory { IfErr result (λ o. o ≡ Outcome.NoMemory) }
{
    let mut text = Gather::new(alloc);
    match write_c(program, &mut text) {
        Ok(()) => Ok(text),
        Err(_) => Err(Outcome::NoMemory),
    }
}
