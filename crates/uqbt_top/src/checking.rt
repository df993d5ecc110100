//! The command `check`.
ghost use Rattle.std.specs.Prelude.{◌≡◌, ◌<◌, ◌-◌, ◌^◌, length, All};
ghost use Rattle.command_words.specs.Forms.{Check, text_names};
ghost use Rattle.edge_io.specs.Input.{Input};
ghost use Rattle.edge_io.specs.Output.{Output};
ghost use Rattle.uqbt_top.specs.Causes.{CommandCaused, outcome_of};
ghost use Rattle.uqbt_top.specs.Checking.{CheckRead};

use crate::Outcome;
use crate::built::described;
use crate::reading::{Text, read_three};
use command_words::TextWords;
use edge_io::Store;
use std::alloc::Global;

/// Reads and checks three descriptions.
pub fn check_files<F: Store>(
    alloc: Global,
    names: &TextWords<'_>,
    files: &mut F,
) -> Result<(), Outcome>
    ensures caused { (input : Input) → (out : Output) → CommandCaused (Check (text_names names.now))
        (record {
          told = F.files files.old;
          names = F.names files.old;
          names' = F.names files.new;
          input = input;
          input' = input;
          out = out;
          out' = out;
        }) (outcome_of result) }
    ensures files { F.files files.new ≡ F.files files.old }
{
    let texts = read_three(alloc, files, names)?;
    check_texts(alloc, texts.as_slice())
}

/// Checks three descriptions.
fn check_texts(alloc: Global, texts: &[Text]) -> Result<(), Outcome>
    requires three { length texts.now ≡ 3 }
    requires short { All (λ t. length t < 2 ^ 32 - 1) texts.now }
    ensures caused { (out : Output) → CheckRead texts.now out out (outcome_of result) }
{
    let [sled, ssl, conv] = texts else {
        unreachable!()
    };
    described(alloc, sled.bytes(), ssl.bytes(), conv.bytes())?;
    Ok(())
}
