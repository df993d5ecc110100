//! The call that does all that the program does.
ghost use Rattle.std.specs.Prelude.{◌≡◌, None};
ghost use Rattle.edge_io.specs.Output.{TookFront};
ghost use Rattle.uqbt_top.specs.Command.{command_of};
ghost use Rattle.uqbt_top.specs.Causes.{Caused, OnNoInput, OnRefusal, outcome_of};
ghost use Rattle.uqbt_top.specs.Running.{outcome_of_run};
ghost use Rattle.uqbt_top.specs.Fed.{TooLongIsExact};
ghost use Rattle.uqbt_top.specs.Longest.{LongIsExact};
ghost use Rattle.uqbt_top.specs.Message.{message_of};

use crate::Outcome;
use crate::checking::check_files;
use crate::message::tell;
use crate::running::run_files;
use crate::shipping::put_text;
use crate::translating::translate_files;
use command_words::{Command, form_of};
use edge_io::{Sink, Source, Store, Word};
use rtl_core::RunEnd;
use std::alloc::Global;

/// Does what the words say, over the files, the input and the sinks that are handed in, and tells the answer
/// in one line of `messages`. The words are those behind the program's name: `translate SLED SSL CONV EXE`
/// puts the C text of an executable to `out`; `run SLED SSL CONV EXE N` runs N instructions of it on the input, and
/// puts what they write to `out`; `check SLED SSL CONV` reads and checks three descriptions; `text NAME` puts a text that is
/// shipped to `out`.
pub fn uqbt_main<F: Store, S: Source, K: Sink, M: Sink>(
    alloc: Global,
    words: &[Word],
    files: &mut F,
    input: &mut S,
    out: &mut K,
    messages: &mut M,
) -> Outcome
    // When each answer comes, what was read and what was written.
    ensures caused { Caused words.now (record {
      told = F.files files.old;
      names = F.names files.old;
      names' = F.names files.new;
      input = S.input input.old;
      input' = S.input input.new;
      out = K.output out.old;
      out' = K.output out.new;
    }) result }
    ensures long { LongIsExact (F.files files.old) words.now (F.names files.old) (F.names files.new) result }
    ensures too_long { TooLongIsExact (S.input input.old) (S.input input.new) result }
    ensures refusal { OnRefusal (command_of words.now) result (out.new ≡ out.old) }
    ensures files { F.files files.new ≡ F.files files.old }
    ensures input { OnNoInput (command_of words.now) result (input.new ≡ input.old) }
    ensures message { TookFront (M.output messages.old) (M.output messages.new) (message_of result None) }
{
    let outcome = act(alloc, words, files, input, out);
    tell(messages, &outcome, None);
    outcome
}

/// What the words ask for: one line for each command that is there.
fn act<F: Store, S: Source, K: Sink>(
    alloc: Global,
    words: &[Word],
    files: &mut F,
    input: &mut S,
    out: &mut K,
) -> Outcome
    ensures caused { Caused words.now (record {
      told = F.files files.old;
      names = F.names files.old;
      names' = F.names files.new;
      input = S.input input.old;
      input' = S.input input.new;
      out = K.output out.old;
      out' = K.output out.new;
    }) result }
    ensures refusal { OnRefusal (command_of words.now) result (out.new ≡ out.old) }
    ensures files { F.files files.new ≡ F.files files.old }
    ensures input { OnNoInput (command_of words.now) result (input.new ≡ input.old) }
{
    match form_of(words) {
        Some(Command::Translate(names)) => answered(translate_files(alloc, &names, files, out)),
        Some(Command::Run(names, steps)) => {
            ran(run_files(alloc, &names, steps, files, input, out))
        }
        Some(Command::Check(names)) => answered(check_files(alloc, &names, files)),
        Some(Command::Text(name)) => put_text(name, out),
        _ => Outcome::Usage,
    }
}

/// A private answer as one of the program.
fn answered(told: Result<(), Outcome>) -> Outcome
    ensures { result ≡ outcome_of told }
{
    match told {
        Ok(()) => Outcome::Done,
        Err(outcome) => outcome,
    }
}

/// The same of a run.
fn ran(told: Result<RunEnd, Outcome>) -> Outcome
    ensures { result ≡ outcome_of_run told }
{
    match told {
        Ok(RunEnd::Stopped(stop)) => Outcome::Ran(stop),
        Ok(RunEnd::Spent) => Outcome::Spent,
        Ok(RunEnd::WriteFault) => Outcome::WriteFault,
        Err(outcome) => outcome,
    }
}
