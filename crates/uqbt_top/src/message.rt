//! The line that tells an answer.
ghost use Rattle.std.specs.Prelude.{[], ◌∷◌, ◌++◌, map};
ghost use Rattle.edge_io.specs.Output.{TookFront};
ghost use Rattle.uqbt_top.specs.Message.{agreed_line, joined, line_of, message_of};
ghost use Rattle.uqbt_top.specs.Told.{told_words};

use crate::told::{Numbers, Told, description, difference, executable, stop};
use crate::{FileName, Outcome};
use c_text::hex_of;
use descriptions::DescFault;
use edge_io::{Sink, put_all};
use itoa::Buffer;
use rtl_core::Stop;

// Puts the pieces in order, up to the first fault.
fn put_pieces<M: Sink>(messages: &mut M, pieces: &[&[u8]])
    ensures { TookFront (M.output messages.old) (M.output messages.new) (joined (map (λ p. p.now) pieces.now)) }
{
    for piece in pieces {
        if put_all(messages, piece).is_err() {
            return;
        }
    }
}

// Puts a front, a blank, what is told, and a line feed.
fn tell_words<M: Sink>(messages: &mut M, front: &'static [u8], told: &Told)
    ensures { TookFront (M.output messages.old) (M.output messages.new) (front.now ++ (told_words told.now ++ 10 ∷ [])) }
{
    match told.numbers {
        Numbers::Nothing => put_pieces(messages, &[front, told.word, b"\n"]),
        Numbers::One(number) => {
            let mut buffer = Buffer::new();
            let digits = buffer.format(number).as_bytes();
            put_pieces(messages, &[front, told.word, b" ", digits, b"\n"]);
        }
        Numbers::Three(line, left, right) => {
            let mut buffers = (Buffer::new(), Buffer::new(), Buffer::new());
            let line = buffers.0.format(line).as_bytes();
            let left = buffers.1.format(left).as_bytes();
            let right = buffers.2.format(right).as_bytes();
            put_pieces(
                messages,
                &[front, told.word, b" ", line, b" ", left, b" ", right, b"\n"],
            );
        }
        Numbers::Address(address) => {
            let digits = hex_of(address);
            put_pieces(messages, &[front, told.word, b" 0x", &digits, b"\n"]);
        }
    }
}

const AGREED: &[u8] = b"uqbt: agreed ";

const STEPS: &[u8] = b" steps ";

// Puts the line of an agreement, with the steps of the C.
fn tell_steps<M: Sink>(messages: &mut M, end: &Stop, steps: u128)
    ensures { TookFront (M.output messages.old) (M.output messages.new) (agreed_line end.now steps) }
{
    let told = stop(end);
    let mut buffer = Buffer::new();
    let steps = buffer.format(steps).as_bytes();
    match told.numbers {
        Numbers::Nothing => {
            put_pieces(messages, &[AGREED, told.word, STEPS, steps, b"\n"]);
        }
        Numbers::One(number) => {
            let mut numbers = Buffer::new();
            let digits = numbers.format(number).as_bytes();
            put_pieces(
                messages,
                &[AGREED, told.word, b" ", digits, STEPS, steps, b"\n"],
            );
        }
        Numbers::Three(line, left, right) => {
            let mut numbers = (Buffer::new(), Buffer::new(), Buffer::new());
            let line = numbers.0.format(line).as_bytes();
            let left = numbers.1.format(left).as_bytes();
            let right = numbers.2.format(right).as_bytes();
            put_pieces(
                messages,
                &[
                    AGREED, told.word, b" ", line, b" ", left, b" ", right, STEPS, steps, b"\n",
                ],
            );
        }
        Numbers::Address(address) => {
            let digits = hex_of(address);
            put_pieces(
                messages,
                &[AGREED, told.word, b" 0x", &digits, STEPS, steps, b"\n"],
            );
        }
    }
}

// Puts the line of a difference.
fn tell_place<M: Sink>(messages: &mut M, at: u128)
    ensures { TookFront (M.output messages.old) (M.output messages.new) (line_of (Outcome.Differs at)) }
{
    tell_words(messages, b"uqbt: ", &difference(at));
}

// Puts the line for a fault of a description.
fn tell_description<M: Sink>(messages: &mut M, file: FileName, fault: &DescFault)
    ensures { TookFront (M.output messages.old) (M.output messages.new) (line_of (Outcome.Description file fault.now)) }
{
    let told = description(fault);
    match file {
        FileName::Sled => tell_words(messages, b"uqbt: description sled ", &told),
        FileName::Ssl => tell_words(messages, b"uqbt: description ssl ", &told),
        FileName::Conv => tell_words(messages, b"uqbt: description conv ", &told),
        FileName::Exe => tell_words(messages, b"uqbt: description exe ", &told),
        FileName::Prog => tell_words(messages, b"uqbt: description prog ", &told),
    }
}

/// Puts the line that tells the answer, or the front of it that the sink takes before it fails. An agreement may
/// come with the steps of the C.
pub fn tell<M: Sink>(messages: &mut M, outcome: &Outcome, steps: Option<u128>)
    ensures { TookFront (M.output messages.old) (M.output messages.new) (message_of outcome.now steps) }
{
    match (outcome, steps) {
        (Outcome::Agreed(end), Some(steps)) => tell_steps(messages, end, steps),
        _ => tell_line(messages, outcome),
    }
}

// Puts the line of an answer.
fn tell_line<M: Sink>(messages: &mut M, outcome: &Outcome)
    ensures { TookFront (M.output messages.old) (M.output messages.new) (line_of outcome.now) }
{
    match outcome {
        Outcome::Done => put_pieces(messages, &[b"uqbt: done\n"]),
        Outcome::Ran(end) => tell_words(messages, b"uqbt: ran ", &stop(end)),
        Outcome::Agreed(end) => tell_words(messages, b"uqbt: agreed ", &stop(end)),
        Outcome::Differs { at } => tell_place(messages, *at),
        Outcome::Spent => put_pieces(messages, &[b"uqbt: spent\n"]),
        Outcome::Usage => put_pieces(messages, &[b"uqbt: usage\n"]),
        Outcome::Description { file, fault } => tell_description(messages, *file, fault),
        Outcome::Executable(fault) => {
            tell_words(messages, b"uqbt: executable ", &executable(fault));
        }
        Outcome::InputTooLong => put_pieces(messages, &[b"uqbt: input-too-long\n"]),
        Outcome::FileTooLong { file } => {
            put_pieces(messages, &[b"uqbt: file-too-long ", file.word(), b"\n"]);
        }
        Outcome::NoMemory => put_pieces(messages, &[b"uqbt: no-memory\n"]),
        Outcome::WriteFault => put_pieces(messages, &[b"uqbt: write-fault\n"]),
        Outcome::ReadFault => put_pieces(messages, &[b"uqbt: read-fault\n"]),
    }
}
