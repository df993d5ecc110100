//! The lines and tokens of a description: a text becomes its logical lines, each as its tokens.
#![tactic(auto)]

mod bytes;
mod lexeme;
mod line_tokens;
mod physical;
mod reading;
mod signs;
mod spelling;
mod token;

ghost use Rattle.std.specs.Prelude.{◌≡◌, ◌<◌, ◌-◌, ◌^◌, length, Ok, MatchResult};
ghost use Rattle.text_lex.specs.Faults.{IsFault, least_fault, lines};

use physical::{all_plain, split_line, uncommented};
use reading::Reading;
pub use spelling::{spelled_tokens, written_lines};
use sqlite_items::Items;
use std::alloc::Global;
pub use token::{LexFault, LogicalLine, Token};

/// The fault of the least line, by the first bad line, the first long line and the number of lines.
fn least_fault(bad: Option<u32>, long: Option<u32>, count: usize) -> Option<LexFault>
    ensures { result ≡ least_fault bad long count }
{
    match (bad, long) {
        (None, None) => {
            if count > 65535 {
                Some(LexFault::ManyLines)
            } else {
                None
            }
        },
        (Some(line), None) => Some(LexFault::BadByte { line }),
        (None, Some(line)) => Some(LexFault::LongLine { line }),
        (Some(bad), Some(long)) => {
            if bad <= long {
                Some(LexFault::BadByte { line: bad })
            } else {
                Some(LexFault::LongLine { line: long })
            }
        },
    }
}

/// The logical lines of a text as their tokens, or its one lexical fault.
///
/// A physical line ends at a line feed or at the end of the text; a carriage return just before the line feed belongs
/// to the end. `#` and what follows on its line is left out. A line of blanks alone is nothing; a line that starts with
/// a blank or a tab goes on with the logical line before it, joined by one blank.
///
/// The fault of the least line is told, `BadByte` before `LongLine` where both tell the same line, and `ManyLines` only
/// where there is no other. `NoMemory` may come in place of any answer.
pub fn lines(alloc: Global, text: &[u8]) -> Result<Items<LogicalLine>, LexFault>
    requires { length text.now < 2 ^ 32 - 1 }
    ensures { MatchResult result (λ found. lines text.now ≡ Ok found) (λ fault. IsFault fault (lines text.now)) }
{
    let mut reading = Reading::new(alloc);
    let mut bad: Option<u32> = None;
    let mut number: u32 = 1;
    let mut rest = text;
    'pass: loop {
        let split = split_line(rest);
        let bytes = uncommented(split.line);
        if bad.is_none() && !all_plain(bytes) {
            bad = Some(number);
        }
        reading.add(alloc, number, bytes)?;
        match split.behind {
            None => break,
            Some(behind) => rest = behind,
        }
        number += 1;
    }
    match least_fault(bad, reading.long, reading.lines.len()) {
        None => Ok(Items::from_vec(reading.lines)),
        Some(fault) => Err(fault),
    }
}
