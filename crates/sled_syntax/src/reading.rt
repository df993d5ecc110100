//! Texts as their line values.
ghost use Rattle.std.specs.Prelude.{◌≡◌, ◌<◌, ◌-◌, ◌^◌, length, MatchResult};
ghost use Rattle.line_reading.specs.Readings.{Told};
ghost use Rattle.line_reading.specs.LineLists.{IsLineFault, IsReadFrom};
ghost use Rattle.line_reading.specs.Texts.{Denotes, IsFault};
ghost use Rattle.sled_syntax.specs.Lines.{LinesDiffer, is_line, spelled_line};
ghost use Rattle.sled_syntax.specs.LineReaders.{read_line};

use super::line::{SledBody, SledLine};
use super::lines::read_body;
use line_reading::{Cursor, Stop, SyntaxFault, read_text};
use sqlite_items::Items;
use std::alloc::Global;
use text_lex::LogicalLine;

/// What a line says, and nothing behind it.
#[tactic(auto, using(line_reading::proofs::Stops::stop_laws), unfolding(line_reading::specs::Readings::whole_line))]
fn read_line(alloc: Global, cursor: &mut Cursor<'_>) -> Result<SledBody, Stop>
    ensures { Told result cursor.new.rest.now (read_line cursor.old.rest.now) }
{
    let body = read_body(alloc, cursor)?;
    cursor.end()?;
    Ok(body)
}

/// The value of a line, or that it has no form.
#[tactic(auto, using(crate::proofs::Values::value_laws))]
pub fn read_value(alloc: Global, line: &LogicalLine) -> Result<SledLine, SyntaxFault>
    ensures { MatchResult result (λ value. IsReadFrom spelled_line is_line value line.now) (λ fault. IsLineFault spelled_line is_line fault line.now) }
{
    let number = line.number;
    let mut cursor = Cursor {
        rest: line.tokens.as_slice(),
    };
    match read_line(alloc, &mut cursor) {
        Ok(body) => Ok(SledLine { number, body }),
        Err(Stop::Malformed) => Err(SyntaxFault::BadLine { line: number }),
        Err(Stop::NoMemory) => Err(SyntaxFault::NoMemory),
    }
}

/// The line values that a text denotes: the tokens of its k-th logical line are the spelling of the k-th value.
///
/// `Lex` is the text's one lexical fault. `BadLine` is the number of the first logical line that no line value spells.
/// `NoMemory` may come in place of any answer.
pub fn read_sled(alloc: Global, text: &[u8]) -> Result<Items<SledLine>, SyntaxFault>
    requires { length text.now < 2 ^ 32 - 1 }
    ensures { MatchResult result (λ values. Denotes spelled_line is_line text.now values) (λ fault. IsFault spelled_line is_line text.now fault) }
{
    read_text(alloc, text)
}

/// No two line values have one spelling.
#[tactic(auto, using(crate::proofs::Values::lines_differ))]
pub fn lines_differ()
    ensures { LinesDiffer }
{}
