//! Texts as their line values.
ghost use Rattle.std.specs.Prelude.{◌≡◌, ◌<◌, ◌-◌, ◌^◌, length, MatchResult};
ghost use Rattle.line_reading.specs.LineLists.{IsLineFault, IsReadFrom};
ghost use Rattle.line_reading.specs.Readings.{Told, whole_line};
ghost use Rattle.line_reading.specs.Texts.{Denotes, IsFault};
ghost use Rattle.ssl_syntax.specs.LineReaders.{read_body};
ghost use Rattle.ssl_syntax.specs.Texts.{LinesDiffer, is_line, spelled_line};

use super::line::{SslBody, SslLine};
use super::lines::read_body;
use line_reading::{Cursor, LineValue, Stop, SyntaxFault, read_text};
use sqlite_items::Items;
use std::alloc::Global;
use text_lex::LogicalLine;

/// What a line says, and nothing behind it.
#[tactic(auto, using(line_reading::proofs::Stops::stop_laws), unfolding(line_reading::specs::Readings::whole_line))]
fn read_line_only(alloc: Global, cursor: &mut Cursor<'_>) -> Result<SslBody, Stop>
    ensures { Told result cursor.new.rest.now (whole_line read_body cursor.old.rest.now) }
{
    let body = read_body(alloc, cursor)?;
    cursor.end()?;
    Ok(body)
}

/// The value of a line, or that it has no form.
#[tactic(auto, using(crate::proofs::LineLaws::value_laws))]
fn read_value(alloc: Global, line: &LogicalLine) -> Result<SslLine, SyntaxFault>
    ensures { MatchResult result (λ value. IsReadFrom spelled_line is_line value line.now) (λ fault. IsLineFault spelled_line is_line fault line.now) }
{
    let number = line.number;
    let mut cursor = Cursor {
        rest: line.tokens.as_slice(),
    };
    match read_line_only(alloc, &mut cursor) {
        Ok(body) => Ok(SslLine { number, body }),
        Err(Stop::Malformed) => Err(SyntaxFault::BadLine { line: number }),
        Err(Stop::NoMemory) => Err(SyntaxFault::NoMemory),
    }
}

impl LineValue for SslLine {
    ghost spelled = { spelled_line };

    ghost formed = { is_line };

    fn read(alloc: Global, line: &LogicalLine) -> Result<SslLine, SyntaxFault> {
        read_value(alloc, line)
    }
}

/// The line values that a text denotes: the tokens of its k-th logical line are the spelling of the k-th value.
///
/// `Lex` is the text's one lexical fault. `BadLine` is the number of the first logical line that no line value spells.
/// `NoMemory` may come in place of any answer.
pub fn read_ssl(alloc: Global, text: &[u8]) -> Result<Items<SslLine>, SyntaxFault>
    requires { length text.now < 2 ^ 32 - 1 }
    ensures { MatchResult result (λ values. Denotes spelled_line is_line text.now values) (λ fault. IsFault spelled_line is_line text.now fault) }
{
    read_text(alloc, text)
}

/// No two line values have one spelling.
#[tactic(auto, using(crate::proofs::LineLaws::lines_differ))]
pub fn lines_differ()
    ensures { LinesDiffer }
{}
