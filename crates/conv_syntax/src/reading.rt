//! Texts as their line values.
ghost use Rattle.std.specs.Prelude.{◌≡◌, ◌<◌, ◌-◌, ◌^◌, length, MatchResult};
ghost use Rattle.line_reading.specs.LineLists.{IsLineFault, IsReadFrom};
ghost use Rattle.line_reading.specs.Texts.{Denotes, IsFault};
ghost use Rattle.conv_syntax.specs.Lines.{LinesDiffer, is_line, spelled_line};

use super::line::ConvLine;
use super::lines::read_line_only;
use line_reading::{Cursor, LineValue, Stop, SyntaxFault, read_text};
use sqlite_items::Items;
use std::alloc::Global;
use text_lex::LogicalLine;

impl LineValue for ConvLine {
    ghost spelled = { spelled_line };

    ghost formed = { is_line };

    #[tactic(auto, using(crate::proofs::Values::value_laws))]
    fn read(alloc: Global, line: &LogicalLine) -> Result<ConvLine, SyntaxFault> {
        let number = line.number;
        let mut cursor = Cursor {
            rest: line.tokens.as_slice(),
        };
        match read_line_only(alloc, &mut cursor) {
            Ok(body) => Ok(ConvLine { number, body }),
            Err(Stop::Malformed) => Err(SyntaxFault::BadLine { line: number }),
            Err(Stop::NoMemory) => Err(SyntaxFault::NoMemory),
        }
    }
}

/// The line values that a convention file denotes: the tokens of its k-th logical line are the spelling of the k-th
/// value.
///
/// `Lex` is the text's one lexical fault. `BadLine` is the number of the first logical line that no line value spells.
/// `NoMemory` may come in place of any answer.
pub fn read_conv(alloc: Global, text: &[u8]) -> Result<Items<ConvLine>, SyntaxFault>
    requires { length text.now < 2 ^ 32 - 1 }
    ensures { MatchResult result (λ values. Denotes spelled_line is_line text.now values) (λ fault. IsFault spelled_line is_line text.now fault) }
{
    read_text(alloc, text)
}

/// No two line values have one spelling.
#[tactic(auto, using(crate::proofs::Values::lines_differ))]
pub fn lines_differ()
    ensures { LinesDiffer }
{}
