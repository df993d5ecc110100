//! Texts as their line values.
ghost use Rattle.std.specs.Prelude.{◌≡◌, ◌<◌, ◌-◌, ◌^◌, Bool, length, MatchResult};
ghost use Rattle.text_lex.specs.declared.token.LogicalLine.{LogicalLine};
ghost use Rattle.line_reading.specs.LineLists.{AreFaulty, AreRead, IsLineFault, IsReadFrom, Passes};
ghost use Rattle.line_reading.specs.Texts.{Denotes, IsFault};

use super::fault::SyntaxFault;
use sqlite_items::Items;
use std::alloc::Global;
use text_lex::{LexFault, lines};

/// The line values of one kind of description.
pub trait LineValue: Drop {
    /// The logical line that spells a value.
    ghost spelled: { Self → LogicalLine };

    /// Whether its parts are such as may stand in a line.
    ghost formed: { Self → Bool };

    /// The value that a logical line spells.
    ///
    /// `BadLine` tells the line's number where no line value is spelled by its tokens, `NoMemory` may come in place of any
    /// answer, and there is no other fault.
    fn read(alloc: Global, line: &text_lex::LogicalLine) -> Result<Self, SyntaxFault>
        ensures { MatchResult result (λ value. IsReadFrom spelled formed value line.now) (λ fault. IsLineFault spelled formed fault line.now) };
}

/// The values of lines, or the first line that has no form.
#[tactic(auto, using(crate::proofs::TextLaws::list_laws))]
fn read_values<L: LineValue>(
    alloc: Global,
    found: &[text_lex::LogicalLine],
) -> Result<Items<L>, SyntaxFault>
    ensures { MatchResult result (λ values. AreRead L.spelled L.formed values found.now) (λ fault. AreFaulty L.spelled L.formed fault found.now) }
{
    let mut values = Items::new(alloc);
    for line in found {
        let value = L::read(alloc, line)?;
        values.push(value)?;
    }
    Ok(values)
}

/// A fault of the lines of a text as one of its form.
fn passed(fault: LexFault) -> SyntaxFault
    ensures { Passes fault result }
{
    match fault {
        LexFault::BadByte { line } => SyntaxFault::Lex(LexFault::BadByte { line }),
        LexFault::LongLine { line } => SyntaxFault::Lex(LexFault::LongLine { line }),
        LexFault::ManyLines => SyntaxFault::Lex(LexFault::ManyLines),
        LexFault::NoMemory => SyntaxFault::NoMemory,
    }
}

/// The line values that a text denotes: the tokens of its k-th logical line are the spelling of the k-th value.
///
/// `Lex` is the text's one lexical fault. `BadLine` is the number of the first logical line that no line value spells.
/// `NoMemory` may come in place of any answer.
#[tactic(auto, using(crate::proofs::TextLaws::text_laws))]
pub fn read_text<L: LineValue>(alloc: Global, text: &[u8]) -> Result<Items<L>, SyntaxFault>
    requires { length text.now < 2 ^ 32 - 1 }
    ensures { MatchResult result (λ values. Denotes L.spelled L.formed text.now values) (λ fault. IsFault L.spelled L.formed text.now fault) }
{
    match lines(alloc, text) {
        Ok(found) => read_values(alloc, found.as_slice()),
        Err(fault) => Err(passed(fault)),
    }
}
