//! Expressions by themselves.
ghost use Rattle.std.specs.Prelude.{◌≡◌, MatchResult};
ghost use Rattle.ssl_syntax.specs.Spells.{HasOneSpelling, IsExprOf};

use super::exprs::read_only;
use super::line::SslExpr;
use line_reading::{Cursor, Stop, SyntaxFault};
use std::alloc::Global;
use text_lex::Token;

/// The expression that the tokens spell, or None where they spell none.
///
/// A reserved word is the name of nothing in an expression, and each part stands inside at most 2,000 others.
/// `NoMemory` may come in place of any answer; there is no other fault.
#[tactic(auto, using(crate::proofs::Whole::whole_laws))]
pub fn read_expression(alloc: Global, tokens: &[Token]) -> Result<Option<SslExpr>, SyntaxFault>
    ensures { MatchResult result (λ found. IsExprOf found tokens.now) (λ fault. fault ≡ SyntaxFault.NoMemory) }
{
    let mut cursor = Cursor { rest: tokens };
    match read_only(alloc, &mut cursor) {
        Ok(expr) => Ok(Some(expr)),
        Err(Stop::Malformed) => Ok(None),
        Err(Stop::NoMemory) => Err(SyntaxFault::NoMemory),
    }
}

/// No two expressions have one spelling.
#[tactic(auto, using(crate::proofs::Whole::one_spelling))]
pub fn one_spelling()
    ensures { HasOneSpelling }
{}
