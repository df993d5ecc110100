ghost use Rattle.std.specs.Prelude.{◌≡◌, ◌++◌, IfOk, IfErr, OnOk};
ghost use Rattle.text_lex.specs.Lexemes.{token_as};
ghost use Rattle.text_lex.specs.Tokens.{tokens_of};

use super::bytes::is_blank;
use super::lexeme::{Kind, front};
use super::token::{LexFault, Token};
use sqlite_items::Items;
use std::alloc::Global;

fn make_token(alloc: Global, kind: Kind, word: &[u8]) -> Result<Token, LexFault>
    ensures ok { IfOk result (λ token. token ≡ token_as kind word.now) }
    ensures err { IfErr result (λ fault. fault ≡ LexFault.NoMemory) }
{
    match kind {
        Kind::Name => Ok(Token::Name(Items::from_slice(alloc, word)?)),
        Kind::Number(value) => Ok(Token::Number(value)),
        Kind::Sign(index) => Ok(Token::Sign(index)),
        Kind::Bad => Ok(Token::Bad),
    }
}

/// Appends the tokens of a text. After an `Err` some of them may be there.
pub fn push_tokens(alloc: Global, text: &[u8], out: &mut Items<Token>) -> Result<(), LexFault>
    ensures ok { OnOk result (out.new ≡ out.old ++ tokens_of text.now) }
    ensures err { IfErr result (λ fault. fault ≡ LexFault.NoMemory) }
{
    let mut rest = text;
    while !rest.is_empty() {
        if is_blank(rest[0]) {
            let (_, behind) = rest.split_at(1);
            rest = behind;
            continue;
        }
        let lexeme = front(rest);
        let (word, behind) = rest.split_at(lexeme.len);
        let token = make_token(alloc, lexeme.kind, word)?;
        out.push(token)?;
        rest = behind;
    }
    Ok(())
}
