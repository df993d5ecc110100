//! Tokens put behind others: how values are spelled.
ghost use Rattle.std.specs.Prelude.{◌≡◌, [], ◌∷◌, ◌++◌, OnOk};
ghost use Rattle.text_lex.specs.declared.token.Token.TheVariants as token;
ghost use Rattle.line_reading.specs.Signs.{comma};
ghost use Rattle.line_reading.specs.Spelling.{each_behind, listed, name_toks};

use super::signs::COMMA;
use sqlite_items::Items;
use std::alloc::{AllocError, Global};
use text_lex::Token;

/// Puts a sign behind the tokens.
pub fn put_sign(out: &mut Items<Token>, index: u8) -> Result<(), AllocError>
    ensures { OnOk result (out.new ≡ out.old ++ token.Sign index ∷ []) }
{
    out.push(Token::Sign(index))
}

/// Puts a number behind the tokens.
pub fn put_number(out: &mut Items<Token>, value: u64) -> Result<(), AllocError>
    ensures { OnOk result (out.new ≡ out.old ++ token.Number value ∷ []) }
{
    out.push(Token::Number(value))
}

/// Puts a name behind the tokens.
pub fn put_name(alloc: Global, out: &mut Items<Token>, letters: &[u8]) -> Result<(), AllocError>
    ensures { OnOk result (out.new ≡ out.old ++ token.Name letters.now ∷ []) }
{
    let letters = Items::from_slice(alloc, letters)?;
    out.push(Token::Name(letters))
}

/// Puts names with commas between them behind the tokens.
#[tactic(auto)]
pub fn put_names(
    alloc: Global,
    out: &mut Items<Token>,
    names: &[Items<u8>],
) -> Result<(), AllocError>
    ensures { OnOk result (out.new ≡ out.old ++ listed comma name_toks names.now) }
{
    let Some((first, rest)) = names.split_first() else {
        return Ok(());
    };
    put_name(alloc, out, first.as_slice())?;
    for name in rest {
        put_sign(out, COMMA)?;
        put_name(alloc, out, name.as_slice())?;
    }
    Ok(())
}
