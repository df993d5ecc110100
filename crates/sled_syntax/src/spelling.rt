//! Lines as their tokens.
ghost use Rattle.std.specs.Prelude.{◌≡◌, [], ◌∷◌, ◌++◌, IfOk, OnOk};
ghost use Rattle.text_lex.specs.declared.token.Token.TheVariants as token;
ghost use Rattle.line_reading.specs.Signs.{ampersand, bar, comma, semicolon};
ghost use Rattle.line_reading.specs.Spelling.{each_behind, listed, name_toks};
ghost use Rattle.sled_syntax.specs.Lines.{body_toks, field_toks, fields_toks, item_toks, part_toks, pattern_toks, is_word, rest_toks, sequence_toks, token_toks, type_toks};

use super::line::{FieldDef, Part, SledBody, SledItem, SledPattern};
use line_reading::signs::{
    AMPERSAND, BAR, CLOSE_PAREN, COLON, DIFFERS, DOTS, EQUALS, OPEN_PAREN, SEMICOLON,
};
use line_reading::{put_name, put_names, put_number, put_sign};
use sqlite_items::Items;
use std::alloc::{AllocError, Global};
use text_lex::Token;

/// Puts `NAME LO : HI` behind the tokens.
fn put_field(alloc: Global, out: &mut Items<Token>, field: &FieldDef) -> Result<(), AllocError>
    ensures { OnOk result (out.new ≡ out.old ++ field_toks field.now) }
{
    put_name(alloc, out, field.name.as_slice())?;
    put_number(out, field.lo)?;
    put_sign(out, COLON)?;
    put_number(out, field.hi)
}

/// Puts a name, a sign and a number behind the tokens.
fn put_test(
    alloc: Global,
    out: &mut Items<Token>,
    name: &[u8],
    index: u8,
    value: u64,
) -> Result<(), AllocError>
    ensures { OnOk result (out.new ≡ out.old ++ token.Name name.now ∷ token.Sign index ∷ token.Number value ∷ []) }
{
    put_name(alloc, out, name)?;
    put_sign(out, index)?;
    put_number(out, value)
}

/// Puts a part behind the tokens.
fn put_part(alloc: Global, out: &mut Items<Token>, part: &Part) -> Result<(), AllocError>
    ensures { OnOk result (out.new ≡ out.old ++ part_toks part.now) }
{
    match part {
        Part::Equal(name, value) => put_test(alloc, out, name.as_slice(), EQUALS, *value),
        Part::Differs(name, value) => put_test(alloc, out, name.as_slice(), DIFFERS, *value),
        Part::Lone(name) => put_name(alloc, out, name.as_slice()),
    }
}

/// Puts fields behind the tokens.
fn put_fields(alloc: Global, out: &mut Items<Token>, fields: &[FieldDef]) -> Result<(), AllocError>
    ensures { OnOk result (out.new ≡ out.old ++ fields_toks fields.now) }
{
    for field in fields {
        put_field(alloc, out, field)?;
    }
    Ok(())
}

/// Puts parts with `&` between them behind the tokens.
fn put_parts(alloc: Global, out: &mut Items<Token>, parts: &[Part]) -> Result<(), AllocError>
    ensures { OnOk result (out.new ≡ out.old ++ listed ampersand part_toks parts.now) }
{
    let Some((first, rest)) = parts.split_first() else {
        return Ok(());
    };
    put_part(alloc, out, first)?;
    for part in rest {
        put_sign(out, AMPERSAND)?;
        put_part(alloc, out, part)?;
    }
    Ok(())
}

/// Puts `... & NAME` behind the tokens, where there is a name.
fn put_rest(
    alloc: Global,
    out: &mut Items<Token>,
    rest: &Option<Items<u8>>,
) -> Result<(), AllocError>
    ensures { OnOk result (out.new ≡ out.old ++ rest_toks rest.now) }
{
    match rest {
        None => Ok(()),
        Some(name) => {
            put_sign(out, DOTS)?;
            put_sign(out, AMPERSAND)?;
            put_name(alloc, out, name.as_slice())
        },
    }
}

/// Puts an item behind the tokens.
fn put_item(alloc: Global, out: &mut Items<Token>, item: &SledItem) -> Result<(), AllocError>
    ensures { OnOk result (out.new ≡ out.old ++ item_toks item.now) }
{
    put_parts(alloc, out, item.parts.as_slice())?;
    put_rest(alloc, out, &item.rest)
}

/// Puts items with `;` between them behind the tokens.
fn put_sequence(alloc: Global, out: &mut Items<Token>, items: &[SledItem]) -> Result<(), AllocError>
    ensures { OnOk result (out.new ≡ out.old ++ sequence_toks items.now) }
{
    let Some((first, rest)) = items.split_first() else {
        return Ok(());
    };
    put_item(alloc, out, first)?;
    for item in rest {
        put_sign(out, SEMICOLON)?;
        put_item(alloc, out, item)?;
    }
    Ok(())
}

/// Puts alternatives with `|` between them behind the tokens.
fn put_alternatives(
    alloc: Global,
    out: &mut Items<Token>,
    alternatives: &[Items<SledItem>],
) -> Result<(), AllocError>
    ensures { OnOk result (out.new ≡ out.old ++ listed bar sequence_toks alternatives.now) }
{
    let Some((first, rest)) = alternatives.split_first() else {
        return Ok(());
    };
    put_sequence(alloc, out, first.as_slice())?;
    for items in rest {
        put_sign(out, BAR)?;
        put_sequence(alloc, out, items.as_slice())?;
    }
    Ok(())
}

/// Puts `NAME is P` behind the tokens.
fn put_is(alloc: Global, out: &mut Items<Token>, pattern: &SledPattern) -> Result<(), AllocError>
    ensures { OnOk result (out.new ≡ out.old ++ token.Name is_word ∷ pattern_toks pattern.now) }
{
    put_name(alloc, out, b"is")?;
    put_alternatives(alloc, out, pattern.alternatives.as_slice())
}

/// Puts `: TYPE` behind the tokens, where there is a type.
fn put_type(
    alloc: Global,
    out: &mut Items<Token>,
    of_type: &Option<Items<u8>>,
) -> Result<(), AllocError>
    ensures { OnOk result (out.new ≡ out.old ++ type_toks of_type.now) }
{
    match of_type {
        None => Ok(()),
        Some(name) => {
            put_sign(out, COLON)?;
            put_name(alloc, out, name.as_slice())
        },
    }
}

/// Puts `fields of TOKEN ( W )` behind the tokens.
fn put_token(
    alloc: Global,
    out: &mut Items<Token>,
    token: &[u8],
    width: u64,
) -> Result<(), AllocError>
    ensures { OnOk result (out.new ≡ out.old ++ token_toks token.now width) }
{
    put_name(alloc, out, b"fields")?;
    put_name(alloc, out, b"of")?;
    put_name(alloc, out, token)?;
    put_sign(out, OPEN_PAREN)?;
    put_number(out, width)?;
    put_sign(out, CLOSE_PAREN)
}

/// Puts a word and a name behind the tokens.
fn put_words(
    alloc: Global,
    out: &mut Items<Token>,
    word: &[u8],
    name: &[u8],
) -> Result<(), AllocError>
    ensures { OnOk result (out.new ≡ out.old ++ token.Name word.now ∷ token.Name name.now ∷ []) }
{
    put_name(alloc, out, word)?;
    put_name(alloc, out, name)
}

/// Puts a line behind the tokens.
fn put_body(alloc: Global, out: &mut Items<Token>, body: &SledBody) -> Result<(), AllocError>
    ensures { OnOk result (out.new ≡ out.old ++ body_toks body.now) }
{
    match body {
        SledBody::ByteOrder { big } => {
            put_words(alloc, out, b"order", if *big { b"big" } else { b"little" })
        },
        SledBody::Fields {
            token,
            width,
            fields,
        } => {
            put_token(alloc, out, token.as_slice(), *width)?;
            put_fields(alloc, out, fields.as_slice())
        },
        SledBody::Pattern { name, pattern } => {
            put_words(alloc, out, b"pattern", name.as_slice())?;
            put_is(alloc, out, pattern)
        },
        SledBody::Constructor {
            name,
            ops,
            of_type,
            pattern,
        } => {
            put_words(alloc, out, b"constructor", name.as_slice())?;
            put_names(alloc, out, ops.as_slice())?;
            put_type(alloc, out, of_type)?;
            put_is(alloc, out, pattern)
        },
    }
}

/// The tokens that spell a line.
pub fn spell(alloc: Global, body: &SledBody) -> Result<Items<Token>, AllocError>
    ensures { IfOk result (λ tokens. tokens ≡ body_toks body.now) }
{
    let mut out = Items::new(alloc);
    put_body(alloc, &mut out, body)?;
    Ok(out)
}
