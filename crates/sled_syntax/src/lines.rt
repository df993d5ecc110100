//! Readers of lines by their first words.
ghost use Rattle.std.specs.Prelude.{◌≡◌};
ghost use Rattle.line_reading.specs.Readings.{Told};
ghost use Rattle.sled_syntax.specs.LineReaders.{begins_any_name, begins_ops, goes_on, read_behind, read_body, read_constructor, read_field, read_fields, read_named, read_ops, read_order, read_token, read_type};

use super::line::{FieldDef, SledBody};
use super::patterns::read_pattern;
use line_reading::signs::{CLOSE_PAREN, COLON, COMMA, OPEN_PAREN};
use line_reading::{Cursor, Stop, read_names};
use sqlite_items::Items;
use std::alloc::Global;
use text_lex::Token;

/// `NAME LO : HI`.
#[tactic(auto, using(line_reading::proofs::Stops::stop_laws), unfolding(crate::specs::LineReaders::read_field))]
fn read_field(alloc: Global, cursor: &mut Cursor<'_>) -> Result<FieldDef, Stop>
    ensures { Told result cursor.new.rest.now (read_field cursor.old.rest.now) }
{
    let name = cursor.any_name(alloc)?;
    let lo = cursor.number()?;
    cursor.sign(COLON)?;
    let hi = cursor.number()?;
    Ok(FieldDef { name, lo, hi })
}

/// The fields of a token, up to the end of the line.
#[tactic(auto, using(crate::proofs::FieldLoops::field_laws))]
fn read_fields(alloc: Global, cursor: &mut Cursor<'_>) -> Result<Items<FieldDef>, Stop>
    ensures { Told result cursor.new.rest.now (read_fields cursor.old.rest.now) }
{
    let mut fields = Items::new(alloc);
    'more: while !cursor.rest.is_empty() {
        let field = read_field(alloc, cursor)?;
        fields.push(field)?;
    }
    Ok(fields)
}

/// `big` or `little` behind `order`.
#[tactic(auto, using(line_reading::proofs::Stops::stop_laws), unfolding(crate::specs::LineReaders::read_order))]
fn read_order(cursor: &mut Cursor<'_>) -> Result<SledBody, Stop>
    ensures { Told result cursor.new.rest.now (read_order cursor.old.rest.now) }
{
    if cursor.take_name(b"big") {
        return Ok(SledBody::ByteOrder { big: true });
    }
    cursor.this_name(b"little")?;
    Ok(SledBody::ByteOrder { big: false })
}

/// `of TOKEN ( W )` and the fields behind `fields`.
#[tactic(auto, using(line_reading::proofs::Stops::stop_laws), unfolding(crate::specs::LineReaders::read_token))]
fn read_token(alloc: Global, cursor: &mut Cursor<'_>) -> Result<SledBody, Stop>
    ensures { Told result cursor.new.rest.now (read_token cursor.old.rest.now) }
{
    cursor.this_name(b"of")?;
    let token = cursor.any_name(alloc)?;
    cursor.sign(OPEN_PAREN)?;
    let width = cursor.number()?;
    cursor.sign(CLOSE_PAREN)?;
    let fields = read_fields(alloc, cursor)?;
    Ok(SledBody::Fields {
        token,
        width,
        fields,
    })
}

/// `NAME is P` behind `pattern`.
#[tactic(auto, using(line_reading::proofs::Stops::stop_laws), unfolding(crate::specs::LineReaders::read_named))]
fn read_named(alloc: Global, cursor: &mut Cursor<'_>) -> Result<SledBody, Stop>
    ensures { Told result cursor.new.rest.now (read_named cursor.old.rest.now) }
{
    let name = cursor.any_name(alloc)?;
    cursor.this_name(b"is")?;
    let pattern = read_pattern(alloc, cursor)?;
    Ok(SledBody::Pattern { name, pattern })
}

/// The next token is a name.
fn begins_any_name(tokens: &[Token]) -> bool
    ensures { result ≡ begins_any_name tokens.now }
{
    matches!(tokens.first(), Some(Token::Name(_)))
}

/// What is left, behind a name `is`, can stand behind an operand of that name.
fn goes_on(tokens: &[Token]) -> bool
    ensures { result ≡ goes_on tokens.now }
{
    let mut ahead = Cursor { rest: tokens };
    if ahead.take_sign(COMMA) || ahead.take_sign(COLON) {
        return true;
    }
    ahead.take_name(b"is") && begins_any_name(ahead.rest)
}

/// The tokens begin with operands.
#[tactic(auto, unfolding(crate::specs::LineReaders::begins_ops))]
fn begins_ops(tokens: &[Token]) -> bool
    ensures { result ≡ begins_ops tokens.now }
{
    match tokens.split_first() {
        Some((Token::Name(letters), rest)) => {
            if letters.as_slice() == b"is".as_slice() {
                goes_on(rest)
            } else {
                true
            }
        },
        _ => false,
    }
}

/// `OP {, OP}`, or nothing.
#[tactic(auto, unfolding(crate::specs::LineReaders::read_ops))]
fn read_ops(alloc: Global, cursor: &mut Cursor<'_>) -> Result<Items<Items<u8>>, Stop>
    ensures { Told result cursor.new.rest.now (read_ops cursor.old.rest.now) }
{
    if begins_ops(cursor.rest) {
        read_names(alloc, cursor)
    } else {
        Ok(Items::new(alloc))
    }
}

/// `: TYPE`, or nothing.
#[tactic(auto, using(line_reading::proofs::Stops::stop_laws), unfolding(crate::specs::LineReaders::read_type))]
fn read_type(alloc: Global, cursor: &mut Cursor<'_>) -> Result<Option<Items<u8>>, Stop>
    ensures { Told result cursor.new.rest.now (read_type cursor.old.rest.now) }
{
    if !cursor.take_sign(COLON) {
        return Ok(None);
    }
    let name = cursor.any_name(alloc)?;
    Ok(Some(name))
}

/// `NAME OPS? TYPED? is P` behind `constructor`.
#[tactic(auto, using(line_reading::proofs::Stops::stop_laws), unfolding(crate::specs::LineReaders::read_constructor))]
fn read_constructor(alloc: Global, cursor: &mut Cursor<'_>) -> Result<SledBody, Stop>
    ensures { Told result cursor.new.rest.now (read_constructor cursor.old.rest.now) }
{
    let name = cursor.any_name(alloc)?;
    let ops = read_ops(alloc, cursor)?;
    let of_type = read_type(alloc, cursor)?;
    cursor.this_name(b"is")?;
    let pattern = read_pattern(alloc, cursor)?;
    Ok(SledBody::Constructor {
        name,
        ops,
        of_type,
        pattern,
    })
}

/// What stands behind the first word of a line.
#[tactic(auto, unfolding(crate::specs::LineReaders::read_behind))]
fn read_behind(alloc: Global, word: &[u8], cursor: &mut Cursor<'_>) -> Result<SledBody, Stop>
    ensures { Told result cursor.new.rest.now (read_behind word.now cursor.old.rest.now) }
{
    if word == b"order".as_slice() {
        read_order(cursor)
    } else if word == b"fields".as_slice() {
        read_token(alloc, cursor)
    } else if word == b"pattern".as_slice() {
        read_named(alloc, cursor)
    } else if word == b"constructor".as_slice() {
        read_constructor(alloc, cursor)
    } else {
        Err(Stop::Malformed)
    }
}

/// What a line says, from its first token on.
#[tactic(auto, unfolding(crate::specs::LineReaders::read_body))]
pub fn read_body(alloc: Global, cursor: &mut Cursor<'_>) -> Result<SledBody, Stop>
    ensures { Told result cursor.new.rest.now (read_body cursor.old.rest.now) }
{
    match cursor.rest.split_first() {
        Some((Token::Name(letters), rest)) => {
            cursor.rest = rest;
            read_behind(alloc, letters.as_slice(), cursor)
        },
        _ => Err(Stop::Malformed),
    }
}
