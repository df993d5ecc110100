ghost use Rattle.std.specs.Prelude.{◌≡◌};
ghost use Rattle.line_reading.specs.Readings.{Told};
ghost use Rattle.ssl_syntax.specs.ExprReaders.{read_index, index_token};

use super::words::is_free;
use line_reading::signs::CLOSE_BRACKET;
use line_reading::{Cursor, Stop};
use sqlite_items::Items;
use std::alloc::Global;
use text_lex::Token;

/// What stands between the brackets behind a name.
#[derive(Debug, Drop)]
pub enum Index {
    Number(u64),
    /// The name of an operand.
    Op(Items<u8>),
}

/// Goes past a number or the name of an operand.
fn read_token(alloc: Global, cursor: &mut Cursor<'_>) -> Result<Index, Stop>
    ensures { Told result cursor.new.rest.now (index_token cursor.old.rest.now) }
{
    match cursor.rest.split_first() {
        Some((Token::Number(value), rest)) => {
            cursor.rest = rest;
            Ok(Index::Number(*value))
        },
        Some((Token::Name(letters), rest)) => {
            if !is_free(letters.as_slice()) {
                return Err(Stop::Malformed);
            }
            cursor.rest = rest;
            Ok(Index::Op(Items::from_slice(alloc, letters.as_slice())?))
        },
        _ => Err(Stop::Malformed),
    }
}

/// `NUMBER ]` or `OP ]`.
#[tactic(auto, using(line_reading::proofs::Stops::stop_laws), unfolding(crate::specs::ExprReaders::read_index))]
pub fn read_index(alloc: Global, cursor: &mut Cursor<'_>) -> Result<Index, Stop>
    ensures { Told result cursor.new.rest.now (read_index cursor.old.rest.now) }
{
    let index = read_token(alloc, cursor)?;
    cursor.sign(CLOSE_BRACKET)?;
    Ok(index)
}
