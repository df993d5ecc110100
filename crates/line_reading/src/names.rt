//! Lists of names.
ghost use Rattle.line_reading.specs.Signs.{comma};
ghost use Rattle.line_reading.specs.Readings.{Told, any_name, in_parens, items};

use super::cursor::Cursor;
use super::signs::{CLOSE_PAREN, COMMA};
use super::stop::Stop;
use sqlite_items::Items;
use std::alloc::Global;

/// `NAME {, NAME}`.
#[tactic(auto, using(crate::proofs::Loops::loop_laws, crate::proofs::NameReads::name_laws))]
pub fn read_names(alloc: Global, cursor: &mut Cursor<'_>) -> Result<Items<Items<u8>>, Stop>
    ensures { Told result cursor.new.rest.now (items comma any_name cursor.old.rest.now) }
{
    let mut names = Items::new(alloc);
    let first = cursor.any_name(alloc)?;
    names.push(first)?;
    'more: while cursor.take_sign(COMMA) {
        let next = cursor.any_name(alloc)?;
        names.push(next)?;
    }
    Ok(names)
}

/// `NAMES? )` behind `(`.
#[tactic(auto, using(crate::proofs::Stops::stop_laws), unfolding(crate::specs::Readings::in_parens))]
pub fn read_names_in_parens(
    alloc: Global,
    cursor: &mut Cursor<'_>,
) -> Result<Items<Items<u8>>, Stop>
    ensures { Told result cursor.new.rest.now (in_parens any_name cursor.old.rest.now) }
{
    if cursor.take_sign(CLOSE_PAREN) {
        return Ok(Items::new(alloc));
    }
    let names = read_names(alloc, cursor)?;
    cursor.sign(CLOSE_PAREN)?;
    Ok(names)
}
