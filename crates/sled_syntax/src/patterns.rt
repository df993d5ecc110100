//! Readers of patterns and of what stands in them.
ghost use Rattle.line_reading.specs.Signs.{ampersand, bar, semicolon};
ghost use Rattle.line_reading.specs.Readings.{Told, items};
ghost use Rattle.sled_syntax.specs.LineReaders.{part_behind, read_item, read_part, read_pattern, read_rest, read_sequence};

use super::line::{Part, SledItem, SledPattern};
use line_reading::signs::{AMPERSAND, BAR, DIFFERS, DOTS, EQUALS, SEMICOLON};
use line_reading::{Cursor, Stop};
use sqlite_items::Items;
use std::alloc::Global;

/// `= NUMBER`, `!= NUMBER` or nothing behind a name.
#[tactic(auto, using(line_reading::proofs::Stops::stop_laws), unfolding(crate::specs::LineReaders::part_behind))]
fn part_behind(name: Items<u8>, cursor: &mut Cursor<'_>) -> Result<Part, Stop>
    ensures { Told result cursor.new.rest.now (part_behind name cursor.old.rest.now) }
{
    if cursor.take_sign(EQUALS) {
        let value = cursor.number()?;
        return Ok(Part::Equal(name, value));
    }
    if cursor.take_sign(DIFFERS) {
        let value = cursor.number()?;
        return Ok(Part::Differs(name, value));
    }
    Ok(Part::Lone(name))
}

/// `NAME = NUMBER`, `NAME != NUMBER` or `NAME`.
#[tactic(auto, using(line_reading::proofs::Stops::stop_laws), unfolding(crate::specs::LineReaders::read_part))]
fn read_part(alloc: Global, cursor: &mut Cursor<'_>) -> Result<Part, Stop>
    ensures { Told result cursor.new.rest.now (read_part cursor.old.rest.now) }
{
    let name = cursor.any_name(alloc)?;
    part_behind(name, cursor)
}

/// `PART {& PART}`.
#[tactic(auto, using(line_reading::proofs::Loops::loop_laws))]
fn read_parts(alloc: Global, cursor: &mut Cursor<'_>) -> Result<Items<Part>, Stop>
    ensures { Told result cursor.new.rest.now (items ampersand read_part cursor.old.rest.now) }
{
    let mut parts = Items::new(alloc);
    let first = read_part(alloc, cursor)?;
    parts.push(first)?;
    'more: while cursor.take_sign(AMPERSAND) {
        let next = read_part(alloc, cursor)?;
        parts.push(next)?;
    }
    Ok(parts)
}

/// `... & NAME`, or nothing.
#[tactic(auto, using(line_reading::proofs::Stops::stop_laws), unfolding(crate::specs::LineReaders::read_rest))]
fn read_rest(alloc: Global, cursor: &mut Cursor<'_>) -> Result<Option<Items<u8>>, Stop>
    ensures { Told result cursor.new.rest.now (read_rest cursor.old.rest.now) }
{
    if !cursor.take_sign(DOTS) {
        return Ok(None);
    }
    cursor.sign(AMPERSAND)?;
    let name = cursor.any_name(alloc)?;
    Ok(Some(name))
}

/// Parts, and what goes on behind them.
#[tactic(auto, using(line_reading::proofs::Stops::stop_laws), unfolding(crate::specs::LineReaders::read_item))]
fn read_item(alloc: Global, cursor: &mut Cursor<'_>) -> Result<SledItem, Stop>
    ensures { Told result cursor.new.rest.now (read_item cursor.old.rest.now) }
{
    let parts = read_parts(alloc, cursor)?;
    let rest = read_rest(alloc, cursor)?;
    Ok(SledItem { parts, rest })
}

/// `ITEM {; ITEM}`.
#[tactic(auto, using(line_reading::proofs::Loops::loop_laws))]
fn read_sequence(alloc: Global, cursor: &mut Cursor<'_>) -> Result<Items<SledItem>, Stop>
    ensures { Told result cursor.new.rest.now (read_sequence cursor.old.rest.now) }
{
    let mut found = Items::new(alloc);
    let first = read_item(alloc, cursor)?;
    found.push(first)?;
    'more: while cursor.take_sign(SEMICOLON) {
        let next = read_item(alloc, cursor)?;
        found.push(next)?;
    }
    Ok(found)
}

/// `SEQ {| SEQ}`.
#[tactic(auto, using(line_reading::proofs::Loops::loop_laws))]
fn read_alternatives(alloc: Global, cursor: &mut Cursor<'_>) -> Result<Items<Items<SledItem>>, Stop>
    ensures { Told result cursor.new.rest.now (items bar read_sequence cursor.old.rest.now) }
{
    let mut alternatives = Items::new(alloc);
    let first = read_sequence(alloc, cursor)?;
    alternatives.push(first)?;
    'more: while cursor.take_sign(BAR) {
        let next = read_sequence(alloc, cursor)?;
        alternatives.push(next)?;
    }
    Ok(alternatives)
}

/// A pattern.
#[tactic(auto, using(line_reading::proofs::Stops::stop_laws), unfolding(crate::specs::LineReaders::read_pattern))]
pub fn read_pattern(alloc: Global, cursor: &mut Cursor<'_>) -> Result<SledPattern, Stop>
    ensures { Told result cursor.new.rest.now (read_pattern cursor.old.rest.now) }
{
    let alternatives = read_alternatives(alloc, cursor)?;
    Ok(SledPattern { alternatives })
}
