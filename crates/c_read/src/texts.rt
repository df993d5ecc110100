//! The items of a text, one after another.
ghost use Rattle.std.specs.Prelude.{◌<◌, ◌-◌, ◌^◌, MatchResult, length};
ghost use Rattle.c_read.specs.Drafts.{IsItemFault, IsPartsOf};

use super::draft::{add, no_items, parts_of};
use super::fault::CFault;
use super::items::read_piece;
use super::pieces::{Stage, is_over, next};
use c_rules::Parts;
use c_scan::{Cursor, Stop};
use std::alloc::Global;

/// The parts of a text of which these are the tokens behind the first line, or the first item that does not stand.
pub fn read_parts(alloc: Global, cursor: &mut Cursor<'_>) -> Result<Parts, CFault>
    requires { length cursor.old < 2 ^ 32 - 2 }
    ensures { MatchResult result (IsPartsOf cursor.old) (IsItemFault cursor.old) }
{
    let mut draft = no_items(alloc);
    let mut stage = Stage::Start;
    let mut index: u32 = 1;
    'more: while !is_over(stage) {
        let piece = match read_piece(alloc, cursor) {
            Ok(piece) => piece,
            Err(Stop::Malformed) => return Err(CFault::BadItem { index }),
            Err(Stop::NoMemory) => return Err(CFault::NoMemory),
        };
        stage = match next(stage, &piece) {
            Some(behind) => behind,
            None => return Err(CFault::BadItem { index }),
        };
        add(&mut draft, piece)?;
        index += 1;
    }
    if !cursor.at_end() {
        return Err(CFault::BadItem { index });
    }
    match parts_of(draft) {
        Some(parts) => Ok(parts),
        None => Err(CFault::BadItem { index }),
    }
}
