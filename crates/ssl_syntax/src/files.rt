ghost use Rattle.std.specs.Prelude.{◌≡◌};
ghost use Rattle.line_reading.specs.Readings.{Told};
ghost use Rattle.ssl_syntax.specs.LineReaders.{read_file_head};

use line_reading::signs::{CLOSE_BRACKET, OPEN_BRACKET};
use line_reading::{Cursor, Stop};
use sqlite_items::Items;
use std::alloc::Global;

/// The name of a file, how many parts it has, and their width.
#[derive(Debug, Drop)]
pub struct FileHead {
    pub name: Items<u8>,
    pub count: u64,
    pub width: u64,
}

/// `NAME [ N ] W`.
#[tactic(auto, using(line_reading::proofs::Stops::stop_laws), unfolding(crate::specs::LineReaders::read_file_head))]
pub fn read_file_head(alloc: Global, cursor: &mut Cursor<'_>) -> Result<FileHead, Stop>
    ensures { Told result cursor.new.rest.now (read_file_head cursor.old.rest.now) }
{
    let name = cursor.any_name(alloc)?;
    cursor.sign(OPEN_BRACKET)?;
    let count = cursor.number()?;
    cursor.sign(CLOSE_BRACKET)?;
    let width = cursor.number()?;
    Ok(FileHead { name, count, width })
}
