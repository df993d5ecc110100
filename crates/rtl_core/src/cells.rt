//! The values of a machine's cells.
ghost use Rattle.std.specs.Prelude.{◌≡◌, ◌<◌, length};
ghost use Rattle.rtl_core.specs.Transfers.{put_cell};

use sqlite_items::Items;

/// One value for each cell, in their order.
#[derive(Debug, Drop)]
pub struct Cells {
    pub values: Items<u64>,
}

impl Cells {
    /// Puts a value into a cell; the zero cell, where there is one, stays.
    pub fn put(&mut self, zero: Option<u8>, cell: u8, value: u64)
        requires { cell < length self.old.values }
        ensures value { self.new.values ≡ put_cell zero cell value self.old.values }
        ensures count { length self.new.values ≡ length self.old.values }
    {
        if zero != Some(cell) {
            self.values.set(usize::from(cell), value);
        }
    }
}
