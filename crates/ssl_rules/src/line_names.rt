//! The names of a line.
ghost use Rattle.std.specs.Prelude.{◌≡◌};
ghost use Rattle.ssl_rules.specs.Names.{field_named, lone_named};
ghost use Rattle.ssl_rules.specs.LineScope.{scope};

use crate::name_table::NameTable;
use crate::tables::{Lone, Own, Tables};

/// Where the names of a line are looked up: among the line's own operands or parameters, and in the tables.
#[derive(Clone, Copy)]
pub struct LineNames<'a> {
    pub tables: &'a Tables,
    pub own: &'a NameTable<Own>,
}

impl LineNames<'_> {
    /// The place and the width of a field operand.
    pub fn field(&self, name: &[u8]) -> Option<(u8, u8)>
        ensures { result ≡ field_named (scope self.now) name.now }
    {
        self.own.get(name)?.field()
    }

    /// What a name without brackets stands for: an operand, a parameter or a cell.
    pub fn lone(&self, name: &[u8]) -> Option<Lone>
        ensures { result ≡ lone_named (scope self.now) name.now }
    {
        match self.own.get(name) {
            Some(own) => Some(Lone::Own(own)),
            None => self.tables.names.get(name)?.cell().map(Lone::Cell),
        }
    }
}
