//! The names that a line may use.
ghost use Rattle.std.specs.Prelude.{◌≡◌, ◌||◌, is_some};
ghost use Rattle.ssl_rules.specs.Lookup.{is_among};
ghost use Rattle.ssl_rules.specs.LineScope.{scope};
ghost use Rattle.ssl_rules.specs.Names.{function_named, is_cell};
ghost use Rattle.ssl_rules.specs.Known.{is_known_field, is_known_file, is_known_lone};

use sqlite_items::Items;
use ssl_rules::LineNames;
use ssl_syntax::CellName;

/// The names that a line may use: those that are looked up, and its surplus operands, which are listed behind the
/// last that the constructor has.
#[derive(Clone, Copy)]
pub struct KnownNames<'a> {
    pub line: LineNames<'a>,
    pub surplus: &'a [Items<u8>],
}

impl KnownNames<'_> {
    /// Whether a name is that of a surplus operand.
    fn is_surplus(&self, name: &[u8]) -> bool
        ensures { result ≡ is_among name.now self.now.surplus.now }
    {
        for operand in self.surplus {
            if name == operand.as_slice() {
                return true;
            }
        }
        false
    }

    /// Whether a name may stand alone.
    pub fn is_lone(&self, name: &[u8]) -> bool
        ensures { result ≡ is_known_lone self.now.surplus.now (scope self.now.line) name.now }
    {
        self.is_surplus(name) || self.line.lone(name).is_some()
    }

    /// Whether a name may have an index.
    pub fn is_file(&self, name: &[u8]) -> bool
        ensures { result ≡ is_known_file self.now.surplus.now (scope self.now.line) name.now }
    {
        self.is_surplus(name) || self.line.tables.file(name).is_some()
    }

    /// Whether a name may be an index.
    pub fn is_field(&self, name: &[u8]) -> bool
        ensures { result ≡ is_known_field self.now.surplus.now (scope self.now.line) name.now }
    {
        self.is_surplus(name) || self.line.field(name).is_some()
    }

    /// Whether a name may be called.
    pub fn is_function(&self, name: &[u8]) -> bool
        ensures { result ≡ is_some (function_named (scope self.now.line).tables name.now) }
    {
        self.line.tables.function(name).is_some()
    }

    /// Whether bits of a cell may be assigned.
    pub fn is_cell(&self, cell: &CellName) -> bool
        ensures { result ≡ (is_among cell.now.name self.now.surplus.now || is_cell (scope self.now.line).tables cell.now) }
    {
        self.is_surplus(cell.name.as_slice()) || self.line.tables.is_cell(cell)
    }
}
