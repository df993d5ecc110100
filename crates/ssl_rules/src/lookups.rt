//! Looking names up in the tables.
ghost use Rattle.std.specs.Prelude.{◌≡◌, ◌≤◌};
ghost use Rattle.std.specs.Option.{option_copied};
ghost use Rattle.ssl_rules.specs.Widths.{cell_width};
ghost use Rattle.ssl_rules.specs.Formulas.{is_whole};
ghost use Rattle.ssl_rules.specs.Names.{cell_of_meaning, file_of_meaning, function_of_meaning, field_of, file_named, parts_named, part_named, function_named, is_cell, cell_of_file, cell_number};

use crate::tables::{Function, Meaning, Own, Tables};
use rtl_core::CellPart;
use ssl_syntax::CellName;

impl Meaning {
    /// The cell, where it is one.
    pub fn cell(self) -> Option<u8>
        ensures { result ≡ cell_of_meaning self }
    {
        match self {
            Meaning::Cell(cell) => Some(cell),
            _ => None,
        }
    }

    /// The file or view, where it is one.
    pub fn file(self) -> Option<u16>
        ensures { result ≡ file_of_meaning self }
    {
        match self {
            Meaning::Cells(file) | Meaning::View(file) => Some(file),
            _ => None,
        }
    }

    /// The function, where it is one.
    pub fn function(self) -> Option<u16>
        ensures { result ≡ function_of_meaning self }
    {
        match self {
            Meaning::Function(function) => Some(function),
            _ => None,
        }
    }
}

impl Own {
    /// The place and the width of a field operand.
    pub fn field(self) -> Option<(u8, u8)>
        ensures { result ≡ field_of self }
    {
        match self {
            Own::Field { operand, width } => Some((operand, width)),
            _ => None,
        }
    }
}

impl Tables {
    /// The width of a cell; 0 where there is none.
    pub fn cell_width(&self, cell: usize) -> u8
        ensures exact { result ≡ cell_width self.now cell }
        ensures most { result ≤ 64 }
    {
        match self.widths.get(cell) {
            Some(width) => width.bits(),
            None => 0,
        }
    }

    /// The number of the file or view of a name.
    pub fn file(&self, name: &[u8]) -> Option<u16>
        ensures { result ≡ file_named self.now name.now }
    {
        self.names.get(name)?.file()
    }

    /// Its parts.
    pub fn parts(&self, name: &[u8]) -> Option<&[CellPart]>
        ensures { option_copied result ≡ parts_named self.now name.now }
    {
        let file = self.file(name)?;
        Some(self.files.as_slice().get(usize::from(file))?.as_slice())
    }

    /// Its part at a number.
    pub fn part(&self, name: &[u8], index: u64) -> Option<CellPart>
        ensures { result ≡ part_named self.now name.now index }
    {
        self.parts(name)?.get(index as usize).copied()
    }

    /// Whether a part is its whole cell.
    pub fn is_whole(&self, part: CellPart) -> bool
        ensures { result ≡ is_whole self.now part }
    {
        part.lo == 0 && u16::from(part.hi) + 1 == u16::from(self.cell_width(usize::from(part.cell)))
    }

    /// The function of a name.
    pub fn function(&self, name: &[u8]) -> Option<&Function>
        ensures { option_copied result ≡ function_named self.now name.now }
    {
        let function = self.names.get(name)?.function()?;
        self.functions.as_slice().get(usize::from(function))
    }

    /// Whether a cell has the form of one: an index exactly behind the name of a file of cells.
    pub fn is_cell(&self, cell: &CellName) -> bool
        ensures { result ≡ is_cell self.now cell.now }
    {
        match self.names.get(cell.name.as_slice()) {
            Some(Meaning::Cell(_)) => cell.index.is_none(),
            Some(Meaning::Cells(_)) => cell.index.is_some(),
            _ => false,
        }
    }

    /// The number of a cell; none where the name is of no cell, or the index not below the count of its file.
    pub fn cell_number(&self, cell: &CellName) -> Option<u8>
        ensures { result ≡ cell_number self.now cell.now }
    {
        match (cell.index, self.names.get(cell.name.as_slice())?) {
            (None, Meaning::Cell(cell)) => Some(cell),
            (Some(index), Meaning::Cells(file)) => self.cell_of_file(file, index),
            _ => None,
        }
    }

    /// The cell of a file at a number.
    fn cell_of_file(&self, file: u16, index: u64) -> Option<u8>
        ensures { result ≡ cell_of_file self.now file index }
    {
        let parts = self.files.as_slice().get(usize::from(file))?;
        Some(parts.as_slice().get(index as usize)?.cell)
    }
}
