//! What lines add to the tables.
ghost use Rattle.std.specs.Prelude.{◌≡◌, ◌+◌, ◌<◌, ◌≤◌, None, OnOk, IfOk, length, replicate};
ghost use Rattle.rtl_core.specs.CellNames.{given};
ghost use Rattle.ssl_rules.specs.Lookup.{named};
ghost use Rattle.ssl_rules.specs.TableGrowth.{no_tables, with_cell, with_cells, with_view, with_function, whole_cells};

use crate::name_table::NameTable;
use crate::tables::{Function, Meaning, Tables};
use rtl_core::{CellNames, CellPart, Width};
use sqlite_items::Items;
use std::alloc::{AllocError, Global};

impl Tables {
    /// Before the first line.
    pub fn new(alloc: Global) -> Tables
        ensures { result ≡ no_tables }
    {
        Tables {
            names: NameTable::new(alloc),
            cells: CellNames::new(alloc),
            widths: Items::new(alloc),
            files: Items::new(alloc),
            functions: Items::new(alloc),
        }
    }

    /// One cell more.
    pub fn add_cell(&mut self, name: &[u8], width: Width) -> Result<(), AllocError>
        requires fresh { named self.old.names name.now ≡ None }
        requires fresh_cell { given self.old.cells name.now ≡ None }
        requires room { length self.old.widths < 120 }
        ensures { OnOk result (self.new ≡ with_cell self.old name.now width) }
    {
        let first = self.widths.len() as u8;
        self.names.add(name, Meaning::Cell(first))?;
        self.cells.add(name, first, None)?;
        self.widths.push(width)
    }

    /// One view more.
    pub fn add_view(&mut self, name: &[u8], parts: Items<CellPart>) -> Result<(), AllocError>
        requires fresh { named self.old.names name.now ≡ None }
        requires room { length self.old.files < 4096 }
        ensures { OnOk result (self.new ≡ with_view self.old name.now parts) }
    {
        self.names
            .add(name, Meaning::View(self.files.len() as u16))?;
        self.files.push(parts)
    }

    /// One function more.
    pub fn add_function(&mut self, name: &[u8], function: Function) -> Result<(), AllocError>
        requires fresh { named self.old.names name.now ≡ None }
        requires room { length self.old.functions < 4096 }
        ensures { OnOk result (self.new ≡ with_function self.old name.now function) }
    {
        self.names
            .add(name, Meaning::Function(self.functions.len() as u16))?;
        self.functions.push(function)
    }

    /// A file of so many cells more.
    pub fn add_cells(
        &mut self,
        alloc: Global,
        name: &[u8],
        count: u8,
        width: Width,
    ) -> Result<(), AllocError>
        requires fresh { named self.old.names name.now ≡ None }
        requires fresh_cell { given self.old.cells name.now ≡ None }
        requires room { length self.old.widths + count ≤ 120 }
        requires place { length self.old.files < 4096 }
        ensures { OnOk result (self.new ≡ with_cells self.old name.now count width) }
    {
        let first = self.widths.len() as u8;
        let parts = whole_cells(alloc, first, width, count)?;
        self.names
            .add(name, Meaning::Cells(self.files.len() as u16))?;
        self.cells.add(name, first, Some(count))?;
        self.widths.append(copies(alloc, width, count)?)?;
        self.files.push(parts)
    }
}

/// A width so many times.
fn copies(alloc: Global, width: Width, count: u8) -> Result<Items<Width>, AllocError>
    ensures { IfOk result (λ widths. widths ≡ replicate count width) }
{
    let mut widths = Items::new(alloc);
    for _k in 0..count {
        widths.push(width)?;
    }
    Ok(widths)
}

/// So many whole cells from the first on.
fn whole_cells(
    alloc: Global,
    first: u8,
    width: Width,
    count: u8,
) -> Result<Items<CellPart>, AllocError>
    requires { first + count ≤ 120 }
    ensures { IfOk result (λ parts. parts ≡ whole_cells first width count) }
{
    let mut parts = Items::new(alloc);
    for k in 0..count {
        parts.push(CellPart {
            cell: first + k,
            lo: 0,
            hi: width.bits() - 1,
        })?;
    }
    Ok(parts)
}
