//! What is known before the first line: the machine with the names of its cells, and the instructions.
ghost use Rattle.std.specs.Prelude.{◌≡◌};
ghost use Rattle.conventions.specs.Names.{cell_of};
ghost use Rattle.conventions.specs.Facts.{error_cell, service_cells};

use super::fact::ServiceCells;
use super::instructions::Instructions;
use conv_syntax::{ConvCell, ServiceLine};
use rtl_core::NamedMachine;

/// A machine with the names of its cells, and its instructions by their names.
#[derive(Debug, Drop)]
pub struct Known<'a> {
    pub named: &'a NamedMachine,
    pub instructions: Instructions,
}

/// The cell of a name, or of a file's name and an index below its count.
pub fn cell_of(named: &NamedMachine, cell: &ConvCell) -> Option<u8>
    ensures { result ≡ cell_of named.now cell.now }
{
    let name = cell.name.as_slice();
    match cell.index {
        None => named.names.cell_of(name, None),
        Some(at) => named
            .names
            .cell_of(name, Some(at.min(u64::from(u32::MAX)) as u32)),
    }
}

/// The error cell of a service, where it has one.
fn error_cell(named: &NamedMachine, cell: &Option<ConvCell>) -> Option<Option<u8>>
    ensures { result ≡ error_cell named.now cell.now }
{
    match cell {
        None => Some(None),
        Some(cell) => Some(Some(cell_of(named, cell)?)),
    }
}

/// The cells of a service, where all are cells.
pub fn service_cells(named: &NamedMachine, line: &ServiceLine) -> Option<ServiceCells>
    ensures { result ≡ service_cells named.now line.now }
{
    Some(ServiceCells {
        number: cell_of(named, &line.number)?,
        arg_x: cell_of(named, &line.arg_x)?,
        arg_y: cell_of(named, &line.arg_y)?,
        arg_z: cell_of(named, &line.arg_z)?,
        result: cell_of(named, &line.result)?,
        error: error_cell(named, &line.error)?,
    })
}
