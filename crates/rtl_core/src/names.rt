//! Names of cells.
ghost use Rattle.std.specs.Prelude.{◌≡◌, ◌<◌, [], ◌∷◌, ◌++◌, Option, None, OnOk, OnErr, IfSome};
ghost use Rattle.rtl_core.specs.CellNames.{AreCells, given, cell_at, cell_named};

use indexmap::IndexMap;
use std::alloc::{AllocError, Global};
use std::marker::Model;

/// What a name stands for: the cell `first`, or with a count a file of that many cells from `first` on.
#[derive(Clone, Copy, Debug, PartialEq, Eq)]
pub struct CellGroup {
    pub first: u8,
    pub count: Option<u8>,
}

impl CellGroup {
    /// The cell without an index, or that of a file at an index.
    fn cell(&self, index: Option<u32>) -> Option<u8>
        requires { AreCells self.now }
        ensures exact { result ≡ cell_at self.now index }
        ensures below { IfSome result (λ cell. cell < 120) }
    {
        match (self.count, index) {
            (None, None) => Some(self.first),
            (Some(count), Some(at)) if at < u32::from(count) => Some(self.first + at as u8),
            _ => None,
        }
    }
}

/// Names of cells and of files of cells. Contracts see them as a list, in the order in which they were added.
/// No cell is numbered 120 or more.
#[derive(Debug, Drop)]
pub struct CellNames {
    groups: IndexMap<Vec<u8>, CellGroup>,
    alloc: Global,
}

impl Model for CellNames {
    ghost use Rattle.std.specs.Prelude.{List, ℕ, map, All};
    ghost use Rattle.rtl_core.specs.declared.names.CellGroup.{CellGroup};
    ghost use Rattle.rtl_core.specs.CellNames.{AreCells};

    ghost Value = { List (List ℕ × CellGroup) };

    ghost view = { λ s. map (λ e. (e.0.items, e.1)) s.groups.entries };

    ghost invariant = { λ s. All (λ e. AreCells e.1) s.groups.entries };
}

impl CellNames {
    /// No names.
    pub fn new(alloc: Global) -> CellNames
        ensures { result ≡ [] }
    {
        CellNames {
            groups: IndexMap::new(alloc),
            alloc,
        }
    }

    /// Gives a name to the cell `first`, or with a count to a file of that many cells from `first` on.
    pub fn add(&mut self, name: &[u8], first: u8, count: Option<u8>) -> Result<(), AllocError>
        requires fresh { given self.old name.now ≡ None }
        requires within { AreCells (record { first = first; count = count }) }
        ensures added { OnOk result (self.new ≡ self.old ++ (name.now, record { first = first; count = count }) ∷ []) }
        ensures refused { OnErr result (self.new ≡ self.old) }
    {
        let bytes = Vec::from_slice(self.alloc, name)?;
        self.groups.insert(bytes, CellGroup { first, count })?;
        Ok(())
    }

    /// The cell of a name: of a cell's name for no index, of a file's for an index below its count.
    /// `None` exactly elsewhere.
    pub fn cell_of(&self, name: &[u8], index: Option<u32>) -> Option<u8>
        ensures exact { result ≡ cell_named self.now name.now index }
        ensures below { IfSome result (λ cell. cell < 120) }
    {
        self.group(name)?.cell(index)
    }

    /// What a name was given.
    fn group(&self, name: &[u8]) -> Option<CellGroup>
        ensures exact { result ≡ given self.now name.now }
        ensures within { IfSome result AreCells }
    {
        self.groups.get(name).copied()
    }
}
