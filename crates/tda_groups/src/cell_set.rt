// Sets of cells.
ghost use Rattle.std.specs.Prelude.{◌≡◌, ◌==◌, ◌++◌, ◌∷◌, [], length, OnOk};
ghost use Rattle.tda_groups.specs.Order.{first_cell};

use std::alloc::Global;
use std::marker::Model;
use tda_io::NoMemory;

/// Cells in the order in which they were pushed.
#[derive(Debug, Drop)]
pub(crate) struct CellSet {
    cells: Vec<u32>,
}

impl Model for CellSet {
    ghost use Rattle.std.specs.Prelude.{ℕ, List};

    ghost Value = { List ℕ };

    ghost view = { λ s. s.cells.items };
}

impl CellSet {
    /// The set of no cells.
    pub(crate) fn new(alloc: Global) -> CellSet
        ensures { result ≡ [] }
    {
        CellSet {
            cells: Vec::new(alloc),
        }
    }

    /// Puts a cell at the end.
    pub(crate) fn push(&mut self, cell: u32) -> Result<(), NoMemory>
        ensures { OnOk result (self.new ≡ self.old ++ cell ∷ []) }
    {
        self.cells.push(cell)?;
        Ok(())
    }

    /// How many cells there are.
    pub(crate) fn len(&self) -> usize
        ensures { result ≡ length self.now }
    {
        self.cells.len()
    }

    /// Whether there is no cell.
    pub(crate) fn is_empty(&self) -> bool
        ensures { result ≡ (length self.now == 0) }
    {
        self.cells.is_empty()
    }

    /// The first cell, and 0 where there is none.
    pub(crate) fn first(&self) -> u32
        ensures { result ≡ first_cell self.now }
    {
        self.cells.as_slice().first().copied().unwrap_or(0)
    }

    /// The cells.
    pub(crate) fn as_slice(&self) -> &[u32]
        ensures { result.now ≡ self.now }
    {
        self.cells.as_slice()
    }
}
