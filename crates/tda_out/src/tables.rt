// A count for each unit and cell.
ghost use Rattle.std.specs.Prelude.{◌≡◌, ◌<◌, ◌≤◌, [], length, slice_index_or, IfOk, OnOk, OnErr};
ghost use Rattle.tda_model.specs.Bounds.{persons_limit};
ghost use Rattle.tda_out.specs.Counts.{count_at, counts_of, with_count};

use std::alloc::Global;
use std::marker::Model;
use tda_io::NoMemory;
use tda_schema::Schema;
use tda_spine::Spine;

/// A count for each unit and cell, each at most 2^30. Four bytes are kept for each.
#[derive(Debug, Drop)]
pub struct Tables {
    units: usize,
    cells: usize,
    // Those of a unit stand side by side.
    counts: Vec<u32>,
}

impl Model for Tables {
    ghost use Rattle.tda_out.specs.Counts.{Counts, rows_of, AreRows};

    ghost Value = { Counts };

    ghost view = { λ t. rows_of t.units t.cells t.counts.items };

    ghost invariant = { λ t. AreRows t.units t.cells t.counts.items };
}

impl Tables {
    /// Zeros.
    pub fn new(alloc: Global, schema: &Schema, spine: &Spine) -> Result<Tables, NoMemory>
        ensures { IfOk result (λ tables. tables ≡ counts_of schema.now spine.now (λ unit cell. 0)) }
    {
        let units = spine.units() as usize;
        let cells = schema.cells() as usize;
        let counts = vec![in alloc; 0; units * cells]?;
        Ok(Tables {
            units,
            cells,
            counts,
        })
    }

    /// The count of a unit and a cell.
    pub fn get(&self, unit: u32, cell: u32) -> u64
        requires unit { unit < length self.now }
        requires cell { cell < length (slice_index_or self.now unit []) }
        ensures count { result ≡ count_at self.now unit cell }
        ensures limit { result ≤ persons_limit }
    {
        u64::from(self.counts[unit as usize * self.cells + cell as usize])
    }

    /// Changes the count of a unit and a cell, and no other. After `NoMemory` nothing is changed.
    pub fn set(&mut self, unit: u32, cell: u32, count: u64) -> Result<(), NoMemory>
        requires unit { unit < length self.old }
        requires cell { cell < length (slice_index_or self.old unit []) }
        requires limit { count ≤ persons_limit }
        ensures ok { OnOk result (self.new ≡ with_count self.old unit cell count) }
        ensures err { OnErr result (self.new ≡ self.old) }
    {
        self.counts[unit as usize * self.cells + cell as usize] = count as u32;
        Ok(())
    }
}
