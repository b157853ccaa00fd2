// The tables of units that have children.
ghost use Rattle.std.specs.Prelude.{◌≡◌, ℕ, ◌*◌, ◌<◌, ◌≢◌, [], length, slice_index, slice_index_or, slice_set, All, IfOk, OnOk, map};
ghost use Rattle.tda_model.specs.Schema.{Schema};
ghost use Rattle.tda_model.specs.Spine.{IsUnit};
ghost use Rattle.tda_model.specs.Tables.{Tables};
ghost use Rattle.tda_model.specs.Cells.{cell_count};
ghost use Rattle.tda_model.specs.First.{family_counts, counts_of};
ghost use Rattle.tda_descent.specs.Made.{HasChildren};

use crate::fit::Fit;
use std::alloc::Global;
use std::marker::Model;
use tda_io::NoMemory;
use tda_spine::Spine;

/// For each unit its table, or nothing.
#[derive(Debug, Drop)]
pub(crate) struct UnitTables {
    tables: Vec<Vec<u64>>,
}

impl Model for UnitTables {
    ghost use Rattle.std.specs.Prelude.{ℕ, List, map};

    ghost Value = { List (List ℕ) };

    ghost view = { λ s. map (λ v. v.items) s.tables.items };
}

impl UnitTables {
    /// Nothing for so many units.
    pub(crate) fn new(alloc: Global, units: u32) -> Result<UnitTables, NoMemory>
        ensures { IfOk result (λ tables. length tables ≡ units) }
    {
        let mut tables = Vec::new(alloc);
        for _ in 0..units {
            tables.push(Vec::new(alloc))?;
        }
        Ok(UnitTables { tables })
    }

    /// The table of a unit.
    pub(crate) fn get(&self, unit: u32) -> &[u64]
        requires { unit < length self.now }
        ensures { result.now ≡ slice_index_or self.now unit [] }
    {
        self.tables[unit as usize].as_slice()
    }

    /// Changes the table of a unit.
    fn put(&mut self, unit: u32, table: Vec<u64>)
        requires { unit < length self.old }
        ensures { self.new ≡ slice_set self.old unit table.items }
    {
        self.tables[unit as usize] = table;
    }

    // Keeps the table of a unit that has children.
    fn keep(
        &mut self,
        alloc: Global,
        spine: &Spine,
        unit: u32,
        table: &[u64],
    ) -> Result<(), NoMemory>
        requires here { IsUnit spine.now unit }
        requires count { length self.old ≡ length spine.now.units }
        ensures count { length self.new ≡ length self.old }
        ensures here { HasChildren spine.now unit → OnOk result (slice_index_or self.new unit [] ≡ table.now) }
        ensures others { (u : ℕ) → u ≢ unit → slice_index_or self.new u [] ≡ slice_index_or self.old u [] }
    {
        if spine.children(unit).is_empty() {
            return Ok(());
        }
        self.put(unit, Vec::from_slice(alloc, table)?);
        Ok(())
    }

    /// Keeps the tables of the units of a fit that have children.
    pub(crate) fn keep_all(
        &mut self,
        alloc: Global,
        spine: &Spine,
        cells: u32,
        fit: &Fit,
    ) -> Result<(), NoMemory>
        requires units { All (IsUnit spine.now) fit.now.units.items }
        requires count { length self.old ≡ length spine.now.units }
        requires counts { length fit.now.counts.items ≡ length fit.now.units.items * cells }
        ensures count { length self.new ≡ length self.old }
        ensures kept { (s : Schema) (x : Tables) → cell_count s ≡ cells → fit.now.counts.items ≡ family_counts s fit.now.units.items x → OnOk result ((n : ℕ) → n < length fit.now.units.items → HasChildren spine.now (slice_index fit.now.units.items n) → slice_index_or self.new (slice_index fit.now.units.items n) [] ≡ counts_of s (x (slice_index fit.now.units.items n))) }
        ensures others { (u : ℕ) → All (λ v. u ≢ v) fit.now.units.items → slice_index_or self.new u [] ≡ slice_index_or self.old u [] }
    {
        let cells = cells as usize;
        for (n, unit) in fit.units.iter().enumerate() {
            self.keep(alloc, spine, *unit, &fit.counts[n * cells..(n + 1) * cells])?;
        }
        Ok(())
    }
}
