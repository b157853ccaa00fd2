// True counts of records.
ghost use Rattle.std.specs.Prelude.{◌≡◌, ◌+◌, ◌<◌, ◌≤◌, ℕ, [], All, IfOk, OnOk, count_by, length, slice_index_or, sum, sum_by};
ghost use Rattle.tda_model.specs.Bounds.{persons_limit};
ghost use Rattle.tda_model.specs.Cells.{cell_count};
ghost use Rattle.tda_model.specs.Spine.{IsUnit, children_of, nation_of};
ghost use Rattle.tda_model.specs.Tables.{persons_in};
ghost use Rattle.tda_out.specs.Counts.{count_at, counts_of, with_count, AreCountsOf};
ghost use Rattle.tda_records.specs.Records.{AreRecordsOf};
ghost use Rattle.tda_spine.specs.Sound.{IsSound};
ghost use Rattle.tda_hist.specs.TrueTable.{lives_in, true_count, state_persons, persons_at, BlocksAddUp};
ghost use Rattle.tda_hist.specs.Tally.{tallied, HasTable};

use std::alloc::Global;
use tda_io::NoMemory;
use tda_out::Tables;
use tda_records::Records;
use tda_schema::Schema;
use tda_spine::Spine;

/// Adds one to the count of a unit and a cell.
pub(crate) fn add_one(tables: &mut Tables, unit: u32, cell: u32) -> Result<(), NoMemory>
    requires unit { unit < length tables.old }
    requires cell { cell < length (slice_index_or tables.old unit []) }
    requires limit { count_at tables.old unit cell < persons_limit }
    ensures { OnOk result (tables.new ≡ with_count tables.old unit cell (count_at tables.old unit cell + 1)) }
{
    let count = tables.get(unit, cell);
    tables.set(unit, cell, count + 1)
}

// How many records each block has of each cell, and 0 for a unit that is no block.
fn own_counts(
    alloc: Global,
    schema: &Schema,
    spine: &Spine,
    records: &Records,
) -> Result<Tables, NoMemory>
    requires { AreRecordsOf schema.now spine.now records.now }
    ensures { IfOk result (λ tables. tables ≡ counts_of schema.now spine.now (tallied (λ r. r.block) (λ r. r.cell) records.now)) }
{
    let mut tables = Tables::new(alloc, schema, spine)?;
    for i in 0..records.len() {
        add_one(&mut tables, records.block(i), records.cell(i))?;
    }
    Ok(tables)
}

// The counts of a cell in some units together.
fn sum_of(tables: &Tables, units: &[u32], cell: u32) -> u64
    requires units { All (λ u. u < length tables.now) units.now }
    requires cells { All (λ u. cell < length (slice_index_or tables.now u [])) units.now }
    requires room { sum_by (λ u. count_at tables.now u cell) units.now ≤ persons_limit }
    ensures { result ≡ sum_by (λ u. count_at tables.now u cell) units.now }
{
    let mut sum = 0;
    for unit in units {
        sum += tables.get(*unit, cell);
    }
    sum
}

// Makes each count of a unit that of its children together.
fn sum_children(
    tables: &mut Tables,
    schema: &Schema,
    spine: &Spine,
    unit: u32,
) -> Result<(), NoMemory>
    requires sound { IsSound spine.now }
    requires tables { AreCountsOf schema.now spine.now tables.old }
    requires unit { IsUnit spine.now unit }
    requires room { (j : ℕ) → j < cell_count schema.now → sum_by (λ c. count_at tables.old c j) (children_of spine.now unit) ≤ persons_limit }
    ensures { OnOk result (HasTable schema.now spine.now tables.old tables.new unit (cell_count schema.now) (λ j. sum_by (λ c. count_at tables.old c j) (children_of spine.now unit))) }
{
    let children = spine.children(unit);
    for cell in 0..schema.cells() {
        let sum = sum_of(tables, children, cell);
        tables.set(unit, cell, sum)?;
    }
    Ok(())
}

/// The true table of each unit: for each cell how many of the persons who live in the unit's blocks have it. Each unit's
/// table is those of its blocks together, and it counts each person who lives in the unit once. So the nation, and the
/// units of each level together, have exactly as many persons as there are records, at most 2^26.
///
/// One addition is made for each record, and one for each unit and cell: from the last parent in fit order to the nation
/// each adds up its children, which are whole by then. `NoMemory` where memory ran out.
pub fn count(
    alloc: Global,
    schema: &Schema,
    spine: &Spine,
    records: &Records,
) -> Result<Tables, NoMemory>
    requires { AreRecordsOf schema.now spine.now records.now }
    ensures tables { IfOk result (AreCountsOf schema.now spine.now) }
    ensures counts { IfOk result (λ tables. tables ≡ counts_of schema.now spine.now (true_count spine.now records.now)) }
    ensures blocks { IfOk result (λ tables. BlocksAddUp schema.now spine.now (count_at tables)) }
    ensures persons { IfOk result (λ tables. (u : ℕ) → IsUnit spine.now u → persons_in schema.now (count_at tables u) ≡ count_by (lives_in spine.now u) records.now) }
    ensures nation { IfOk result (λ tables. persons_in schema.now (count_at tables (nation_of spine.now)) ≡ length records.now) }
    ensures levels { IfOk result (λ tables. (level : ℕ) → level < spine.now.depth → persons_at schema.now spine.now (count_at tables) level ≡ length records.now) }
    ensures states { IfOk result (λ tables. sum (state_persons schema.now spine.now (count_at tables)) ≡ length records.now) }
{
    // The units are a tree.
    let _ = spine.units();
    let mut tables = own_counts(alloc, schema, spine, records)?;
    let parents = spine.parents();
    for place in (0..parents.len()).rev() {
        sum_children(&mut tables, schema, spine, parents[place])?;
    }
    Ok(tables)
}
