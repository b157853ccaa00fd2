// Sums of counts.
ghost use Rattle.std.specs.Prelude.{◌≡◌, ◌<◌, ◌≤◌, ◌^◌, Contains, IfOk, List, length, sum};
ghost use Rattle.tda_model.specs.Bounds.{persons_limit};
ghost use Rattle.tda_model.specs.Cells.{cell_count};
ghost use Rattle.tda_model.specs.Groups.{class_cells, classes_of, kind_count};
ghost use Rattle.tda_model.specs.Spine.{IsUnit, level_of};
ghost use Rattle.tda_model.specs.Tables.{kind_sum, persons_in};
ghost use Rattle.tda_invar.specs.Totals.{AreTotalsOf};
ghost use Rattle.tda_out.specs.Counts.{count_at, counts_of, AreCountsOf};
ghost use Rattle.tda_places.specs.Places.{IsPlace};
ghost use Rattle.tda_records.specs.declared.records.Record.{Record};
ghost use Rattle.tda_schema.specs.Parts.{holds};
ghost use Rattle.tda_schema.specs.Stated.{queries_at, query_at};
ghost use Rattle.tda_hist.specs.TrueTable.{true_count, class_persons, class_sum, state_persons};

use std::alloc::Global;
use tda_invar::Totals;
use tda_io::NoMemory;
use tda_out::Tables;
use tda_places::Place;
use tda_schema::Schema;
use tda_spine::Spine;

// The level of the states.
const STATES: usize = 1;

// How many persons a unit has.
fn persons_in(schema: &Schema, spine: &Spine, tables: &Tables, unit: u32) -> u64
    requires tables { AreCountsOf schema.now spine.now tables.now }
    requires unit { IsUnit spine.now unit }
    ensures { result ≡ persons_in schema.now (count_at tables.now unit) }
{
    let _ = spine;
    let mut persons = 0;
    for cell in 0..schema.cells() {
        persons += tables.get(unit, cell);
    }
    persons
}

/// How many persons of a kind a unit has. The cells of a kind stand side by side, since the kind is the first attribute.
pub(crate) fn kind_sum(schema: &Schema, spine: &Spine, tables: &Tables, unit: u32, kind: u16) -> u64
    requires tables { AreCountsOf schema.now spine.now tables.now }
    requires unit { IsUnit spine.now unit }
    requires kind { kind < kind_count schema.now }
    ensures { result ≡ kind_sum schema.now kind (count_at tables.now unit) }
{
    let _ = spine;
    let cells_of_kind = schema.cells() / u32::from(schema.kinds());
    let first = u32::from(kind) * cells_of_kind;
    let mut persons = 0;
    for cell in first..first + cells_of_kind {
        persons += tables.get(unit, cell);
    }
    persons
}

/// The total of each state: how many persons its table counts. At most 2^30 persons are in all states together.
/// `NoMemory` where memory ran out.
pub fn state_totals(
    alloc: Global,
    schema: &Schema,
    spine: &Spine,
    tables: &Tables,
) -> Result<Totals, NoMemory>
    requires tables { AreCountsOf schema.now spine.now tables.now }
    requires few { sum (state_persons schema.now spine.now (count_at tables.now)) ≤ persons_limit }
    ensures totals { IfOk result (λ totals. totals ≡ state_persons schema.now spine.now (count_at tables.now)) }
    ensures belong { IfOk result (AreTotalsOf spine.now) }
{
    // There is a level of states.
    let _ = spine.units();
    let mut totals = Vec::new(alloc);
    for state in spine.at_level(STATES) {
        totals.push(persons_in(schema, spine, tables, *state))?;
    }
    Ok(Totals::from_list(spine, totals))
}

// Whether a cell is in a class of a query of a level.
fn is_in_class(schema: &Schema, level: usize, query: usize, class: u32, cell: u32) -> bool
    requires level { level < length schema.now.levels }
    requires query { query < length (queries_at schema.now level) }
    requires class { Contains (classes_of schema.now (query_at schema.now level query)) class }
    requires cell { cell < cell_count schema.now }
    ensures { result ≡ holds (class_cells schema.now (query_at schema.now level query) class) cell }
{
    // Queries are over all possible cells.
    let _ = schema.queries(level);
    schema.possible(cell) && schema.class_of(level, query, cell) == class
}

/// How many persons of a place's unit have a cell of the place's class: the sum of the unit's counts over the cells of the
/// class, at most 2^42. Of true tables it is how many records have a block of the unit and a cell of the class. A class is
/// named by its first cell, so that no cell before it is looked at.
pub fn class_sum(schema: &Schema, spine: &Spine, tables: &Tables, place: Place) -> u64
    requires belong { spine.now.depth ≡ length schema.now.levels }
    requires tables { AreCountsOf schema.now spine.now tables.now }
    requires place { IsPlace schema.now spine.now place }
    ensures value { result ≡ class_sum schema.now (query_at schema.now (level_of spine.now place.unit) place.query) (count_at tables.now place.unit) place.class }
    ensures persons { (records : List Record) → tables.now ≡ counts_of schema.now spine.now (true_count spine.now records) → result ≡ class_persons schema.now spine.now (query_at schema.now (level_of spine.now place.unit) place.query) records place.unit place.class }
    ensures limit { result ≤ 2 ^ 42 }
{
    // Each unit is of one of the levels, and queries are over all possible cells.
    let _ = spine.units();
    let level = spine.level(place.unit);
    let _ = schema.queries(level);
    let mut sum = 0;
    for cell in place.class..schema.cells() {
        if is_in_class(schema, level, place.query as usize, place.class, cell) {
            sum += tables.get(place.unit, cell);
        }
    }
    sum
}
