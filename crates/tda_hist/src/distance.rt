// How far apart two lists of records are.
ghost use Rattle.std.specs.Prelude.{◌≡◌, ◌<◌, ◌≤◌, ◌^◌, [], true, All, IfOk, length, slice_index_or, sum_by};
ghost use Rattle.tda_model.specs.Groups.{classes_of};
ghost use Rattle.tda_model.specs.Spine.{IsUnit, level_of, is_over, units_at};
ghost use Rattle.tda_out.specs.Counts.{AreCountsOf};
ghost use Rattle.tda_records.specs.Records.{IsBlock, AreRecordsOf};
ghost use Rattle.tda_schema.specs.Stated.{queries_at, query_at};
ghost use Rattle.tda_spine.specs.Sound.{IsSound};
ghost use Rattle.tda_hist.specs.Distance.{unit_gap, square_distance, AreNeighbours, AreClassCounts};

use crate::counting::add_one;
use std::alloc::Global;
use tda_io::NoMemory;
use tda_out::Tables;
use tda_records::Records;
use tda_schema::Schema;
use tda_spine::Spine;

// The unit of a level that a block is or lies below.
fn unit_over(spine: &Spine, block: u32, level: usize) -> u32
    requires sound { IsSound spine.now }
    requires block { IsBlock spine.now block }
    requires level { level < spine.now.depth }
    ensures unit { IsUnit spine.now result }
    ensures level { level_of spine.now result ≡ level }
    ensures over { is_over spine.now result block spine.now.depth ≡ true }
{
    let mut unit = block;
    for _ in level..spine.level(block) {
        if let Some(parent) = spine.parent(unit) {
            unit = parent;
        }
    }
    unit
}

// For each unit of a level and each class of a query of the level how many records there are.
fn class_counts(
    alloc: Global,
    schema: &Schema,
    spine: &Spine,
    records: &Records,
    level: usize,
    query: usize,
) -> Result<Tables, NoMemory>
    requires belong { spine.now.depth ≡ length schema.now.levels }
    requires records { AreRecordsOf schema.now spine.now records.now }
    requires level { level < length schema.now.levels }
    requires query { query < length (queries_at schema.now level) }
    ensures { IfOk result (λ tables. AreClassCounts schema.now spine.now records.now level (query_at schema.now level query) tables) }
{
    // The units are a tree, and queries are over all possible cells.
    let _ = (spine.units(), schema.queries(level));
    let mut tables = Tables::new(alloc, schema, spine)?;
    for i in 0..records.len() {
        let unit = unit_over(spine, records.block(i), level);
        let class = schema.class_of(level, query, records.cell(i));
        add_one(&mut tables, unit, class)?;
    }
    Ok(tables)
}

// The squared differences of two tables' counts of a unit and some cells together.
fn unit_distance(first: &Tables, second: &Tables, unit: u32, cells: &[u32]) -> u64
    requires first_unit { unit < length first.now }
    requires second_unit { unit < length second.now }
    requires first_cells { All (λ j. j < length (slice_index_or first.now unit [])) cells.now }
    requires second_cells { All (λ j. j < length (slice_index_or second.now unit [])) cells.now }
    requires room { unit_gap first.now second.now cells.now unit < 2 ^ 64 }
    ensures { result ≡ unit_gap first.now second.now cells.now unit }
{
    let mut sum = 0;
    for cell in cells {
        let gap = first.get(unit, *cell).abs_diff(second.get(unit, *cell));
        sum += gap * gap;
    }
    sum
}

// The same over the units of a level and the classes of a query of the level.
fn level_distance(
    schema: &Schema,
    spine: &Spine,
    first: &Tables,
    second: &Tables,
    level: usize,
    query: usize,
) -> u64
    requires belong { spine.now.depth ≡ length schema.now.levels }
    requires first { AreCountsOf schema.now spine.now first.now }
    requires second { AreCountsOf schema.now spine.now second.now }
    requires level { level < length schema.now.levels }
    requires query { query < length (queries_at schema.now level) }
    requires room { sum_by (unit_gap first.now second.now (classes_of schema.now (query_at schema.now level query))) (units_at spine.now level) < 2 ^ 64 }
    ensures { result ≡ sum_by (unit_gap first.now second.now (classes_of schema.now (query_at schema.now level query))) (units_at spine.now level) }
{
    // Queries are over all possible cells.
    let _ = schema.queries(level);
    let classes = schema.classes(level, query);
    let mut sum = 0;
    for unit in spine.at_level(level) {
        sum += unit_distance(first, second, *unit, classes);
    }
    sum
}

/// The squared length of the difference of two lists of records in the answers of a query of a level: the sum, over the
/// units of the level and the classes of the query, of the squared difference of the two numbers of records that are in
/// the unit's blocks and whose cells are in the class. At most 2^53.
///
/// Equal lists are 0 apart. Two lists of equal length that differ at one index are at most 2 apart, so that a query's
/// squared sensitivity over a level is at most 2. `NoMemory` where memory ran out.
pub fn square_distance(
    alloc: Global,
    schema: &Schema,
    spine: &Spine,
    first: &Records,
    second: &Records,
    level: usize,
    query: usize,
) -> Result<u64, NoMemory>
    requires belong { spine.now.depth ≡ length schema.now.levels }
    requires first { AreRecordsOf schema.now spine.now first.now }
    requires second { AreRecordsOf schema.now spine.now second.now }
    requires level { level < length schema.now.levels }
    requires query { query < length (queries_at schema.now level) }
    ensures distance { IfOk result (λ d. d ≡ square_distance schema.now spine.now first.now second.now level (query_at schema.now level query)) }
    ensures limit { IfOk result (λ d. d ≤ 2 ^ 53) }
    ensures same { first.now ≡ second.now → IfOk result (λ d. d ≡ 0) }
    ensures neighbours { AreNeighbours first.now second.now → IfOk result (λ d. d ≤ 2) }
{
    // The units are a tree, and queries are over all possible cells.
    let _ = (spine.units(), schema.queries(level));
    let ones = class_counts(alloc, schema, spine, first, level, query)?;
    let others = class_counts(alloc, schema, spine, second, level, query)?;
    Ok(level_distance(schema, spine, &ones, &others, level, query))
}
