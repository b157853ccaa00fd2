// What records come to: the persons of units, of states and of classes, and how far apart two lists of records are.
ghost use Rattle.std.specs.Prelude.{◌≡◌, ◌≤◌, ◌^◌, IfOk, length, sum};
ghost use Rattle.tda_model.specs.Bounds.{persons_limit};
ghost use Rattle.tda_out.specs.Counts.{count_at, AreCountsOf};
ghost use Rattle.tda_hist.specs.TrueTable.{state_persons};

use std::alloc::Global;
use std::process::Abort;
use std::test::Fail;
use tda_fixtures::{BLOCK_TOTALS, THREE_BLOCKS, TWO_BLOCKS};
use tda_hist::{class_sum, count, square_distance, state_totals};
use tda_out::Tables;
use tda_places::place_at;
use tda_records::read_records;
use tda_schema::{Schema, read_schema};
use tda_spine::{Spine, read_spine};

// Cells 0 to 3 are house f, house m, dorm f and dorm m, of which the last isn't possible. Queries 0 and 1 of the blocks
// have equal classes.
const FIVE_QUERIES: &str = r#"version = 1
total = "1"

[[attribute]]
name = "kind"
values = ["house", "dorm"]

[[attribute]]
name = "sex"
values = ["f", "m"]

[[zero]]
kind = ["dorm"]
sex = ["m"]

[[level]]
name = "nation"
query = [{ name = "kind", by = ["kind"], share = "1/8" }]

[[level]]
name = "state"
query = [{ name = "detail", by = ["kind", "sex"], share = "1/8" }]

[[level]]
name = "block"
query = [
    { name = "kind", by = ["kind"], share = "1/4" },
    { name = "again", by = ["kind"], share = "1/4" },
    { name = "all", by = [], share = "1/4" },
]
"#;

// Records; units and cells with their persons; states with theirs; and the persons of each place: the nation's by kind, the
// states' by cell, and of each block twice those by kind and then all.
struct Case {
    records: &'static str,
    cells: &'static [(u32, u32, u64)],
    states: &'static [(u32, u64)],
    places: &'static [u64],
}

const CASES: [Case; 2] = [
    Case {
        records: NOBODY,
        cells: &[(0, 0, 0), (2, 2, 0), (5, 3, 0)],
        states: &[(1, 0), (4, 0)],
        places: &[0; 23],
    },
    Case {
        records: PERSONS,
        cells: &[
            (0, 0, 1),
            (0, 1, 2),
            (0, 2, 2),
            (0, 3, 0),
            (1, 0, 0),
            (1, 1, 2),
            (1, 2, 2),
            (2, 1, 1),
            (2, 2, 2),
            (3, 1, 1),
            (3, 2, 0),
            (4, 0, 1),
            (5, 0, 1),
        ],
        states: &[(1, 4), (4, 1)],
        places: &[
            3, 2, 0, 2, 2, 1, 0, 0, 1, 2, 1, 2, 3, 1, 0, 1, 0, 1, 1, 0, 1, 0, 1,
        ],
    },
];

const PERSONS: &str = "block,kind,sex\nB1,dorm,f\nB1,house,m\nB3,house,f\nB2,house,m\nB1,dorm,f\n";

const NOBODY: &str = "block,kind,sex\n";

const TWO: &str = "block,kind,sex\nB1,dorm,f\nB2,house,m\n";

// Records, others, a level and a query of it, and how far apart the records are in it.
const DISTANCES: [(&str, &str, usize, usize, u64); 19] = [
    (TWO, TWO, 2, 0, 0),
    (TWO, "block,kind,sex\nB2,house,m\nB1,dorm,f\n", 2, 0, 0),
    (TWO, "block,kind,sex\nB1,dorm,f\nB1,house,m\n", 2, 0, 2),
    (TWO, "block,kind,sex\nB1,dorm,f\nB1,house,m\n", 2, 1, 2),
    (TWO, "block,kind,sex\nB1,dorm,f\nB1,house,m\n", 2, 2, 2),
    (TWO, "block,kind,sex\nB1,dorm,f\nB1,house,m\n", 1, 0, 0),
    (TWO, "block,kind,sex\nB1,dorm,f\nB1,house,m\n", 0, 0, 0),
    (TWO, "block,kind,sex\nB1,dorm,f\nB3,house,m\n", 2, 0, 2),
    (TWO, "block,kind,sex\nB1,dorm,f\nB3,house,m\n", 1, 0, 2),
    (TWO, "block,kind,sex\nB1,dorm,f\nB3,house,m\n", 0, 0, 0),
    (TWO, "block,kind,sex\nB1,house,f\nB2,house,m\n", 2, 0, 2),
    (TWO, "block,kind,sex\nB1,house,f\nB2,house,m\n", 2, 2, 0),
    (TWO, "block,kind,sex\nB1,house,f\nB2,house,m\n", 1, 0, 2),
    (TWO, "block,kind,sex\nB1,house,f\nB2,house,m\n", 0, 0, 2),
    (PERSONS, NOBODY, 2, 0, 7),
    (PERSONS, NOBODY, 2, 1, 7),
    (NOBODY, PERSONS, 2, 2, 11),
    (NOBODY, PERSONS, 1, 0, 9),
    (NOBODY, PERSONS, 0, 0, 13),
];

const HOUSES: &str = "block,kind\nB1,house\nB1,house\nB2,house\nB2,house\nB2,house\n";

// The same of households alone, at the blocks: the levels above have no query to ask for.
const OF_HOUSES: [(&str, &str, usize, usize, u64); 3] = [
    (HOUSES, HOUSES, 2, 0, 0),
    (
        HOUSES,
        "block,kind\nB1,house\nB1,house\nB1,house\nB2,house\nB2,house\n",
        2,
        0,
        2,
    ),
    (HOUSES, "block,kind\n", 2, 0, 13),
];

// The true table of each unit.
fn tables_of(alloc: Global, schema: &Schema, spine: &Spine, text: &str) -> Result<Tables, Fail>
    requires belong { spine.now.depth ≡ length schema.now.levels }
    requires limit { length text.now ≤ 2 ^ 28 }
    ensures tables { IfOk result (AreCountsOf schema.now spine.now) }
    ensures few { IfOk result (λ tables. sum (state_persons schema.now spine.now (count_at tables)) ≤ persons_limit) }
{
    let records = read_records(alloc, schema, spine, text.as_bytes())?;
    Ok(count(alloc, schema, spine, &records)?)
}

fn are_counts(
    rt: &impl Abort,
    schema: &Schema,
    spine: &Spine,
    tables: &Tables,
    due: &[(u32, u32, u64)],
)
    requires { AreCountsOf schema.now spine.now tables.now }
{
    for (unit, cell, persons) in due {
        assert!(rt; *unit < spine.units() && *cell < schema.cells());
        assert!(rt;
            tables.get(*unit, *cell) == *persons,
            "cell {cell} of unit {unit}"
        );
    }
}

fn are_totals(
    rt: &impl Abort,
    alloc: Global,
    schema: &Schema,
    spine: &Spine,
    tables: &Tables,
    due: &[(u32, u64)],
) -> Result<(), Fail>
    requires tables { AreCountsOf schema.now spine.now tables.now }
    requires few { sum (state_persons schema.now spine.now (count_at tables.now)) ≤ persons_limit }
{
    let totals = state_totals(alloc, schema, spine, tables)?;
    for (state, persons) in due {
        assert!(rt; *state < spine.units() && spine.level(*state) == 1);
        assert!(rt; totals.get(spine, *state) == *persons, "state {state}");
    }
    Ok(())
}

fn are_sums(rt: &impl Abort, schema: &Schema, spine: &Spine, tables: &Tables, due: &[u64])
    requires belong { spine.now.depth ≡ length schema.now.levels }
    requires tables { AreCountsOf schema.now spine.now tables.now }
{
    assert!(rt; tda_places::count(schema, spine) == due.len() as u64);
    for (index, persons) in due.iter().enumerate() {
        let place = place_at(schema, spine, index as u64);
        let found = class_sum(schema, spine, tables, place);
        assert!(rt; found == *persons, "place {index}");
    }
}

fn of_case(
    rt: &impl Abort,
    alloc: Global,
    schema: &Schema,
    spine: &Spine,
    case: &Case,
) -> Result<(), Fail>
    requires { spine.now.depth ≡ length schema.now.levels }
{
    assert!(rt; case.records.len() < 1000);
    let tables = tables_of(alloc, schema, spine, case.records)?;
    are_counts(rt, schema, spine, &tables, case.cells);
    are_totals(rt, alloc, schema, spine, &tables, case.states)?;
    are_sums(rt, schema, spine, &tables, case.places);
    Ok(())
}

// How far apart two lists of records are in a query of a level.
fn distance(
    alloc: Global,
    schema: &Schema,
    spine: &Spine,
    texts: (&str, &str),
    place: (usize, usize),
) -> Result<Option<u64>, Fail>
    requires belong { spine.now.depth ≡ length schema.now.levels }
    requires first { length texts.0.now ≤ 2 ^ 28 }
    requires second { length texts.1.now ≤ 2 ^ 28 }
{
    let (level, query) = place;
    if level >= schema.levels() || query >= schema.queries(level) {
        return Ok(None);
    }
    let first = read_records(alloc, schema, spine, texts.0.as_bytes())?;
    let second = read_records(alloc, schema, spine, texts.1.as_bytes())?;
    let found = square_distance(alloc, schema, spine, &first, &second, level, query)?;
    Ok(Some(found))
}

fn are_apart(
    rt: &impl Abort,
    alloc: Global,
    schema: &Schema,
    spine: &Spine,
    rows: &[(&str, &str, usize, usize, u64)],
) -> Result<(), Fail>
    requires { spine.now.depth ≡ length schema.now.levels }
{
    for (one, other, level, query, due) in rows {
        assert!(rt; one.len() < 1000 && other.len() < 1000);
        let found = distance(alloc, schema, spine, (*one, *other), (*level, *query))?;
        assert!(rt;
            found == Some(*due),
            "query {query} of level {level}: {other}"
        );
    }
    Ok(())
}

fn in_three_blocks(rt: &impl Abort, alloc: Global, schema: &Schema) -> Result<(), Fail> {
    let spine = read_spine(alloc, schema, THREE_BLOCKS.as_bytes())?;
    for case in CASES.iter() {
        of_case(rt, alloc, schema, &spine, case)?;
    }
    are_apart(rt, alloc, schema, &spine, &DISTANCES)
}

#[test]
fn counts_sums_and_distances(rt: HostRuntime) -> Result<(), Fail> {
    let schema = read_schema(rt.alloc(), FIVE_QUERIES.as_bytes())?;
    in_three_blocks(&rt, rt.alloc(), &schema)
}

fn of_houses(rt: &impl Abort, alloc: Global, schema: &Schema) -> Result<(), Fail> {
    let spine = read_spine(alloc, schema, TWO_BLOCKS.as_bytes())?;
    are_apart(rt, alloc, schema, &spine, &OF_HOUSES)
}

#[test]
fn distances_of_houses(rt: HostRuntime) -> Result<(), Fail> {
    let schema = read_schema(rt.alloc(), BLOCK_TOTALS.as_bytes())?;
    of_houses(&rt, rt.alloc(), &schema)
}
