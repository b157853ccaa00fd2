// What tables keep, and the file that they are written to.
ghost use Rattle.std.specs.Prelude.{OnOk};
ghost use Rattle.tda_out.specs.Counts.{AreCountsOf};

use std::alloc::Global;
use std::process::Abort;
use std::test::Fail;
use tda_io::{NoMemory, PERSONS};
use tda_out::{Tables, write_tables, write_tables_header};
use tda_schema::{Schema, read_schema};
use tda_spine::{Spine, read_spine};

const TWO_CELLS: &str = r#"version = 1
total = "1"

[[attribute]]
name = "kind"
values = ["house", "dorm"]

[[level]]
name = "nation"

[[level]]
name = "state"

[[level]]
name = "block"
"#;

// In file order the units are S2, B1, US, B2, S1 and B3.
const SPINE: &str = "unit,level,parent
S2,state,US
B1,block,S1
US,nation,
B2,block,S2
S1,state,US
B3,block,S1
";

// The counts of units in file order, two for each, and the file.
const FILES: [(&[u64], &str); 5] = [
    (&[0, 0, 0, 0, 0, 0, 0, 0, 0, 0, 0, 0], "unit,cell,count\n"),
    (
        &[1, 0, 2, 0, 6, 0, 1, 0, 5, 0, 3, 0],
        "unit,cell,count\nUS,0,6\nS2,0,1\nS1,0,5\nB2,0,1\nB1,0,2\nB3,0,3\n",
    ),
    (
        &[0, 4, 2, 1, 5, 5, 0, 4, 5, 1, 3, 0],
        "unit,cell,count\nUS,0,5\nUS,1,5\nS2,1,4\nS1,0,5\nS1,1,1\nB2,1,4\nB1,0,2\nB1,1,1\nB3,0,3\n",
    ),
    (
        &[0, 0, 0, 0, 0, PERSONS, 0, 0, 0, PERSONS, PERSONS, 0],
        "unit,cell,count\nUS,1,1073741824\nS1,1,1073741824\nB3,0,1073741824\n",
    ),
    // Nothing asks that the counts add up.
    (
        &[0, 0, 0, 7, 0, 0, 0, 0, 0, 0, 0, 0],
        "unit,cell,count\nB1,1,7\n",
    ),
];

// Units and cells with counts: each change in turn, and what stands in the end.
const CHANGES: [(u32, u32, u64); 5] = [(3, 0, PERSONS), (5, 0, 1), (1, 1, 7), (5, 1, 9), (5, 0, 2)];

const KEPT: [(u32, u32, u64); 9] = [
    (0, 1, 0),
    (1, 0, 0),
    (1, 1, 7),
    (2, 0, 0),
    (3, 0, PERSONS),
    (3, 1, 0),
    (4, 0, 0),
    (5, 0, 2),
    (5, 1, 9),
];

// Changes counts, each of a unit and a cell.
fn set_all(
    rt: &impl Abort,
    schema: &Schema,
    spine: &Spine,
    tables: &mut Tables,
) -> Result<(), NoMemory>
    requires { AreCountsOf schema.now spine.now tables.old }
    ensures { OnOk result (AreCountsOf schema.now spine.now tables.new) }
{
    for (unit, cell, count) in CHANGES {
        assert!(rt; unit < spine.units());
        assert!(rt; cell < schema.cells());
        assert!(rt; count <= PERSONS);
        tables.set(unit, cell, count)?;
    }
    Ok(())
}

fn are_kept(rt: &impl Abort, schema: &Schema, spine: &Spine, tables: &Tables)
    requires { AreCountsOf schema.now spine.now tables.now }
{
    for (unit, cell, count) in KEPT {
        assert!(rt; unit < spine.units() && cell < schema.cells());
        assert!(rt;
            tables.get(unit, cell) == count,
            "cell {cell} of unit {unit}"
        );
    }
}

// Tables of these units, of which some counts are changed.
fn of_units(rt: &impl Abort, alloc: Global, schema: &Schema, spine: &Spine) -> Result<(), Fail> {
    let mut tables = Tables::new(alloc, schema, spine)?;
    set_all(rt, schema, spine, &mut tables)?;
    are_kept(rt, schema, spine, &tables);
    Ok(())
}

fn counts_of(alloc: Global, units: &[u32], counts: &[u64]) -> Result<Vec<u64>, Fail> {
    let mut numbers = Vec::new(alloc);
    for unit in units {
        let first = 2 * *unit as usize;
        numbers.push(*counts.get(first).ok_or("no count")?)?;
        numbers.push(*counts.get(first + 1).ok_or("no count")?)?;
    }
    Ok(numbers)
}

// Appends the rows of these units by both counts of each unit.
fn write_some(
    alloc: Global,
    schema: &Schema,
    spine: &Spine,
    units: &[u32],
    counts: &[u64],
    out: &mut Vec<u8>,
) -> Result<(), Fail> {
    let known = spine.units();
    let needed = units.len().checked_mul(schema.cells() as usize);
    let numbers = counts_of(alloc, units, counts)?;
    if !units.iter().all(|unit| *unit < known) || needed != Some(numbers.len()) {
        return Err("no units with their counts".into());
    }
    write_tables(schema, spine, units, &numbers, out)?;
    Ok(())
}

// Appends the rows of all units.
fn write_all(
    alloc: Global,
    schema: &Schema,
    spine: &Spine,
    counts: &[u64],
    out: &mut Vec<u8>,
) -> Result<(), Fail> {
    write_some(alloc, schema, spine, &[spine.nation()], counts, out)?;
    let known = spine.units();
    for parent in spine.parents() {
        if *parent >= known {
            return Err("no unit".into());
        }
        write_some(alloc, schema, spine, spine.children(*parent), counts, out)?;
    }
    Ok(())
}

fn are_written(rt: &impl Abort, alloc: Global, schema: &Schema, spine: &Spine) -> Result<(), Fail> {
    for (counts, file) in FILES {
        let mut out = Vec::new(alloc);
        write_tables_header(&mut out)?;
        write_all(alloc, schema, spine, counts, &mut out)?;
        assert!(rt; out.as_slice() == file.as_bytes(), "{file}");
    }
    Ok(())
}

fn of_schema(rt: &impl Abort, alloc: Global, schema: &Schema) -> Result<(), Fail> {
    let spine = read_spine(alloc, schema, SPINE.as_bytes())?;
    of_units(rt, alloc, schema, &spine)?;
    are_written(rt, alloc, schema, &spine)
}

#[test]
fn counts_and_files_of_tables(rt: HostRuntime) -> Result<(), Fail> {
    let schema = read_schema(rt.alloc(), TWO_CELLS.as_bytes())?;
    of_schema(&rt, rt.alloc(), &schema)
}
