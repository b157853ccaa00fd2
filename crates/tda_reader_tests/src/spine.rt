// Which texts are spines of a nation, its states and their blocks, and which fault any other text has.
ghost use Rattle.std.specs.Prelude.{◌≤◌, ◌^◌, length};

use std::alloc::{AllocError, Global};
use std::process::Abort;
use std::test::Fail;
use tda_fixtures::ONE_CELL;
use tda_schema::{Schema, read_schema};
use tda_spine::SpineFault::{self, *};
use tda_spine::read_spine;

// Also with line ends of two bytes, quotes, blank lines, parents that are named later, and a code of 16 bytes.
const SPINES: [&str; 4] = [
    "unit,level,parent\nUS,nation,\nS1,state,US\nB1,block,S1\nB2,block,S1\n",
    "unit,level,parent\r\n\"US\",nation,\r\n\r\nS1,\"state\",US\r\nB1,block,\"S1\"\r\n",
    "unit,level,parent\nB1,block,S1\nS1,state,US\nUS,nation,\n",
    "unit,level,parent\nUS,nation,\nS1,state,US\nB234567890123456,block,S1\n",
];

// Faults of the file's form. A row of another width comes before a wrong header.
const FORMS: [(&str, SpineFault); 7] = [
    (
        "unit,level,parent\nUS,nation,\nS1,state\nB1,block,S1\n",
        BadRow(3),
    ),
    ("unit,level\nUS,nation,\n", BadRow(2)),
    ("unit,level,above\nUS,nation,\nS1,state\n", BadRow(3)),
    ("unit,level,above\nUS,nation,\n", BadHeader(1)),
    ("US,nation,\nS1,state,US\nB1,block,S1\n", BadHeader(1)),
    ("", BadHeader(1)),
    ("\n\n", BadHeader(1)),
];

// Codes of 17 bytes, of none and with a space. The first row with a fault is told, but a row of another width comes
// before it; and of a row's own faults the first: a repeated code with an unknown parent.
const CODES: [(&str, SpineFault); 5] = [
    (
        "unit,level,parent\nUS,nation,\nS1,state,US\nB2345678901234567,block,S1\n",
        BadCode(4),
    ),
    ("unit,level,parent\n,nation,\n", BadCode(2)),
    (
        "unit,level,parent\nUS,nation,\nB 1,block,S1\nB 2,block\n",
        BadRow(4),
    ),
    ("unit,level,parent\nUS,nation,\nB 1,block,S1\n", BadCode(3)),
    (
        "unit,level,parent\nUS,nation,\nS1,state,US\nS1,block,S2\nB 1,block,S1\n",
        Repeated(4),
    ),
];

// A parent that is no row's code, the header's word, or known on a later row that has a fault itself. A unit of the
// first level with a parent that is unknown, and with one that is known.
const PARENTS: [(&str, SpineFault); 5] = [
    (
        "unit,level,parent\nUS,nation,\nS1,state,US\nB1,block,S1\nB2,block,S2\n",
        UnknownParent(5),
    ),
    (
        "unit,level,parent\nUS,nation,\nS1,state,unit\n",
        UnknownParent(3),
    ),
    (
        "unit,level,parent\nUS,nation,\nB1,block,S1\nS1,state,S9\n",
        UnknownParent(4),
    ),
    (
        "unit,level,parent\nUS,nation,S9\nS1,state,US\nB1,block,S1\n",
        UnknownParent(2),
    ),
    (
        "unit,level,parent\nUS,nation,S1\nS1,state,US\nB1,block,S1\n",
        WrongLevel(2),
    ),
];

// A level that is none; a parent two levels above; no parent; a unit that is its own parent; a parent of the last level.
// Of two rows with the parent's code the first counts.
const LEVELS: [(&str, SpineFault); 7] = [
    (
        "unit,level,parent\nUS,nation,\nS1,county,US\nB1,block,S1\n",
        WrongLevel(3),
    ),
    (
        "unit,level,parent\nUS,nation,\nS1,state,US\nB1,block,US\n",
        WrongLevel(4),
    ),
    (
        "unit,level,parent\nUS,nation,\nS1,state,\nB1,block,S1\n",
        WrongLevel(3),
    ),
    (
        "unit,level,parent\nUS,nation,\nS1,state,US\nB1,block,S1\nB2,block,B2\n",
        WrongLevel(5),
    ),
    (
        "unit,level,parent\nUS,nation,\nS1,state,US\nB1,block,S1\nB2,block,B1\n",
        WrongLevel(5),
    ),
    (
        "unit,level,parent\nB1,block,S1\nS1,block,B1\nS1,state,US\nUS,nation,\n",
        WrongLevel(2),
    ),
    (
        "unit,level,parent\nUS,nation,\nB1,block,S1\nS1,state,US\nS1,block,S1\n",
        Repeated(5),
    ),
];

// No nation, and two; states without a block, the first of which is told.
const TREES: [(&str, SpineFault); 5] = [
    ("unit,level,parent\n", NoNation),
    (
        "unit,level,parent\nUS,nation,\nS1,state,US\nUK,nation,\nS2,state,UK\nB2,block,S2\n",
        NoNation,
    ),
    ("unit,level,parent\nUS,nation,\n", Childless(0)),
    ("unit,level,parent\nUS,nation,\nS1,state,US\n", Childless(1)),
    (
        "unit,level,parent\nS3,state,US\nB3,block,S3\nS2,state,US\nUS,nation,\nS1,state,US\n",
        Childless(2),
    ),
];

// The fault of a text that is no spine.
fn fault_of(alloc: Global, schema: &Schema, text: &[u8]) -> Option<SpineFault>
    requires { length text.now ≤ 2 ^ 28 }
{
    read_spine(alloc, schema, text).err()
}

fn are_spines(rt: &impl Abort, alloc: Global, schema: &Schema) {
    for text in SPINES {
        assert!(rt; text.len() < 1000);
        assert!(rt; fault_of(alloc, schema, text.as_bytes()) == None, "{text}");
    }
}

fn are_refused(rt: &impl Abort, alloc: Global, schema: &Schema, table: &[(&str, SpineFault)]) {
    for (text, due) in table {
        assert!(rt; text.len() < 1000);
        assert!(rt;
            fault_of(alloc, schema, text.as_bytes()) == Some(*due),
            "{text}"
        );
    }
}

#[test]
fn small_texts(rt: HostRuntime) -> Result<(), Fail> {
    let schema = read_schema(rt.alloc(), ONE_CELL.as_bytes())?;
    are_spines(&rt, rt.alloc(), &schema);
    are_refused(&rt, rt.alloc(), &schema, &FORMS);
    are_refused(&rt, rt.alloc(), &schema, &CODES);
    are_refused(&rt, rt.alloc(), &schema, &PARENTS);
    are_refused(&rt, rt.alloc(), &schema, &LEVELS);
    are_refused(&rt, rt.alloc(), &schema, &TREES);
    let no_text = fault_of(rt.alloc(), &schema, b"unit,level,parent\n\xFF,nation,\n");
    assert!(rt; no_text == Some(BadCode(2)));
    Ok(())
}

// A spine of so many states, the first of which has so many blocks and each other one.
fn wide(alloc: Global, states: u32, blocks: u32) -> Result<String, AllocError> {
    let mut text = String::from_str(alloc, "unit,level,parent\nUS,nation,\n")?;
    for state in 0..states {
        text.push_str(&format!(in alloc; "S{state},state,US\n")?)?;
    }
    for state in 1..states {
        text.push_str(&format!(in alloc; "S{state}B,block,S{state}\n")?)?;
    }
    for block in 0..blocks {
        text.push_str(&format!(in alloc; "B{block},block,S0\n")?)?;
    }
    Ok(text)
}

// The fault of such a spine.
fn fault_of_wide(
    alloc: Global,
    schema: &Schema,
    states: u32,
    blocks: u32,
) -> Result<Option<SpineFault>, Fail> {
    let text = wide(alloc, states, blocks)?;
    if text.len() > 10_000_000 {
        return Err("a text that is too long".into());
    }
    Ok(fault_of(alloc, schema, text.as_bytes()))
}

fn are_judged(rt: &impl Abort, alloc: Global, schema: &Schema, rows: &[Row]) -> Result<(), Fail> {
    for (states, blocks, due) in rows {
        let fault = fault_of_wide(alloc, schema, *states, *blocks)?;
        assert!(rt; fault == *due, "{states} states and {blocks} blocks");
    }
    Ok(())
}

// The same under the schema of a text.
fn are_judged_under(rt: &impl Abort, alloc: Global, text: &str, rows: &[Row]) -> Result<(), Fail> {
    assert!(rt; text.len() < 1_000_000);
    let schema = read_schema(alloc, text.as_bytes())?;
    are_judged(rt, alloc, &schema, rows)
}

// States, blocks of the first state, and the fault.
type Row = (u32, u32, Option<SpineFault>);

// The fit of a unit's children has a node for the hub, the cell and each child; that of the nation has a node more, and
// comes before all others.
const CHILDREN: [Row; 4] = [
    (1, 2_046, None),
    (1, 2_047, Some(FitTooLarge(Some(1)))),
    (2_045, 1, None),
    (2_046, 2_047, Some(FitTooLarge(None))),
];

#[test]
fn most_children_of_one_unit(rt: HostRuntime) -> Result<(), Fail> {
    are_judged_under(&rt, rt.alloc(), ONE_CELL, &CHILDREN)
}

// Units are counted before fits are measured.
const UNITS: [Row; 2] = [
    (1, 131_070, Some(FitTooLarge(Some(1)))),
    (1, 131_071, Some(TooMany)),
];

#[test]
fn most_units(rt: HostRuntime) -> Result<(), Fail> {
    are_judged_under(&rt, rt.alloc(), ONE_CELL, &UNITS)
}

const FOUR_LEVELS: &str = r#"version = 1
total = "1"
attribute = [{ name = "kind", values = ["house"] }]
level = [{ name = "nation" }, { name = "state" }, { name = "county" }, { name = "block" }]
"#;

const NO_BLOCKS: &str = "unit,level,parent
US,nation,
S1,state,US
C1,county,S1
C2,county,S1
B1,block,C1
";

// Two counties of too many blocks: the second in the file stands under the first state.
fn two_counties(alloc: Global) -> Result<String, AllocError> {
    let mut text = String::from_str(
        alloc,
        "unit,level,parent\nC2,county,S2\nC1,county,S1\nUS,nation,\nS1,state,US\nS2,state,US\n",
    )?;
    for block in 0..2_047 {
        text.push_str(&format!(in alloc; "D{block},block,C2\nB{block},block,C1\n")?)?;
    }
    Ok(text)
}

fn fault_of_counties(alloc: Global, schema: &Schema) -> Result<Option<SpineFault>, Fail> {
    let text = two_counties(alloc)?;
    if text.len() > 10_000_000 {
        return Err("a text that is too long".into());
    }
    Ok(fault_of(alloc, schema, text.as_bytes()))
}

// A county without blocks; and the first large fit is the first in fit order.
#[test]
fn faults_of_counties(rt: HostRuntime) -> Result<(), Fail> {
    let schema = read_schema(rt.alloc(), FOUR_LEVELS.as_bytes())?;
    let childless = fault_of(rt.alloc(), &schema, NO_BLOCKS.as_bytes());
    assert!(rt; childless == Some(Childless(3)));
    let fault = fault_of_counties(rt.alloc(), &schema)?;
    assert!(rt; fault == Some(FitTooLarge(Some(1))));
    Ok(())
}

// A list of so many values, with those of the same attribute that stand from a place on.
fn values_from(
    alloc: Global,
    attribute: &str,
    start: u32,
    count: u32,
) -> Result<String, AllocError> {
    let mut text = String::from_str(alloc, "[")?;
    for value in start..count {
        text.push_str(&format!(in alloc; "\"{attribute}{value}\",")?)?;
    }
    text.push_str("]")?;
    Ok(text)
}

// 4,096 cells, of which only the first is possible.
fn one_of_many_cells(alloc: Global) -> Result<String, AllocError> {
    let all = values_from(alloc, "v", 0, 64)?;
    let others = values_from(alloc, "v", 1, 64)?;
    format!(in alloc;
        "version = 1\ntotal = \"1\"\nattribute = [{{ name = \"kind\", values = [\"house\"] }}, {{ name = \"a\", values = {all} }}, {{ name = \"b\", values = {all} }}]\nzero = [{{ a = {others} }}, {{ b = {others} }}]\nlevel = [{{ name = \"nation\" }}, {{ name = \"state\" }}, {{ name = \"block\" }}]\n"
    )
}

// All cells count, the impossible ones too.
const OF_MANY_CELLS: [Row; 2] = [(1, 1_022, None), (1, 1_023, Some(TooMany))];

#[test]
fn most_counts(rt: HostRuntime) -> Result<(), Fail> {
    let text = one_of_many_cells(rt.alloc())?;
    are_judged_under(&rt, rt.alloc(), &text, &OF_MANY_CELLS)
}

// A state without blocks, in a file of too many counts.
fn fault_of_childless(alloc: Global, schema: &Schema) -> Result<Option<SpineFault>, Fail> {
    let mut text = wide(alloc, 1, 1_023)?;
    text.push_str(
        "S1,state,US
",
    )?;
    if text.len() > 10_000_000 {
        return Err("a text that is too long".into());
    }
    Ok(fault_of(alloc, schema, text.as_bytes()))
}

fn fault_of_childless_under(alloc: Global, text: &str) -> Result<Option<SpineFault>, Fail> {
    if text.len() > 1_000_000 {
        return Err("a text that is too long".into());
    }
    let schema = read_schema(alloc, text.as_bytes())?;
    fault_of_childless(alloc, &schema)
}

#[test]
fn a_childless_unit_comes_before_too_many(rt: HostRuntime) -> Result<(), Fail> {
    let text = one_of_many_cells(rt.alloc())?;
    let fault = fault_of_childless_under(rt.alloc(), &text)?;
    assert!(rt; fault == Some(Childless(1_025)));
    Ok(())
}

// Kinds of quarters, each with so many values of one attribute and eleven of another.
fn cells_of_eleven(alloc: Global, kinds: u32, values: u32) -> Result<String, AllocError> {
    let kinds = values_from(alloc, "k", 0, kinds)?;
    let values = values_from(alloc, "a", 0, values)?;
    let eleven = values_from(alloc, "b", 0, 11)?;
    format!(in alloc;
        "version = 1\ntotal = \"1\"\nattribute = [{{ name = \"kind\", values = {kinds} }}, {{ name = \"a\", values = {values} }}, {{ name = \"b\", values = {eleven} }}]\nlevel = [{{ name = \"nation\" }}, {{ name = \"state\" }}, {{ name = \"block\" }}]\n"
    )
}

// The fit of a state's blocks has an arc for each cell, and for each block one for each cell and for each of its groups: all
// cells and, of several kinds, each kind. Of 561 cells and 115 blocks these are 65,536, of 330 cells and 197 blocks one more.
const ARCS: [(u32, u32, Row); 2] = [
    (3, 17, (1, 115, None)),
    (1, 30, (1, 197, Some(FitTooLarge(Some(1))))),
];

#[test]
fn most_arcs_of_one_fit(rt: HostRuntime) -> Result<(), Fail> {
    for (kinds, values, row) in ARCS {
        let text = cells_of_eleven(rt.alloc(), kinds, values)?;
        are_judged_under(&rt, rt.alloc(), &text, &[row])?;
    }
    Ok(())
}

// 64 cells, each of which is a class of each of a block's eight queries: 512 places.
fn many_places(alloc: Global) -> Result<String, AllocError> {
    let values = values_from(alloc, "v", 0, 64)?;
    let mut text = format!(in alloc;
        "version = 1\ntotal = \"1\"\nattribute = [{{ name = \"kind\", values = [\"house\"] }}, {{ name = \"a\", values = {values} }}]\nlevel = [{{ name = \"nation\" }}, {{ name = \"state\" }}, {{ name = \"block\", query = ["
    )?;
    for query in 0..8 {
        text.push_str(&format!(in alloc;
            "{{ name = \"q{query}\", by = [\"a\"], share = \"1/8\" }},"
        )?)?;
    }
    text.push_str("] }]\n")?;
    Ok(text)
}

// A spine of so many states of 16 blocks each.
fn even(alloc: Global, states: u32) -> Result<String, AllocError> {
    let mut text = String::from_str(alloc, "unit,level,parent\nUS,nation,\n")?;
    for state in 0..states {
        text.push_str(&format!(in alloc; "S{state},state,US\n")?)?;
    }
    for block in 0..16 * u64::from(states) {
        text.push_str(&format!(in alloc; "B{block},block,S{}\n", block / 16)?)?;
    }
    Ok(text)
}

fn fault_of_even(alloc: Global, schema: &Schema, states: u32) -> Result<Option<SpineFault>, Fail> {
    let text = even(alloc, states)?;
    if text.len() > 10_000_000 {
        return Err("a text that is too long".into());
    }
    Ok(fault_of(alloc, schema, text.as_bytes()))
}

fn are_even_judged(rt: &impl Abort, alloc: Global, text: &str) -> Result<(), Fail> {
    assert!(rt; text.len() < 1_000_000);
    let schema = read_schema(alloc, text.as_bytes())?;
    assert!(rt; fault_of_even(alloc, &schema, 256)? == None);
    assert!(rt; fault_of_even(alloc, &schema, 257)? == Some(TooMany));
    Ok(())
}

#[test]
fn most_places(rt: HostRuntime) -> Result<(), Fail> {
    let text = many_places(rt.alloc())?;
    are_even_judged(&rt, rt.alloc(), &text)
}
