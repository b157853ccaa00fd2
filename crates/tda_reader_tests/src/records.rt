// Which texts are records, and which fault any other text has.
ghost use Rattle.std.specs.Prelude.{◌≡◌, ◌≤◌, ◌^◌, length};

use std::alloc::Global;
use std::process::Abort;
use std::test::Fail;
use tda_fixtures::{FOUR_CELLS, ONE_CELL, TWO_STATES};
use tda_records::{RecFault, read_records};
use tda_schema::{Schema, read_schema};
use tda_spine::{Spine, read_spine};

// Texts, and the block and the cell of each record, of one cell.
const ACCEPTED: [(&str, &[(u32, u32)]); 4] = [
    ("block,kind\n", &[]),
    (
        "block,kind\nB2,house\nB1,house\nB2,house\n",
        &[(4, 0), (2, 0), (4, 0)],
    ),
    (
        "block,kind\r\n\"B1\",\"house\"\r\n\nB2,house",
        &[(2, 0), (4, 0)],
    ),
    ("\n\"block\",kind\n\nB1,house\n\n", &[(2, 0)]),
];

const REFUSED: [(&str, RecFault); 18] = [
    ("block,kind\nB1,house,\n", RecFault::BadRow(2)),
    ("block,kind\nB3,house\nB1,dorm\nB1\n", RecFault::BadRow(4)),
    ("kind,block\nB1,house\nB1\n", RecFault::BadRow(3)),
    ("", RecFault::BadHeader(1)),
    ("\n\n", RecFault::BadHeader(1)),
    ("B1,house\n", RecFault::BadHeader(1)),
    ("block\nB1\n", RecFault::BadHeader(1)),
    ("kind,block\nhouse,B1\n", RecFault::BadHeader(1)),
    ("block,Kind\nB3,house\n", RecFault::BadHeader(1)),
    ("block,kind,sex\nB1,house,f\n", RecFault::BadHeader(1)),
    (
        "block,kind\nB1,house\nS1,house\n",
        RecFault::UnknownBlock(3),
    ),
    ("block,kind\nUS,dorm\n", RecFault::UnknownBlock(2)),
    ("block,kind\n,house\n", RecFault::UnknownBlock(2)),
    (
        "block,kind\n\nb1,house\nB1,dorm\n",
        RecFault::UnknownBlock(2),
    ),
    ("block,kind\nB1,dorm\nB3,house\n", RecFault::UnknownValue(2)),
    ("block,kind\nB1,house\nB2,\n", RecFault::UnknownValue(3)),
    ("block,kind\nB2,house \n", RecFault::UnknownValue(2)),
    ("block,kind\nB2,kind\n", RecFault::UnknownValue(2)),
];

// The same of a kind and a sex.
const ACCEPTED_CELLS: [(&str, &[(u32, u32)]); 1] = [(
    "block,kind,sex\nB1,house,m\nB2,dorm,f\nB1,house,f\n",
    &[(2, 1), (4, 2), (2, 0)],
)];

const REFUSED_CELLS: [(&str, RecFault); 6] = [
    (
        "block,kind,sex\nB1,house,f\nB2,dorm,m\n",
        RecFault::ImpossibleCell(3),
    ),
    ("block,sex,kind\nB1,f,house\n", RecFault::BadHeader(1)),
    ("block,kind,sex\nB3,dorm,m\n", RecFault::UnknownBlock(2)),
    (
        "block,kind,sex\nB1,dorm,x\nB1,dorm,m\n",
        RecFault::UnknownValue(2),
    ),
    ("block,kind,sex\nB1,f,house\n", RecFault::UnknownValue(2)),
    ("block,kind,sex\nB1,dorm,m\nB1,dorm\n", RecFault::BadRow(3)),
];

type Accepted<'a> = &'a [(&'static str, &'static [(u32, u32)])];

type Refused<'a> = &'a [(&'static str, RecFault)];

// Whether a text has these records.
fn has_records(
    alloc: Global,
    schema: &Schema,
    spine: &Spine,
    text: &str,
    due: &[(u32, u32)],
) -> Result<bool, RecFault>
    requires belong { spine.now.depth ≡ length schema.now.levels }
    requires limit { length text.now ≤ 2 ^ 28 }
{
    let records = read_records(alloc, schema, spine, text.as_bytes())?;
    if records.len() != due.len() {
        return Ok(false);
    }
    for (i, place) in due.iter().enumerate() {
        if (records.block(i), records.cell(i)) != *place {
            return Ok(false);
        }
    }
    Ok(true)
}

fn are_accepted(
    rt: &impl Abort,
    alloc: Global,
    schema: &Schema,
    spine: &Spine,
    rows: Accepted<'_>,
) -> Result<(), Fail>
    requires { spine.now.depth ≡ length schema.now.levels }
{
    for (text, due) in rows {
        assert!(rt; text.len() < 1000);
        let same = has_records(alloc, schema, spine, text, due)?;
        assert!(rt; same, "{text}");
    }
    Ok(())
}

fn are_refused(rt: &impl Abort, alloc: Global, schema: &Schema, spine: &Spine, rows: Refused<'_>)
    requires { spine.now.depth ≡ length schema.now.levels }
{
    for (text, due) in rows {
        assert!(rt; text.len() < 1000);
        let fault = read_records(alloc, schema, spine, text.as_bytes()).err();
        assert!(rt; fault == Some(*due), "{text}");
    }
}

// Both, on two states.
fn on_two_states(
    rt: &impl Abort,
    alloc: Global,
    schema: &Schema,
    accepted: Accepted<'_>,
    refused: Refused<'_>,
) -> Result<(), Fail> {
    let spine = read_spine(alloc, schema, TWO_STATES.as_bytes())?;
    are_accepted(rt, alloc, schema, &spine, accepted)?;
    are_refused(rt, alloc, schema, &spine, refused);
    Ok(())
}

#[test]
fn records_of_one_cell(rt: HostRuntime) -> Result<(), Fail> {
    let schema = read_schema(rt.alloc(), ONE_CELL.as_bytes())?;
    on_two_states(&rt, rt.alloc(), &schema, &ACCEPTED, &REFUSED)
}

#[test]
fn records_of_three_cells(rt: HostRuntime) -> Result<(), Fail> {
    let schema = read_schema(rt.alloc(), FOUR_CELLS.as_bytes())?;
    on_two_states(&rt, rt.alloc(), &schema, &ACCEPTED_CELLS, &REFUSED_CELLS)
}
