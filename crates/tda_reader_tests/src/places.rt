// The order of the places, which texts are measurements, and which fault any other text has.
ghost use Rattle.std.specs.Prelude.{◌≡◌, ◌≤◌, ◌^◌, length};
ghost use Rattle.tda_places.specs.Measurements.{AreMeasurementsOf, IsWithinLimit};
ghost use Rattle.tda_places.specs.Places.{places_of};

use std::alloc::Global;
use std::process::Abort;
use std::test::Fail;
use tda_fixtures::{
    BLOCK_TOTALS, FOUR_CELLS, ONE_CELL, OUTER_LEVELS, TWINS, TWO_BLOCKS, TWO_STATES,
};
use tda_places::{
    MeaFault, Measurements, Place, count, place_at, read_measurements, write_measurements,
};
use tda_schema::{Schema, read_schema};
use tda_spine::{Spine, read_spine};

// A schema and a spine, with unit, query and class of each of their places, and texts with their measurements.
struct Case {
    schema: &'static str,
    spine: &'static str,
    places: &'static [(u32, u32, u32)],
    texts: &'static [(&'static str, &'static [i64])],
}

const CASES: [Case; 5] = [
    Case {
        schema: BLOCK_TOTALS,
        spine: TWO_BLOCKS,
        places: &[(2, 0, 0), (3, 0, 0)],
        texts: &[
            (
                "unit,query,class,value\nB1,total,0,3\nB2,total,0,4\n",
                &[3, 4],
            ),
            (
                "unit,query,class,value\nB1,total,0,2147483648\nB2,total,0,-2147483648\n",
                &[2_147_483_648, -2_147_483_648],
            ),
            (
                "\"unit\",query,class,value\r\n\nB1,\"total\",0,-1\r\nB2,total,0,0",
                &[-1, 0],
            ),
        ],
    },
    Case {
        schema: ONE_CELL,
        spine: TWO_BLOCKS,
        places: &[],
        texts: &[("unit,query,class,value\n", &[])],
    },
    Case {
        schema: TWINS,
        spine: TWO_BLOCKS,
        places: &[(2, 0, 0), (2, 1, 0), (3, 0, 0), (3, 1, 0)],
        texts: &[(
            "unit,query,class,value\nB1,total,0,3\nB1,kind,0,4\nB2,total,0,-5\nB2,kind,0,6\n",
            &[3, 4, -5, 6],
        )],
    },
    Case {
        schema: OUTER_LEVELS,
        spine: TWO_BLOCKS,
        places: &[(0, 0, 0), (2, 0, 0), (3, 0, 0)],
        texts: &[(
            "unit,query,class,value\nUS,all,0,7\nB1,total,0,3\nB2,total,0,4\n",
            &[7, 3, 4],
        )],
    },
    Case {
        schema: FOUR_CELLS,
        spine: TWO_STATES,
        places: &[
            (1, 0, 0),
            (1, 0, 2),
            (1, 1, 0),
            (3, 0, 0),
            (3, 0, 2),
            (3, 1, 0),
            (2, 0, 0),
            (2, 0, 1),
            (2, 0, 2),
            (4, 0, 0),
            (4, 0, 1),
            (4, 0, 2),
        ],
        texts: &[(WIDE_TEXT, &[0, 1, 2, 3, 4, 5, 6, 7, 8, 9, 10, 11])],
    },
];

const WIDE_TEXT: &str = "unit,query,class,value
S1,kind,0,0
S1,kind,2,1
S1,all,0,2
S2,kind,0,3
S2,kind,2,4
S2,all,0,5
B1,detail,0,6
B1,detail,1,7
B1,detail,2,8
B2,detail,0,9
B2,detail,1,10
B2,detail,2,11
";

const WRONG_PLACES: [(&str, MeaFault); 9] = [
    (
        "unit,query,class,value\nB1,total,0,3\nB1,total,0,3\n",
        MeaFault::WrongPlace(3),
    ),
    (
        "unit,query,class,value\nB2,total,0,4\nB1,total,0,3\n",
        MeaFault::WrongPlace(2),
    ),
    (
        "unit,query,class,value\nS1,total,0,3\n",
        MeaFault::WrongPlace(2),
    ),
    (
        "unit,query,class,value\nb1,total,0,3\n",
        MeaFault::WrongPlace(2),
    ),
    (
        "unit,query,class,value\nB1,Total,0,3\n",
        MeaFault::WrongPlace(2),
    ),
    (
        "unit,query,class,value\nB1,total,1,3\n",
        MeaFault::WrongPlace(2),
    ),
    (
        "unit,query,class,value\nB1,total,00,3\n",
        MeaFault::WrongPlace(2),
    ),
    (
        "unit,query,class,value\nB1,total,,3\n",
        MeaFault::WrongPlace(2),
    ),
    (
        "unit,query,class,value\nB2,total,0,x\n",
        MeaFault::WrongPlace(2),
    ),
];

const BAD_NUMBERS: [(&str, MeaFault); 9] = [
    (
        "unit,query,class,value\nB1,total,0,x\nB1,total,0,3\n",
        MeaFault::BadNumber(2),
    ),
    (
        "unit,query,class,value\nB1,total,0,2147483649\nB2,total,0,4\n",
        MeaFault::BadNumber(2),
    ),
    (
        "unit,query,class,value\nB1,total,0,3\nB2,total,0,-2147483649\n",
        MeaFault::BadNumber(3),
    ),
    (
        "unit,query,class,value\nB1,total,0,-0\nB2,total,0,4\n",
        MeaFault::BadNumber(2),
    ),
    (
        "unit,query,class,value\nB1,total,0,+3\nB2,total,0,4\n",
        MeaFault::BadNumber(2),
    ),
    (
        "unit,query,class,value\nB1,total,0,03\nB2,total,0,4\n",
        MeaFault::BadNumber(2),
    ),
    (
        "unit,query,class,value\nB1,total,0,\n",
        MeaFault::BadNumber(2),
    ),
    (
        "unit,query,class,value\nB1,total,0,3\nB2,total,0,4\nB2,total,0,-0\n",
        MeaFault::BadNumber(4),
    ),
    (
        "unit,query,class,value\nB1,total,0,3\nB2,total,0,4\n,,,2147483649\n",
        MeaFault::BadNumber(4),
    ),
];

const OTHER_FAULTS: [(&str, MeaFault); 12] = [
    (
        "unit,query,class,value\nB1,total,0,3\nB2,total,0,4\nB2,total,0,4\n",
        MeaFault::TooMany(4),
    ),
    (
        "unit,query,class,value\nB1,total,0,3\nB2,total,0,4\n,,,0\nx,x,x,x\n",
        MeaFault::TooMany(4),
    ),
    ("unit,query,class,value\nB1,total,0,3\n", MeaFault::Missing),
    ("unit,query,class,value\n", MeaFault::Missing),
    ("", MeaFault::BadHeader(1)),
    ("\n\n", MeaFault::BadHeader(1)),
    ("B1,total,0,3\nB2,total,0,4\n", MeaFault::BadHeader(1)),
    (
        "unit,query,value,class\nB1,total,3,0\n",
        MeaFault::BadHeader(1),
    ),
    ("unit,query,class\nB1,total,0\n", MeaFault::BadHeader(1)),
    (
        "unit,query,class,value,\nB1,total,0,3,\n",
        MeaFault::BadHeader(1),
    ),
    ("unit,query,class,Value\nB1,total,0\n", MeaFault::BadRow(2)),
    (
        "unit,query,class,value\nB2,total,0,x\nB1,total,0,3\nB2\n",
        MeaFault::BadRow(4),
    ),
];

// Whether the places are these, in order.
fn are_places(schema: &Schema, spine: &Spine, due: &[(u32, u32, u32)]) -> bool
    requires { spine.now.depth ≡ length schema.now.levels }
{
    let count = count(schema, spine);
    if count != due.len() as u64 {
        return false;
    }
    for index in 0..count {
        let (unit, query, class) = due[index as usize];
        if place_at(schema, spine, index) != (Place { unit, query, class }) {
            return false;
        }
    }
    true
}

// Whether these are the measurements, one for each place.
fn are_numbers(schema: &Schema, spine: &Spine, measurements: &Measurements, due: &[i64]) -> bool
    requires belong { spine.now.depth ≡ length schema.now.levels }
    requires measured { AreMeasurementsOf schema.now spine.now measurements.now }
{
    if count(schema, spine) != due.len() as u64 {
        return false;
    }
    for (index, number) in due.iter().enumerate() {
        if measurements.get(index as u64) != *number {
            return false;
        }
    }
    true
}

// Whether a text has these measurements.
fn has_numbers(
    alloc: Global,
    schema: &Schema,
    spine: &Spine,
    text: &str,
    due: &[i64],
) -> Result<bool, MeaFault>
    requires belong { spine.now.depth ≡ length schema.now.levels }
    requires limit { length text.now ≤ 2 ^ 28 }
{
    let measurements = read_measurements(alloc, schema, spine, text.as_bytes())?;
    Ok(are_numbers(schema, spine, &measurements, due))
}

fn have_numbers(
    rt: &impl Abort,
    alloc: Global,
    schema: &Schema,
    spine: &Spine,
    texts: &[(&str, &[i64])],
) -> Result<(), Fail>
    requires { spine.now.depth ≡ length schema.now.levels }
{
    for (text, due) in texts {
        assert!(rt; text.len() < 1000);
        let same = has_numbers(alloc, schema, spine, text, due)?;
        assert!(rt; same, "{due:?}");
    }
    Ok(())
}

fn of_schema(rt: &impl Abort, alloc: Global, schema: &Schema, case: &Case) -> Result<(), Fail> {
    assert!(rt; case.spine.len() < 1000);
    let spine = read_spine(alloc, schema, case.spine.as_bytes())?;
    assert!(rt; are_places(schema, &spine, case.places));
    have_numbers(rt, alloc, schema, &spine, case.texts)
}

fn of_case(rt: &impl Abort, alloc: Global, case: &Case) -> Result<(), Fail> {
    assert!(rt; case.schema.len() < 1000);
    let schema = read_schema(alloc, case.schema.as_bytes())?;
    of_schema(rt, alloc, &schema, case)
}

#[test]
fn places_and_measurements(rt: HostRuntime) -> Result<(), Fail> {
    for case in CASES.iter() {
        of_case(&rt, rt.alloc(), case)?;
    }
    Ok(())
}

// Whether each measurement is its index, and that of the place at the index.
fn are_indexes(schema: &Schema, spine: &Spine, measurements: &Measurements) -> bool
    requires belong { spine.now.depth ≡ length schema.now.levels }
    requires measured { AreMeasurementsOf schema.now spine.now measurements.now }
{
    for index in 0..count(schema, spine) {
        let place = place_at(schema, spine, index);
        let number = measurements.at(schema, spine, place);
        if measurements.get(index) != number || u64::try_from(number) != Ok(index) {
            return false;
        }
    }
    true
}

// Whether a text has the indexes as measurements, and is written as it was read.
fn is_written_again(
    alloc: Global,
    schema: &Schema,
    spine: &Spine,
    text: &[u8],
) -> Result<bool, Fail>
    requires belong { spine.now.depth ≡ length schema.now.levels }
    requires text { length text.now ≤ 2 ^ 30 }
{
    let measurements = read_measurements(alloc, schema, spine, text)?;
    let mut out = vec![in alloc; b'x']?;
    write_measurements(schema, spine, &measurements, &mut out)?;
    let same = out.strip_prefix(b"x") == Some(text);
    Ok(same && are_indexes(schema, spine, &measurements))
}

// The same of two states.
fn is_written_on_two_states(alloc: Global, schema: &Schema) -> Result<bool, Fail> {
    let spine = read_spine(alloc, schema, TWO_STATES.as_bytes())?;
    is_written_again(alloc, schema, &spine, WIDE_TEXT.as_bytes())
}

#[test]
fn written_as_it_was_read(rt: HostRuntime) -> Result<(), Fail> {
    let schema = read_schema(rt.alloc(), FOUR_CELLS.as_bytes())?;
    let same = is_written_on_two_states(rt.alloc(), &schema)?;
    assert!(rt; same);
    Ok(())
}

// Whether two numbers are read as they were written.
fn are_read_again(
    alloc: Global,
    schema: &Schema,
    spine: &Spine,
    first: i64,
    second: i64,
) -> Result<bool, Fail>
    requires belong { spine.now.depth ≡ length schema.now.levels }
    requires places { length (places_of schema.now spine.now) ≡ 2 }
    requires first { IsWithinLimit first }
    requires second { IsWithinLimit second }
{
    let numbers = vec![in alloc; first, second]?;
    let measurements = Measurements::from_list(schema, spine, numbers);
    let mut text = Vec::new(alloc);
    write_measurements(schema, spine, &measurements, &mut text)?;
    if text.len() > 1000 {
        return Ok(false);
    }
    let again = read_measurements(alloc, schema, spine, &text)?;
    Ok(again.get(0) == first && again.get(1) == second)
}

// Whether the outermost numbers are read as they were written.
fn are_outermost_kept(alloc: Global, schema: &Schema, spine: &Spine) -> Result<bool, Fail>
    requires { spine.now.depth ≡ length schema.now.levels }
{
    if count(schema, spine) != 2 {
        return Ok(false);
    }
    are_read_again(alloc, schema, spine, 1 << 31, -(1 << 31))
}

fn are_refused(
    rt: &impl Abort,
    alloc: Global,
    schema: &Schema,
    spine: &Spine,
    texts: &[(&str, MeaFault)],
)
    requires { spine.now.depth ≡ length schema.now.levels }
{
    for (text, due) in texts {
        assert!(rt; text.len() < 1000);
        let fault = read_measurements(alloc, schema, spine, text.as_bytes()).err();
        assert!(rt; fault == Some(*due), "{text}");
    }
}

fn on_two_blocks(rt: &impl Abort, alloc: Global, schema: &Schema) -> Result<(), Fail> {
    let spine = read_spine(alloc, schema, TWO_BLOCKS.as_bytes())?;
    let same = are_outermost_kept(alloc, schema, &spine)?;
    assert!(rt; same);
    are_refused(rt, alloc, schema, &spine, &WRONG_PLACES);
    are_refused(rt, alloc, schema, &spine, &BAD_NUMBERS);
    are_refused(rt, alloc, schema, &spine, &OTHER_FAULTS);
    Ok(())
}

#[test]
fn first_faults_and_outermost_numbers(rt: HostRuntime) -> Result<(), Fail> {
    let schema = read_schema(rt.alloc(), BLOCK_TOTALS.as_bytes())?;
    on_two_blocks(&rt, rt.alloc(), &schema)
}
