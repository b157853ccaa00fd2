// Which texts are totals of states, which fault any other text has, and what is written.
ghost use Rattle.std.specs.Prelude.{◌≡◌, ◌≤◌, ◌^◌, length};

use std::alloc::{AllocError, Global};
use std::process::Abort;
use std::test::Fail;
use tda_fixtures::{ONE_CELL, TWO_STATES};
use tda_invar::{TotFault, Totals, read_totals, write_totals};
use tda_schema::{Schema, read_schema};
use tda_spine::{Spine, read_spine};

// Texts, a state, and its total.
const TOTALS: [(&str, u32, u64); 12] = [
    ("state,total\nS1,5\nS2,7\n", 1, 5),
    ("state,total\nS1,5\nS2,7\n", 3, 7),
    ("state,total\nS2,7\nS1,5\n", 1, 5),
    ("state,total\nS2,7\nS1,5\n", 3, 7),
    ("state,total\nS1,0\nS2,0\n", 1, 0),
    ("state,total\nS1,0\nS2,0\n", 3, 0),
    ("state,total\r\n\"S1\",\"5\"\r\n\nS2,7", 1, 5),
    ("state,total\r\n\"S1\",\"5\"\r\n\nS2,7", 3, 7),
    ("state,total\nS1,1073741824\nS2,0\n", 1, 1073741824),
    ("state,total\nS1,1073741824\nS2,0\n", 3, 0),
    ("state,total\nS1,1073741823\nS2,1\n", 1, 1073741823),
    ("state,total\nS1,1073741823\nS2,1\n", 3, 1),
];

const REFUSED: [(&str, TotFault); 26] = [
    ("state,total\nS1,5,\nS2,7\n", TotFault::BadRow(2)),
    ("total,state\nS1,5\nS2\n", TotFault::BadRow(3)),
    ("", TotFault::BadHeader(1)),
    ("S1,5\nS2,7\n", TotFault::BadHeader(1)),
    ("total,state\nS1,5\nS2,7\n", TotFault::BadHeader(1)),
    ("State,total\nS1,5\nS2,7\n", TotFault::BadHeader(1)),
    ("state,total,\nS1,5,\nS2,7,\n", TotFault::BadHeader(1)),
    ("state,total\nS1,5\nS2,7\nS3,0\n", TotFault::UnknownState(4)),
    (
        "state,total\nS1,5\nUS,12\nS2,x\n",
        TotFault::UnknownState(3),
    ),
    ("state,total\nB1,5\nS1,5\nS2,7\n", TotFault::UnknownState(2)),
    ("state,total\ns1,x\nS2,7\n", TotFault::UnknownState(2)),
    ("state,total\nS1,5\nS2,7\nS1,5\n", TotFault::Repeated(4)),
    ("state,total\nS1,0\nS1,x\nS2,7\n", TotFault::Repeated(3)),
    ("state,total\nS1,5\n", TotFault::Missing(3)),
    ("state,total\nS2,1073741824\n", TotFault::Missing(1)),
    ("state,total\n", TotFault::Missing(1)),
    ("state,total\nS1,1073741825\n", TotFault::BadCount(2)),
    (
        "state,total\nS1,18446744073709551616\nS2,0\n",
        TotFault::BadCount(2),
    ),
    ("state,total\nS1,5\nS2,07\nS1,5\n", TotFault::BadCount(3)),
    ("state,total\nS1,+5\nS2,7\n", TotFault::BadCount(2)),
    ("state,total\nS1,-5\nS2,7\n", TotFault::BadCount(2)),
    ("state,total\nS1,-0\nS2,7\n", TotFault::BadCount(2)),
    ("state,total\nS1,\nS2,7\n", TotFault::BadCount(2)),
    ("state,total\nS1,5 \nS2,7\n", TotFault::BadCount(2)),
    (
        "state,total\nS1,1073741823\nS2,2\n",
        TotFault::TooManyPersons,
    ),
    (
        "state,total\nS1,1073741824\nS2,1073741824\n",
        TotFault::TooManyPersons,
    ),
];

// The total of a state.
fn total_in(alloc: Global, spine: &Spine, text: &str, state: u32) -> Result<Option<u64>, TotFault>
    requires { length text.now ≤ 2 ^ 28 }
{
    let totals = read_totals(alloc, spine, text.as_bytes())?;
    if state >= spine.units() || spine.level(state) != 1 {
        return Ok(None);
    }
    Ok(Some(totals.get(spine, state)))
}

fn are_read(rt: &impl Abort, alloc: Global, spine: &Spine) -> Result<(), Fail> {
    for (text, state, due) in TOTALS {
        assert!(rt; text.len() < 1000);
        let total = total_in(alloc, spine, text, state)?;
        assert!(rt; total == Some(due), "unit {state}: {text}");
    }
    Ok(())
}

fn are_refused(rt: &impl Abort, alloc: Global, spine: &Spine) {
    for (text, due) in REFUSED {
        assert!(rt; text.len() < 1000);
        let fault = read_totals(alloc, spine, text.as_bytes()).err();
        assert!(rt; fault == Some(due), "{text}");
    }
}

// Totals that were read are written in the order of the states.
fn are_written(rt: &impl Abort, alloc: Global, spine: &Spine) -> Result<(), Fail> {
    let totals = read_totals(alloc, spine, b"state,total\nS2,7\nS1,1073741800\n")?;
    let mut out = Vec::from_slice(alloc, b"before,")?;
    write_totals(spine, &totals, &mut out)?;
    assert!(rt; out.as_slice() == b"before,state,total\nS1,1073741800\nS2,7\n".as_slice());
    Ok(())
}

// The total of a state, where five persons live in the first of two states and seven in the second.
fn listed(alloc: Global, spine: &Spine, state: u32) -> Result<Option<u64>, AllocError> {
    if state >= spine.units() || spine.level(state) != 1 || spine.at_level(1).len() != 2 {
        return Ok(None);
    }
    let list = vec![in alloc; 5, 7]?;
    Ok(Some(Totals::from_list(spine, list).get(spine, state)))
}

fn on_two_states(rt: &impl Abort, alloc: Global, schema: &Schema) -> Result<(), Fail> {
    let spine = read_spine(alloc, schema, TWO_STATES.as_bytes())?;
    are_read(rt, alloc, &spine)?;
    are_refused(rt, alloc, &spine);
    are_written(rt, alloc, &spine)?;
    assert!(rt; listed(alloc, &spine, 1)? == Some(5));
    assert!(rt; listed(alloc, &spine, 3)? == Some(7));
    Ok(())
}

#[test]
fn totals_of_states(rt: HostRuntime) -> Result<(), Fail> {
    let schema = read_schema(rt.alloc(), ONE_CELL.as_bytes())?;
    on_two_states(&rt, rt.alloc(), &schema)
}
