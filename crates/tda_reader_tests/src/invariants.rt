// The fault of facilities and totals together, and the bounds of units that they come to.
ghost use Rattle.std.specs.Prelude.{◌≡◌, ◌≤◌, ◌^◌, IfOk, length};
ghost use Rattle.tda_invar.specs.Known.{IsJoined};

use std::alloc::Global;
use std::process::Abort;
use std::test::Fail;
use tda_fixtures::{THREE_BLOCKS, THREE_KINDS};
use tda_invar::{Invariants, JoinFault, join, read_facilities, read_totals};
use tda_io::PERSONS;
use tda_schema::{Schema, read_schema};
use tda_spine::{Spine, read_spine};

// Facilities, totals, and the fault of the two together. What a state needs is summed over its blocks and over all kinds.
const JOINED: [(&str, &str, Option<JoinFault>); 9] = [
    (
        "block,kind,count\nB1,dorm,2\n",
        "state,total\nS1,1\nS2,9\n",
        Some(JoinFault::Short {
            state: 1,
            total: 1,
            needed: 2,
        }),
    ),
    (
        "block,kind,count\nB1,dorm,2\n",
        "state,total\nS1,2\nS2,0\n",
        None,
    ),
    ("block,kind,count\n", "state,total\nS1,0\nS2,0\n", None),
    (
        "block,kind,count\nB1,dorm,2\nB2,dorm,4\n",
        "state,total\nS1,5\nS2,9\n",
        Some(JoinFault::Short {
            state: 1,
            total: 5,
            needed: 6,
        }),
    ),
    (
        "block,kind,count\nB3,dorm,8\nB1,dorm,5\n",
        "state,total\nS1,5\nS2,7\n",
        Some(JoinFault::Short {
            state: 4,
            total: 7,
            needed: 8,
        }),
    ),
    (
        "block,kind,count\nB3,dorm,9\nB1,dorm,1048576\n",
        "state,total\nS1,5\nS2,7\n",
        Some(JoinFault::Short {
            state: 1,
            total: 5,
            needed: 1048576,
        }),
    ),
    (
        "block,kind,count\nB1,dorm,2\nB1,prison,3\nB2,prison,4\n",
        "state,total\nS1,8\nS2,9\n",
        Some(JoinFault::Short {
            state: 1,
            total: 8,
            needed: 9,
        }),
    ),
    (
        "block,kind,count\nB1,dorm,2\nB1,prison,3\nB2,prison,4\n",
        "state,total\nS1,9\nS2,0\n",
        None,
    ),
    (
        "block,kind,count\nB1,dorm,0\n",
        "state,total\nS1,0\nS2,0\n",
        None,
    ),
];

// Units, kinds, and the least and the most persons of the kind in the unit, where B1 has two dormitories.
const BOUNDS: [(u32, u16, u64, u64); 14] = [
    (0, 0, 0, PERSONS),
    (1, 0, 0, PERSONS),
    (2, 0, 0, PERSONS),
    (3, 0, 0, PERSONS),
    (4, 0, 0, PERSONS),
    (5, 0, 0, PERSONS),
    (0, 1, 2, PERSONS),
    (1, 1, 2, PERSONS),
    (2, 1, 2, PERSONS),
    (3, 1, 0, 0),
    (4, 1, 0, 0),
    (5, 1, 0, 0),
    (0, 2, 0, 0),
    (2, 2, 0, 0),
];

// The total of each unit that is a state.
const UNIT_TOTALS: [Option<u64>; 6] = [None, Some(5), None, None, Some(0), None];

// The fault of facilities and totals together.
fn fault_together(
    alloc: Global,
    schema: &Schema,
    spine: &Spine,
    facilities: &str,
    totals: &str,
) -> Result<Option<JoinFault>, Fail>
    requires belong { spine.now.depth ≡ length schema.now.levels }
    requires facilities { length facilities.now ≤ 2 ^ 28 }
    requires totals { length totals.now ≤ 2 ^ 28 }
{
    let facilities = read_facilities(alloc, schema, spine, facilities.as_bytes())?;
    let totals = read_totals(alloc, spine, totals.as_bytes())?;
    Ok(join(alloc, schema, spine, facilities, totals).err())
}

fn are_judged(rt: &impl Abort, alloc: Global, schema: &Schema, spine: &Spine) -> Result<(), Fail>
    requires { spine.now.depth ≡ length schema.now.levels }
{
    for (facilities, totals, due) in JOINED {
        assert!(rt; facilities.len() < 1000 && totals.len() < 1000);
        let fault = fault_together(alloc, schema, spine, facilities, totals)?;
        assert!(rt; fault == due, "{facilities}{totals}");
    }
    Ok(())
}

// What is published of two dormitories in B1 and five persons in S1.
fn published(alloc: Global, schema: &Schema, spine: &Spine) -> Result<Invariants, Fail>
    requires { spine.now.depth ≡ length schema.now.levels }
    ensures { IfOk result (IsJoined schema.now spine.now) }
{
    let facilities = read_facilities(alloc, schema, spine, b"block,kind,count\nB1,dorm,2\n")?;
    let totals = read_totals(alloc, spine, b"state,total\nS1,5\nS2,0\n")?;
    Ok(join(alloc, schema, spine, facilities, totals)?)
}

fn are_bounds(rt: &impl Abort, schema: &Schema, spine: &Spine, invariants: &Invariants)
    requires { IsJoined schema.now spine.now invariants.now }
{
    for (unit, kind, least, most) in BOUNDS {
        assert!(rt; unit < spine.units() && kind < schema.kinds());
        let bounds = (invariants.low(unit, kind), invariants.high(unit, kind));
        assert!(rt; bounds == (least, most), "kind {kind} in unit {unit}");
    }
}

fn are_totals(rt: &impl Abort, schema: &Schema, spine: &Spine, invariants: &Invariants)
    requires { IsJoined schema.now spine.now invariants.now }
{
    for (unit, due) in UNIT_TOTALS.iter().enumerate() {
        assert!(rt; unit < spine.units() as usize);
        assert!(rt; invariants.total(unit as u32) == *due, "unit {unit}");
    }
}

// What is published of three blocks.
fn in_blocks(rt: &impl Abort, alloc: Global, schema: &Schema, spine: &Spine) -> Result<(), Fail>
    requires { spine.now.depth ≡ length schema.now.levels }
{
    let invariants = published(alloc, schema, spine)?;
    are_bounds(rt, schema, spine, &invariants);
    are_totals(rt, schema, spine, &invariants);
    Ok(())
}

fn of_kinds(rt: &impl Abort, alloc: Global, schema: &Schema) -> Result<(), Fail> {
    let spine = read_spine(alloc, schema, THREE_BLOCKS.as_bytes())?;
    are_judged(rt, alloc, schema, &spine)?;
    in_blocks(rt, alloc, schema, &spine)
}

#[test]
fn bounds_of_units(rt: HostRuntime) -> Result<(), Fail> {
    let schema = read_schema(rt.alloc(), THREE_KINDS.as_bytes())?;
    of_kinds(&rt, rt.alloc(), &schema)
}
