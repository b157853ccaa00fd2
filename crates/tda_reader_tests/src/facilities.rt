// Which texts are facilities, and which fault any other text has.
ghost use Rattle.std.specs.Prelude.{◌≡◌, ◌≤◌, ◌^◌, length};

use std::alloc::Global;
use std::process::Abort;
use std::test::Fail;
use tda_fixtures::{THREE_BLOCKS, THREE_KINDS};
use tda_invar::{FacFault, read_facilities};
use tda_schema::{Schema, read_schema};
use tda_spine::{Spine, read_spine};

// Texts that are no facilities of three kinds in three blocks, and the fault of each.
const UNREAD: [(&str, FacFault); 27] = [
    ("block,kind,count\nB1,dorm\n", FacFault::BadRow(2)),
    ("block,kind\nB1,dorm,1\n", FacFault::BadRow(2)),
    ("block,count,kind\nB1,dorm,1\nB1\n", FacFault::BadRow(3)),
    ("block,count,kind\nB1,dorm,1\n", FacFault::BadHeader(1)),
    ("B1,dorm,1\n", FacFault::BadHeader(1)),
    ("block,kind\nB1,dorm\n", FacFault::BadHeader(1)),
    ("", FacFault::BadHeader(1)),
    ("block,kind,count\nB4,dorm,1\n", FacFault::UnknownBlock(2)),
    ("block,kind,count\nS1,dorm,1\n", FacFault::UnknownBlock(2)),
    (
        "block,kind,count\nb1,barrack,x\n",
        FacFault::UnknownBlock(2),
    ),
    ("block,kind,count\nB1,barrack,x\n", FacFault::UnknownKind(2)),
    (
        "block,kind,count\n\nB2,Dorm,1\nB2,house,1\n",
        FacFault::UnknownKind(2),
    ),
    ("block,kind,count\nB1,house,0\n", FacFault::Household(2)),
    (
        "block,kind,count\nB1,house,01\nB1,house,1\n",
        FacFault::Household(2),
    ),
    ("block,kind,count\nB1,dorm,01\n", FacFault::BadCount(2)),
    ("block,kind,count\nB1,dorm,1048577\n", FacFault::BadCount(2)),
    (
        "block,kind,count\nB1,dorm,18446744073709551617\n",
        FacFault::BadCount(2),
    ),
    ("block,kind,count\nB1,dorm,-1\n", FacFault::BadCount(2)),
    ("block,kind,count\nB1,dorm,+1\n", FacFault::BadCount(2)),
    ("block,kind,count\nB1,dorm,-0\n", FacFault::BadCount(2)),
    ("block,kind,count\nB1,dorm,\n", FacFault::BadCount(2)),
    (
        "block,kind,count\nB1,dorm,1\nB1,dorm,x\n",
        FacFault::BadCount(3),
    ),
    (
        "block,kind,count\nB1,dorm,2\nB1,dorm,2\n",
        FacFault::Repeated(3),
    ),
    // A count of 0 is as no row, but its row may not be repeated.
    (
        "block,kind,count\nB1,dorm,0\nB1,dorm,2\n",
        FacFault::Repeated(3),
    ),
    (
        "block,kind,count\nB1,dorm,2\nB1,dorm,0\n",
        FacFault::Repeated(3),
    ),
    (
        "block,kind,count\nB2,dorm,1\nB1,dorm,1\nB2,prison,1\nB2,dorm,3\n",
        FacFault::Repeated(5),
    ),
    (
        "block,kind,count\nB1,dorm,1\nB1,dorm,2\nB4,dorm,1\n",
        FacFault::Repeated(3),
    ),
];

const SOME: &str = "block,kind,count\nB3,prison,1048576\nB1,prison,3\nB1,dorm,2\nB2,dorm,0\n";

// Texts, a block and a kind, and how many facilities of the kind stand in the block.
const READ: [(&str, u32, u16, u64); 9] = [
    (SOME, 2, 0, 0),
    (SOME, 2, 1, 2),
    (SOME, 2, 2, 3),
    (SOME, 3, 1, 0),
    (SOME, 3, 2, 0),
    (SOME, 5, 1, 0),
    (SOME, 5, 2, 1048576),
    ("block,kind,count\r\n\"B1\",dorm,\"7\"", 2, 1, 7),
    ("block,kind,count\n", 5, 2, 0),
];

// How many facilities of a kind stand in a block.
fn found(
    alloc: Global,
    schema: &Schema,
    spine: &Spine,
    text: &str,
    place: (u32, u16),
) -> Result<Option<u64>, FacFault>
    requires belong { spine.now.depth ≡ length schema.now.levels }
    requires limit { length text.now ≤ 2 ^ 28 }
{
    let facilities = read_facilities(alloc, schema, spine, text.as_bytes())?;
    if place.0 >= spine.units() || place.1 >= schema.kinds() {
        return Ok(None);
    }
    Ok(Some(facilities.get(place.0, place.1)))
}

fn are_read(rt: &impl Abort, alloc: Global, schema: &Schema, spine: &Spine) -> Result<(), Fail>
    requires { spine.now.depth ≡ length schema.now.levels }
{
    for (text, block, kind, due) in READ {
        assert!(rt; text.len() < 1000);
        let count = found(alloc, schema, spine, text, (block, kind))?;
        assert!(rt; count == Some(due), "kind {kind} in unit {block}: {text}");
    }
    Ok(())
}

fn are_refused(rt: &impl Abort, alloc: Global, schema: &Schema, spine: &Spine)
    requires { spine.now.depth ≡ length schema.now.levels }
{
    for (text, due) in UNREAD {
        assert!(rt; text.len() < 1000);
        let fault = read_facilities(alloc, schema, spine, text.as_bytes()).err();
        assert!(rt; fault == Some(due), "{text}");
    }
}

// Both, in three blocks.
fn in_blocks(rt: &impl Abort, alloc: Global, schema: &Schema) -> Result<(), Fail> {
    let spine = read_spine(alloc, schema, THREE_BLOCKS.as_bytes())?;
    are_read(rt, alloc, schema, &spine)?;
    are_refused(rt, alloc, schema, &spine);
    Ok(())
}

#[test]
fn facilities_of_blocks(rt: HostRuntime) -> Result<(), Fail> {
    let schema = read_schema(rt.alloc(), THREE_KINDS.as_bytes())?;
    in_blocks(&rt, rt.alloc(), &schema)
}
