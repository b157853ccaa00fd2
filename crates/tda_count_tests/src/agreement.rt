// Whether records agree with facilities.
ghost use Rattle.std.specs.Prelude.{◌≡◌, ◌≤◌, ◌^◌, IfOk, length};
ghost use Rattle.tda_out.specs.Counts.{AreCountsOf};

use std::alloc::Global;
use std::process::Abort;
use std::test::Fail;
use tda_fixtures::{THREE_KINDS, TWO_BLOCKS};
use tda_hist::{HistFault, agree, count};
use tda_invar::read_facilities;
use tda_out::Tables;
use tda_records::read_records;
use tda_schema::{Schema, read_schema};
use tda_spine::{Spine, read_spine};

const DORMS: &str = "block,kind,count\nB1,dorm,2\n";

const PRISON: &str = "block,kind,count\nB1,prison,1\n";

const BOTH: &str = "block,kind,count\nB1,prison,2\nB1,dorm,1\n";

const APART: &str = "block,kind,count\nB2,dorm,1\nB1,prison,1\n";

// Facilities, records, and whether they agree.
const JUDGED: [(&str, &str, Result<(), HistFault>); 13] = [
    (
        DORMS,
        "block,kind\nB1,dorm\nB2,house\nB1,dorm\nB1,dorm\n",
        Ok(()),
    ),
    (
        DORMS,
        "block,kind\nB1,dorm\nB1,dorm\nB2,dorm\n",
        Err(HistFault::NoFacility { block: 3, kind: 1 }),
    ),
    (
        DORMS,
        "block,kind\nB1,dorm\n",
        Err(HistFault::Short {
            block: 2,
            kind: 1,
            found: 1,
            needed: 2,
        }),
    ),
    (
        DORMS,
        "block,kind\n",
        Err(HistFault::Short {
            block: 2,
            kind: 1,
            found: 0,
            needed: 2,
        }),
    ),
    (
        DORMS,
        "block,kind\nB2,dorm\nB1,house\nB1,house\n",
        Err(HistFault::Short {
            block: 2,
            kind: 1,
            found: 0,
            needed: 2,
        }),
    ),
    (
        DORMS,
        "block,kind\nB2,dorm\nB2,dorm\nB1,dorm\nB1,dorm\n",
        Err(HistFault::NoFacility { block: 3, kind: 1 }),
    ),
    // Within a block the kinds are judged in their order, whichever fault each has.
    (
        PRISON,
        "block,kind\nB1,dorm\n",
        Err(HistFault::NoFacility { block: 2, kind: 1 }),
    ),
    (
        PRISON,
        "block,kind\nB2,dorm\n",
        Err(HistFault::Short {
            block: 2,
            kind: 2,
            found: 0,
            needed: 1,
        }),
    ),
    (
        DORMS,
        "block,kind\nB1,prison\nB1,dorm\n",
        Err(HistFault::Short {
            block: 2,
            kind: 1,
            found: 1,
            needed: 2,
        }),
    ),
    (
        DORMS,
        "block,kind\nB1,prison\nB1,dorm\nB1,dorm\n",
        Err(HistFault::NoFacility { block: 2, kind: 2 }),
    ),
    (
        BOTH,
        "block,kind\nB1,prison\nB1,dorm\nB1,dorm\n",
        Err(HistFault::Short {
            block: 2,
            kind: 2,
            found: 1,
            needed: 2,
        }),
    ),
    (BOTH, "block,kind\nB1,prison\nB1,dorm\nB1,prison\n", Ok(())),
    (
        APART,
        "block,kind\n",
        Err(HistFault::Short {
            block: 2,
            kind: 2,
            found: 0,
            needed: 1,
        }),
    ),
];

// What is told of tables beside facilities.
fn told_of(
    alloc: Global,
    schema: &Schema,
    spine: &Spine,
    tables: &Tables,
    facilities: &str,
) -> Result<Result<(), HistFault>, Fail>
    requires belong { spine.now.depth ≡ length schema.now.levels }
    requires tables { AreCountsOf schema.now spine.now tables.now }
    requires limit { length facilities.now ≤ 2 ^ 28 }
{
    let facilities = read_facilities(alloc, schema, spine, facilities.as_bytes())?;
    Ok(agree(schema, spine, tables, &facilities))
}

// The true table of each unit.
fn tables_of(alloc: Global, schema: &Schema, spine: &Spine, text: &str) -> Result<Tables, Fail>
    requires belong { spine.now.depth ≡ length schema.now.levels }
    requires limit { length text.now ≤ 2 ^ 28 }
    ensures { IfOk result (AreCountsOf schema.now spine.now) }
{
    let records = read_records(alloc, schema, spine, text.as_bytes())?;
    Ok(count(alloc, schema, spine, &records)?)
}

fn are_judged(rt: &impl Abort, alloc: Global, schema: &Schema, spine: &Spine) -> Result<(), Fail>
    requires { spine.now.depth ≡ length schema.now.levels }
{
    for (facilities, records, due) in JUDGED {
        assert!(rt; facilities.len() < 1000 && records.len() < 1000);
        let tables = tables_of(alloc, schema, spine, records)?;
        let told = told_of(alloc, schema, spine, &tables, facilities)?;
        assert!(rt; told == due, "{facilities}{records}");
    }
    Ok(())
}

fn on_two_blocks(rt: &impl Abort, alloc: Global, schema: &Schema) -> Result<(), Fail> {
    let spine = read_spine(alloc, schema, TWO_BLOCKS.as_bytes())?;
    are_judged(rt, alloc, schema, &spine)
}

#[test]
fn agreement_with_facilities(rt: HostRuntime) -> Result<(), Fail> {
    let schema = read_schema(rt.alloc(), THREE_KINDS.as_bytes())?;
    on_two_blocks(&rt, rt.alloc(), &schema)
}
