// Tables and prices, and what the audit answers of them.
ghost use Rattle.std.specs.Prelude.{◌≤◌, length};
ghost use Rattle.tda_spine.specs.Judged.{IsWithinLimits};
ghost use Rattle.tda_invar.specs.Known.{IsJoined};
ghost use Rattle.tda_places.specs.Measurements.{AreMeasurementsOf};
ghost use Rattle.tda_out.specs.Counts.{AreCountsOf};

use std::alloc::Global;
use std::process::Abort;
use std::test::Fail;
use tda_audit::{Verdict, audit};
use tda_fitnet::ArcName::{Give, Group, Share};
use tda_fixtures::{BLOCK_TOTALS, TWO_BLOCKS, TWO_STATES};
use tda_flow::Side::{Down, Up};
use tda_invar::{Invariants, join, read_facilities, read_totals};
use tda_loss::{Curve, Loss, square};
use tda_out::Tables;
use tda_places::{Measurements, read_measurements};
use tda_prices::{read_prices, read_tables};
use tda_schema::{Schema, read_schema};
use tda_spine::{Spine, read_spine};

// What is published of a nation, and cases over it. Its prices begin alike.
struct Nation {
    schema: &'static str,
    spine: &'static str,
    facilities: &'static str,
    totals: &'static str,
    measurements: &'static str,
    root: &'static str,
    cases: &'static [Case],
}

// The rows of tables and of prices, and the answer.
struct Case {
    tables: &'static str,
    prices: &'static str,
    verdict: Verdict,
}

// Five persons in two blocks, where 3 and 4 were measured. B1 is unit 2.
const FIVE: Nation = Nation {
    schema: BLOCK_TOTALS,
    spine: TWO_BLOCKS,
    facilities: "block,kind,count\n",
    totals: "state,total\nS1,5\n",
    measurements: "unit,query,class,value\nB1,total,0,3\nB2,total,0,4\n",
    root: "fit,part,unit,item,price\n-,state,S1,0,0\n-,kind,-,0,0\n",
    cases: &[
        Case {
            tables: "US,0,5\nS1,0,5\nB1,0,2\nB2,0,3\n",
            prices: "-,group,US,0,0\nUS,cell,-,0,0\nUS,group,S1,0,0\nS1,cell,-,0,2\nS1,group,B1,0,2\nS1,group,B2,0,2\n",
            verdict: Verdict::Yes,
        },
        Case {
            tables: "US,0,5\nS1,0,5\nB1,0,2\nB2,0,3\n",
            prices: "-,group,US,0,0\nUS,cell,-,0,0\nUS,group,S1,0,0\nS1,cell,-,0,1\nS1,group,B1,0,1\nS1,group,B2,0,1\n",
            verdict: Verdict::Yes,
        },
        Case {
            tables: "US,0,5\nS1,0,5\nB1,0,2\nB2,0,3\n",
            prices: "-,group,US,0,0\nUS,cell,-,0,0\nUS,group,S1,0,0\nS1,cell,-,0,3\nS1,group,B1,0,3\nS1,group,B2,0,3\n",
            verdict: Verdict::Yes,
        },
        Case {
            tables: "US,0,5\nS1,0,5\nB1,0,2\nB2,0,3\n",
            prices: "-,group,US,0,0\nUS,cell,-,0,0\nUS,group,S1,0,0\nS1,cell,-,0,0\nS1,group,B1,0,0\nS1,group,B2,0,0\n",
            verdict: Verdict::Arc {
                fit: Some(1),
                arc: Group { unit: 2, group: 0 },
                side: Up,
            },
        },
        Case {
            tables: "US,0,5\nS1,0,5\nB1,0,2\nB2,0,3\n",
            prices: "-,group,US,0,0\nUS,cell,-,0,0\nUS,group,S1,0,0\nS1,cell,-,0,4\nS1,group,B1,0,4\nS1,group,B2,0,4\n",
            verdict: Verdict::Arc {
                fit: Some(1),
                arc: Group { unit: 2, group: 0 },
                side: Down,
            },
        },
        Case {
            tables: "US,0,5\nS1,0,5\nB1,0,3\nB2,0,2\n",
            prices: "-,group,US,0,0\nUS,cell,-,0,0\nUS,group,S1,0,0\nS1,cell,-,0,2\nS1,group,B1,0,2\nS1,group,B2,0,2\n",
            verdict: Verdict::Arc {
                fit: Some(1),
                arc: Group { unit: 2, group: 0 },
                side: Down,
            },
        },
        Case {
            tables: "US,0,5\nS1,0,5\nB1,0,2\nB2,0,3\n",
            prices: "-,group,US,0,0\nUS,cell,-,0,0\nUS,group,S1,0,0\nS1,cell,-,0,12\nS1,group,B1,0,2\nS1,group,B2,0,2\n",
            verdict: Verdict::Arc {
                fit: Some(1),
                arc: Give { unit: 2, cell: 0 },
                side: Down,
            },
        },
        Case {
            tables: "US,0,5\nS1,0,5\nB1,0,2\nB2,0,3\n",
            prices: "-,group,US,0,79228162514264337593543950336\nUS,cell,-,0,0\nUS,group,S1,0,0\nS1,cell,-,0,2\nS1,group,B1,0,2\nS1,group,B2,0,2\n",
            verdict: Verdict::Arc {
                fit: None,
                arc: Give { unit: 0, cell: 0 },
                side: Up,
            },
        },
        Case {
            tables: "US,0,5\nS1,0,5\nB1,0,2\nB2,0,2\n",
            prices: "-,group,US,0,0\nUS,cell,-,0,0\nUS,group,S1,0,0\nS1,cell,-,0,2\nS1,group,B1,0,2\nS1,group,B2,0,2\n",
            verdict: Verdict::Sum { unit: 1, cell: 0 },
        },
        Case {
            tables: "US,0,6\nS1,0,6\nB1,0,3\nB2,0,3\n",
            prices: "-,group,US,0,0\nUS,cell,-,0,0\nUS,group,S1,0,0\nS1,cell,-,0,2\nS1,group,B1,0,2\nS1,group,B2,0,2\n",
            verdict: Verdict::Total { state: 1 },
        },
        // The state's total is both bounds of its group, so no price of it is wrong.
        Case {
            tables: "US,0,5\nS1,0,5\nB1,0,2\nB2,0,3\n",
            prices: "-,group,US,0,0\nUS,cell,-,0,7\nUS,group,S1,0,7\nS1,cell,-,0,2\nS1,group,B1,0,2\nS1,group,B2,0,2\n",
            verdict: Verdict::Yes,
        },
        Case {
            tables: "US,0,5\nS1,0,5\nB1,0,2\nB2,0,3\n",
            prices: "-,group,US,0,0\nUS,cell,-,0,-7\nUS,group,S1,0,-7\nS1,cell,-,0,2\nS1,group,B1,0,2\nS1,group,B2,0,2\n",
            verdict: Verdict::Yes,
        },
        Case {
            tables: "US,0,5\nS1,0,5\nB1,0,2\nB2,0,3\n",
            prices: "-,group,US,0,-79228162514264337593543950336\nUS,cell,-,0,0\nUS,group,S1,0,0\nS1,cell,-,0,2\nS1,group,B1,0,2\nS1,group,B2,0,2\n",
            verdict: Verdict::Arc {
                fit: None,
                arc: Give { unit: 0, cell: 0 },
                side: Down,
            },
        },
        // A sum past 2^30 is judged before any loss is asked.
        Case {
            tables: "US,0,1073741824\nS1,0,1073741824\nB1,0,1073741824\nB2,0,1073741824\n",
            prices: "-,group,US,0,0\nUS,cell,-,0,0\nUS,group,S1,0,0\nS1,cell,-,0,2\nS1,group,B1,0,2\nS1,group,B2,0,2\n",
            verdict: Verdict::Sum { unit: 1, cell: 0 },
        },
    ],
};

// The same five persons, where the state has a price that its share doesn't bear.
const DEAR_STATE: Nation = Nation {
    schema: BLOCK_TOTALS,
    spine: TWO_BLOCKS,
    facilities: "block,kind,count\n",
    totals: "state,total\nS1,5\n",
    measurements: "unit,query,class,value\nB1,total,0,3\nB2,total,0,4\n",
    root: "fit,part,unit,item,price\n-,state,S1,0,1\n-,kind,-,0,0\n",
    cases: &[Case {
        tables: "US,0,5\nS1,0,5\nB1,0,2\nB2,0,3\n",
        prices: "-,group,US,0,0\nUS,cell,-,0,0\nUS,group,S1,0,0\nS1,cell,-,0,2\nS1,group,B1,0,2\nS1,group,B2,0,2\n",
        verdict: Verdict::Arc {
            fit: None,
            arc: Share { state: 1, kind: 0 },
            side: Down,
        },
    }],
};

// And where the kind has.
const DEAR_KIND: Nation = Nation {
    schema: BLOCK_TOTALS,
    spine: TWO_BLOCKS,
    facilities: "block,kind,count\n",
    totals: "state,total\nS1,5\n",
    measurements: "unit,query,class,value\nB1,total,0,3\nB2,total,0,4\n",
    root: "fit,part,unit,item,price\n-,state,S1,0,0\n-,kind,-,0,1\n",
    cases: &[Case {
        tables: "US,0,5\nS1,0,5\nB1,0,2\nB2,0,3\n",
        prices: "-,group,US,0,0\nUS,cell,-,0,0\nUS,group,S1,0,0\nS1,cell,-,0,2\nS1,group,B1,0,2\nS1,group,B2,0,2\n",
        verdict: Verdict::Arc {
            fit: None,
            arc: Share { state: 1, kind: 0 },
            side: Up,
        },
    }],
};

// Where 3 and 3 were measured two tables cost the same, and the same prices certify both.
const EQUALS: Nation = Nation {
    schema: BLOCK_TOTALS,
    spine: TWO_BLOCKS,
    facilities: "block,kind,count\n",
    totals: "state,total\nS1,5\n",
    measurements: "unit,query,class,value\nB1,total,0,3\nB2,total,0,3\n",
    root: "fit,part,unit,item,price\n-,state,S1,0,0\n-,kind,-,0,0\n",
    cases: &[
        Case {
            tables: "US,0,5\nS1,0,5\nB1,0,2\nB2,0,3\n",
            prices: "-,group,US,0,0\nUS,cell,-,0,0\nUS,group,S1,0,0\nS1,cell,-,0,1\nS1,group,B1,0,1\nS1,group,B2,0,1\n",
            verdict: Verdict::Yes,
        },
        Case {
            tables: "US,0,5\nS1,0,5\nB1,0,3\nB2,0,2\n",
            prices: "-,group,US,0,0\nUS,cell,-,0,0\nUS,group,S1,0,0\nS1,cell,-,0,1\nS1,group,B1,0,1\nS1,group,B2,0,1\n",
            verdict: Verdict::Yes,
        },
        Case {
            tables: "US,0,5\nS1,0,5\nB1,0,4\nB2,0,1\n",
            prices: "-,group,US,0,0\nUS,cell,-,0,0\nUS,group,S1,0,0\nS1,cell,-,0,1\nS1,group,B1,0,1\nS1,group,B2,0,1\n",
            verdict: Verdict::Arc {
                fit: Some(1),
                arc: Group { unit: 2, group: 0 },
                side: Down,
            },
        },
    ],
};

// Two states with a block each. S1 is unit 1, B1 unit 2, S2 unit 3 and B2 unit 4.
const STATES: Nation = Nation {
    schema: BLOCK_TOTALS,
    spine: TWO_STATES,
    facilities: "block,kind,count\n",
    totals: "state,total\nS1,2\nS2,3\n",
    measurements: "unit,query,class,value\nB1,total,0,3\nB2,total,0,4\n",
    root: "fit,part,unit,item,price\n-,state,S1,0,0\n-,state,S2,0,0\n-,kind,-,0,0\n",
    cases: &[
        Case {
            tables: "US,0,5\nS1,0,2\nS2,0,3\nB1,0,2\nB2,0,3\n",
            prices: "-,group,US,0,0\nUS,cell,-,0,0\nUS,group,S1,0,0\nUS,group,S2,0,0\nS1,cell,-,0,2\nS1,group,B1,0,2\nS2,cell,-,0,2\nS2,group,B2,0,2\n",
            verdict: Verdict::Yes,
        },
        Case {
            tables: "US,0,5\nS1,0,2\nS2,0,3\nB1,0,2\nB2,0,3\n",
            prices: "-,group,US,0,0\nUS,cell,-,0,0\nUS,group,S1,0,0\nUS,group,S2,0,0\nS1,cell,-,0,2\nS1,group,B1,0,2\nS2,cell,-,0,0\nS2,group,B2,0,0\n",
            verdict: Verdict::Arc {
                fit: Some(3),
                arc: Group { unit: 4, group: 0 },
                side: Up,
            },
        },
        Case {
            tables: "US,0,5\nS1,0,3\nS2,0,2\nB1,0,3\nB2,0,2\n",
            prices: "-,group,US,0,0\nUS,cell,-,0,0\nUS,group,S1,0,0\nUS,group,S2,0,0\nS1,cell,-,0,2\nS1,group,B1,0,2\nS2,cell,-,0,2\nS2,group,B2,0,2\n",
            verdict: Verdict::Total { state: 1 },
        },
    ],
};

// The same states, whose rows stand from the blocks up: B2 is unit 0, S2 unit 1, B1 unit 2, S1 unit 3, and the nation unit 4. Units go by these numbers,
// and fits from the nation down.
const UPWARDS: Nation = Nation {
    schema: BLOCK_TOTALS,
    spine: "unit,level,parent\nB2,block,S2\nS2,state,US\nB1,block,S1\nS1,state,US\nUS,nation,\n",
    facilities: "block,kind,count\n",
    totals: "state,total\nS1,2\nS2,3\n",
    measurements: "unit,query,class,value\nB2,total,0,4\nB1,total,0,3\n",
    root: "fit,part,unit,item,price\n-,state,S2,0,0\n-,state,S1,0,0\n-,kind,-,0,0\n",
    cases: &[
        Case {
            tables: "US,0,5\nS2,0,3\nS1,0,2\nB2,0,3\nB1,0,2\n",
            prices: "-,group,US,0,0\nUS,cell,-,0,0\nUS,group,S2,0,0\nUS,group,S1,0,0\nS2,cell,-,0,2\nS2,group,B2,0,2\nS1,cell,-,0,2\nS1,group,B1,0,2\n",
            verdict: Verdict::Yes,
        },
        // Neither the nation's children add up to it nor those of S2, which comes first.
        Case {
            tables: "US,0,6\nS2,0,3\nS1,0,2\nB2,0,2\nB1,0,2\n",
            prices: "-,group,US,0,0\nUS,cell,-,0,0\nUS,group,S2,0,0\nUS,group,S1,0,0\nS2,cell,-,0,2\nS2,group,B2,0,2\nS1,cell,-,0,2\nS1,group,B1,0,2\n",
            verdict: Verdict::Sum { unit: 1, cell: 0 },
        },
        // Arcs fail in the fits of the nation and of S2, and the nation's comes first.
        Case {
            tables: "US,0,5\nS2,0,3\nS1,0,2\nB2,0,3\nB1,0,2\n",
            prices: "-,group,US,0,0\nUS,cell,-,0,1\nUS,group,S2,0,0\nUS,group,S1,0,0\nS2,cell,-,0,0\nS2,group,B2,0,0\nS1,cell,-,0,2\nS1,group,B1,0,2\n",
            verdict: Verdict::Arc {
                fit: Some(4),
                arc: Give { unit: 1, cell: 0 },
                side: Down,
            },
        },
    ],
};

// Two cells, of which each may have 2^30 persons: that all are too many is judged before any loss is asked.
const TWO_CELLS: Nation = Nation {
    schema: "version = 1\ntotal = '1'\nattribute = [{ name = 'kind', values = ['house'] }, { name = 'age', values = ['minor', 'adult'] }]\nlevel = [{ name = 'nation' }, { name = 'state' }, { name = 'block', query = [{ name = 'total', by = [], share = '1' }] }]",
    spine: TWO_BLOCKS,
    facilities: "block,kind,count\n",
    totals: "state,total\nS1,5\n",
    measurements: "unit,query,class,value\nB1,total,0,3\nB2,total,0,4\n",
    root: "fit,part,unit,item,price\n-,state,S1,0,0\n-,kind,-,0,0\n",
    cases: &[Case {
        tables: "US,0,1073741824\nUS,1,1073741824\nS1,0,1073741824\nS1,1,1073741824\nB1,0,1073741824\nB1,1,1073741824\n",
        prices: "-,group,US,0,0\nUS,cell,-,0,0\nUS,cell,-,1,0\nUS,group,S1,0,0\nS1,cell,-,0,0\nS1,cell,-,1,0\nS1,group,B1,0,0\nS1,group,B2,0,0\n",
        verdict: Verdict::Total { state: 1 },
    }],
};

// A dormitory of two persons in B1.
const DORMITORY: Nation = Nation {
    schema: "version = 1\ntotal = '1'\nattribute = [{ name = 'kind', values = ['house', 'dorm'] }]\nlevel = [{ name = 'nation' }, { name = 'state' }, { name = 'block' }]",
    spine: TWO_BLOCKS,
    facilities: "block,kind,count\nB1,dorm,2\n",
    totals: "state,total\nS1,5\n",
    measurements: "unit,query,class,value\n",
    root: "fit,part,unit,item,price\n-,state,S1,0,0\n-,kind,-,0,0\n-,kind,-,1,0\n",
    cases: &[Case {
        tables: "US,0,3\nUS,1,2\nS1,0,3\nS1,1,2\nB1,0,2\nB1,1,1\nB2,0,1\nB2,1,1\n",
        prices: "-,group,US,0,0\n-,group,US,1,0\n-,group,US,2,0\nUS,cell,-,0,0\nUS,cell,-,1,0\nUS,group,S1,0,0\nUS,group,S1,1,0\nUS,group,S1,2,0\nS1,cell,-,0,0\nS1,cell,-,1,0\nS1,group,B1,0,0\nS1,group,B1,1,0\nS1,group,B1,2,0\nS1,group,B2,0,0\nS1,group,B2,1,0\nS1,group,B2,2,0\n",
        verdict: Verdict::Kind { unit: 2, kind: 1 },
    }],
};

// Cell 0, of minors, isn't possible.
const MINORS: Nation = Nation {
    schema: "version = 1\ntotal = '1'\nattribute = [{ name = 'kind', values = ['house'] }, { name = 'age', values = ['minor', 'adult'] }]\nzero = [{ kind = ['house'], age = ['minor'] }]\nlevel = [{ name = 'nation' }, { name = 'state' }, { name = 'block', query = [{ name = 'total', by = [], share = '1' }] }]",
    spine: TWO_BLOCKS,
    facilities: "block,kind,count\n",
    totals: "state,total\nS1,5\n",
    measurements: "unit,query,class,value\nB1,total,1,3\nB2,total,1,4\n",
    root: "fit,part,unit,item,price\n-,state,S1,0,0\n-,kind,-,0,0\n",
    cases: &[
        Case {
            tables: "US,0,5\nS1,0,5\nB1,0,2\nB2,0,3\n",
            prices: "-,group,US,0,0\nUS,cell,-,1,0\nUS,group,S1,0,0\nS1,cell,-,1,2\nS1,group,B1,0,2\nS1,group,B2,0,2\n",
            verdict: Verdict::Impossible { unit: 0, cell: 0 },
        },
        Case {
            tables: "US,1,5\nS1,1,5\nB1,1,2\nB2,1,3\n",
            prices: "-,group,US,0,0\nUS,cell,-,1,0\nUS,group,S1,0,0\nS1,cell,-,1,2\nS1,group,B1,0,2\nS1,group,B2,0,2\n",
            verdict: Verdict::Yes,
        },
    ],
};

// These texts one after the other.
fn joined(alloc: Global, texts: &[&str]) -> Result<Vec<u8>, Fail> {
    let mut bytes = Vec::new(alloc);
    for text in texts {
        bytes.extend_from_slice(text.as_bytes())?;
    }
    Ok(bytes)
}

fn judged(
    rt: &impl Abort,
    alloc: Global,
    schema: &Schema,
    spine: &Spine,
    inv: &Invariants,
    m: &Measurements,
    tables: &Tables,
    prices: &[u8],
    due: Verdict,
) -> Result<(), Fail>
    requires belong { IsWithinLimits schema.now spine.now }
    requires joined { IsJoined schema.now spine.now inv.now }
    requires measured { AreMeasurementsOf schema.now spine.now m.now }
    requires counts { AreCountsOf schema.now spine.now tables.now }
    requires few { length prices.now ≤ 1000 }
{
    let prices = read_prices(alloc, schema, spine, prices)?;
    let loss = Loss::new(Curve::Square, |d: i64| square(d));
    let verdict = audit(alloc, schema, spine, inv, m, tables, &prices, &loss)?;
    assert!(rt; verdict == due);
    Ok(())
}

fn has_verdict(
    rt: &impl Abort,
    alloc: Global,
    schema: &Schema,
    spine: &Spine,
    inv: &Invariants,
    m: &Measurements,
    nation: &Nation,
    case: &Case,
) -> Result<(), Fail>
    requires belong { IsWithinLimits schema.now spine.now }
    requires joined { IsJoined schema.now spine.now inv.now }
    requires measured { AreMeasurementsOf schema.now spine.now m.now }
{
    let tables = joined(alloc, &["unit,cell,count\n", case.tables])?;
    let prices = joined(alloc, &[nation.root, case.prices])?;
    assert!(rt; tables.len() < 1000 && prices.len() < 1000);
    let tables = read_tables(alloc, schema, spine, &tables)?;
    judged(
        rt,
        alloc,
        schema,
        spine,
        inv,
        m,
        &tables,
        &prices,
        case.verdict,
    )
}

fn has_verdicts(
    rt: &impl Abort,
    alloc: Global,
    schema: &Schema,
    spine: &Spine,
    inv: &Invariants,
    m: &Measurements,
    nation: &Nation,
) -> Result<(), Fail>
    requires belong { IsWithinLimits schema.now spine.now }
    requires joined { IsJoined schema.now spine.now inv.now }
    requires measured { AreMeasurementsOf schema.now spine.now m.now }
{
    for case in nation.cases {
        has_verdict(rt, alloc, schema, spine, inv, m, nation, case)?;
    }
    Ok(())
}

fn of_spine(
    rt: &impl Abort,
    alloc: Global,
    schema: &Schema,
    spine: &Spine,
    nation: &Nation,
) -> Result<(), Fail>
    requires { IsWithinLimits schema.now spine.now }
{
    assert!(rt;
        nation.facilities.len() < 1000
            && nation.totals.len() < 1000
            && nation.measurements.len() < 1000
    );
    let facilities = read_facilities(alloc, schema, spine, nation.facilities.as_bytes())?;
    let totals = read_totals(alloc, spine, nation.totals.as_bytes())?;
    let inv = join(alloc, schema, spine, facilities, totals)?;
    let m = read_measurements(alloc, schema, spine, nation.measurements.as_bytes())?;
    has_verdicts(rt, alloc, schema, spine, &inv, &m, nation)
}

fn of_nation(rt: &impl Abort, alloc: Global, nation: &Nation) -> Result<(), Fail> {
    assert!(rt; nation.schema.len() < 1000 && nation.spine.len() < 1000);
    let schema = read_schema(alloc, nation.schema.as_bytes())?;
    let spine = read_spine(alloc, &schema, nation.spine.as_bytes())?;
    of_spine(rt, alloc, &schema, &spine, nation)
}

#[test]
fn prices_of_least_tables_and_of_others(rt: HostRuntime) -> Result<(), Fail> {
    of_nation(&rt, rt.alloc(), &FIVE)
}

#[test]
fn prices_that_certify_two_tables(rt: HostRuntime) -> Result<(), Fail> {
    of_nation(&rt, rt.alloc(), &EQUALS)
}

#[test]
fn prices_of_states_that_stand_apart(rt: HostRuntime) -> Result<(), Fail> {
    of_nation(&rt, rt.alloc(), &STATES)
}

#[test]
fn units_in_file_order_and_fits_from_the_nation_down(rt: HostRuntime) -> Result<(), Fail> {
    of_nation(&rt, rt.alloc(), &UPWARDS)
}

#[test]
fn prices_of_a_state_and_of_a_kind(rt: HostRuntime) -> Result<(), Fail> {
    of_nation(&rt, rt.alloc(), &DEAR_STATE)?;
    of_nation(&rt, rt.alloc(), &DEAR_KIND)
}

#[test]
fn more_persons_than_there_may_be(rt: HostRuntime) -> Result<(), Fail> {
    of_nation(&rt, rt.alloc(), &TWO_CELLS)
}

#[test]
fn too_few_persons_in_a_dormitory(rt: HostRuntime) -> Result<(), Fail> {
    of_nation(&rt, rt.alloc(), &DORMITORY)
}

#[test]
fn persons_where_nobody_can_be(rt: HostRuntime) -> Result<(), Fail> {
    of_nation(&rt, rt.alloc(), &MINORS)
}
