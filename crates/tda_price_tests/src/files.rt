// The files of prices and of tables: what is read, what is wrong with other texts, and that they are written as they were read.
ghost use Rattle.std.specs.Prelude.{◌≡◌, ◌≤◌, ◌^◌, length, IfSome, IsTrue};
ghost use Rattle.tda_out.specs.Counts.{AreCountsOf};
ghost use Rattle.tda_prices.specs.Kept.{ArePricesOf};
ghost use Rattle.tda_spine.specs.Sound.{IsInner};

use std::alloc::Global;
use std::process::Abort;
use std::test::Fail;
use tda_fixtures::{BLOCK_TOTALS, TWO_BLOCKS};
use tda_io::NoMemory;
use tda_out::Tables;
use tda_prices::{
    PriFault, Prices, TabFault, price_count, read_prices, read_tables, write_prices,
    write_prices_header,
};
use tda_schema::{Schema, read_schema};
use tda_spine::{Spine, read_spine};

// Prices that certify five persons, measured 3 and 4.
const PRICES: &str = "fit,part,unit,item,price
-,state,S1,0,0
-,kind,-,0,0
-,group,US,0,-7
US,cell,-,0,79228162514264337593543950336
US,group,S1,0,-79228162514264337593543950336
S1,cell,-,0,2
S1,group,B1,0,3
S1,group,B2,0,4
";

// How many prices each fit has: of the nation, of its states, and of the state's blocks; the units are in file order.
const COUNTS: [(Option<u32>, u64); 3] = [(None, 3), (Some(0), 2), (Some(1), 3)];

// A fit, an index, and the price there.
const KEPT: [(Option<u32>, u64, i128); 5] = [
    (None, 2, -7),
    (Some(0), 0, 1 << 96),
    (Some(0), 1, -(1 << 96)),
    (Some(1), 0, 2),
    (Some(1), 2, 4),
];

const WRONG_PRICES: [(&str, PriFault); 15] = [
    ("", PriFault::BadHeader(1)),
    ("fit,part,unit,price,item\n", PriFault::BadHeader(1)),
    ("fit,part,unit,price\n", PriFault::BadHeader(1)),
    ("fit,part,unit,item,price\n", PriFault::Missing),
    // A row of another width comes before all else.
    (
        "fit,part,unit,price,item\n-,state,S1,0\n",
        PriFault::BadRow(2),
    ),
    (
        "fit,part,unit,item,price\n-,state,B1,0,0\n-,kind,-,0\n",
        PriFault::BadRow(3),
    ),
    (
        "fit,part,unit,item,price\n-,state,B1,0,x\n",
        PriFault::WrongPlace(2),
    ),
    (
        "fit,part,unit,item,price\n-,state,S1,00,0\n",
        PriFault::WrongPlace(2),
    ),
    (
        "fit,part,unit,item,price\n-,state,S1,0,0\nUS,kind,-,0,0\n",
        PriFault::WrongPlace(3),
    ),
    (
        "fit,part,unit,item,price\n-,state,S1,0,-0\n",
        PriFault::BadNumber(2),
    ),
    (
        "fit,part,unit,item,price\n-,state,S1,0,79228162514264337593543950337\n",
        PriFault::BadNumber(2),
    ),
    (
        "fit,part,unit,item,price\n-,state,S1,0,-79228162514264337593543950337\n",
        PriFault::BadNumber(2),
    ),
    (
        "fit,part,unit,item,price\n-,state,S1,0,0\n-,kind,-,0,0\n-,group,US,0,0\nUS,cell,-,0,0\nUS,group,S1,0,0\nS1,cell,-,0,2\nS1,group,B1,0,2\n",
        PriFault::Missing,
    ),
    (
        "fit,part,unit,item,price\n-,state,S1,0,0\n-,kind,-,0,0\n-,group,US,0,0\nUS,cell,-,0,0\nUS,group,S1,0,0\nS1,cell,-,0,2\nS1,group,B1,0,2\nS1,group,B2,0,2\nS1,group,B2,0,2\n",
        PriFault::TooMany(10),
    ),
    (
        "fit,part,unit,item,price\n-,state,S1,0,0\n-,kind,-,0,0\n-,group,US,0,0\nUS,cell,-,0,0\nUS,group,S1,0,0\nS1,cell,-,0,2\nS1,group,B1,0,2\nS1,group,B2,0,2\nS1,group,B2,0,x\n",
        PriFault::BadNumber(10),
    ),
];

// Texts of tables, and the counts of the four units.
const TABLES: [(&str, [u64; 4]); 4] = [
    ("unit,cell,count\n", [0, 0, 0, 0]),
    (
        "unit,cell,count\nUS,0,5\nS1,0,5\nB1,0,2\nB2,0,3\n",
        [5, 5, 2, 3],
    ),
    // Nothing asks that the counts add up.
    ("unit,cell,count\nB2,0,1073741824\n", [0, 0, 0, 1 << 30]),
    ("unit,cell,count\nUS,0,1\nB1,0,2\n", [1, 0, 2, 0]),
];

const WRONG_TABLES: [(&str, TabFault); 12] = [
    ("", TabFault::BadHeader(1)),
    ("unit,count,cell\n", TabFault::BadHeader(1)),
    ("unit,cell\n", TabFault::BadHeader(1)),
    ("unit,cell\nUS,0,5\n", TabFault::BadRow(2)),
    ("unit,cell,count\nUS,1,5\nB1,0\n", TabFault::BadRow(3)),
    ("unit,cell,count\nUS,1,5\n", TabFault::WrongPlace(2)),
    ("unit,cell,count\nU,0,5\n", TabFault::WrongPlace(2)),
    ("unit,cell,count\nUS,0,5\nUS,0,5\n", TabFault::WrongPlace(3)),
    ("unit,cell,count\nB2,0,5\nB1,0,5\n", TabFault::WrongPlace(3)),
    ("unit,cell,count\nUS,0,0\n", TabFault::BadNumber(2)),
    ("unit,cell,count\nUS,0,1073741825\n", TabFault::BadNumber(2)),
    ("unit,cell,count\nUS,0,05\n", TabFault::BadNumber(2)),
];

// Whether a unit has children: it is of a level above the last.
fn is_inner(schema: &Schema, spine: &Spine, unit: u32) -> bool
    requires { spine.now.depth ≡ length schema.now.levels }
    ensures { IsTrue result → IsInner spine.now unit }
{
    if unit >= spine.units() {
        return false;
    }
    spine.level(unit) + 1 < schema.levels()
}

// Whether each fit has so many prices.
fn are_counts(schema: &Schema, spine: &Spine) -> bool
    requires { spine.now.depth ≡ length schema.now.levels }
{
    for (fit, due) in COUNTS {
        let count = match fit {
            None => price_count(schema, spine, None),
            Some(unit) if is_inner(schema, spine, unit) => price_count(schema, spine, Some(unit)),
            Some(_) => 0,
        };
        if count != due {
            return false;
        }
    }
    true
}

// The price of a fit of the spine at an index.
fn price_at(
    schema: &Schema,
    spine: &Spine,
    prices: &Prices,
    fit: Option<u32>,
    index: u64,
) -> Option<i128>
    requires belong { spine.now.depth ≡ length schema.now.levels }
    requires prices { ArePricesOf schema.now spine.now prices.now }
    requires fit { IfSome fit (IsInner spine.now) }
{
    if index < price_count(schema, spine, fit) {
        Some(prices.get(schema, spine, fit, index))
    } else {
        None
    }
}

// Whether these are the prices.
fn are_kept(schema: &Schema, spine: &Spine, prices: &Prices) -> bool
    requires belong { spine.now.depth ≡ length schema.now.levels }
    requires prices { ArePricesOf schema.now spine.now prices.now }
{
    for (fit, index, due) in KEPT {
        let price = match fit {
            None => price_at(schema, spine, prices, None, index),
            Some(unit) if is_inner(schema, spine, unit) => {
                price_at(schema, spine, prices, fit, index)
            }
            Some(_) => None,
        };
        if price != Some(due) {
            return false;
        }
    }
    true
}

// Appends the rows of all fits.
fn write_all(
    schema: &Schema,
    spine: &Spine,
    prices: &Prices,
    out: &mut Vec<u8>,
) -> Result<(), NoMemory>
    requires belong { spine.now.depth ≡ length schema.now.levels }
    requires prices { ArePricesOf schema.now spine.now prices.now }
{
    write_prices_header(out)?;
    write_prices(schema, spine, None, prices.of_fit(schema, spine, None), out)?;
    for parent in spine.parents() {
        if is_inner(schema, spine, *parent) {
            let fit = Some(*parent);
            write_prices(schema, spine, fit, prices.of_fit(schema, spine, fit), out)?;
        }
    }
    Ok(())
}

// Whether the text is written again behind other bytes.
fn is_written_again(
    alloc: Global,
    schema: &Schema,
    spine: &Spine,
    prices: &Prices,
) -> Result<bool, Fail>
    requires belong { spine.now.depth ≡ length schema.now.levels }
    requires prices { ArePricesOf schema.now spine.now prices.now }
{
    let mut out = vec![in alloc; b'x']?;
    write_all(schema, spine, prices, &mut out)?;
    Ok(out.strip_prefix(b"x") == Some(PRICES.as_bytes()))
}

fn prices_of_spine(
    rt: &impl Abort,
    alloc: Global,
    schema: &Schema,
    spine: &Spine,
) -> Result<(), Fail>
    requires { spine.now.depth ≡ length schema.now.levels }
{
    assert!(rt; are_counts(schema, spine));
    let prices = read_prices(alloc, schema, spine, PRICES.as_bytes())?;
    assert!(rt; are_kept(schema, spine, &prices));
    let same = is_written_again(alloc, schema, spine, &prices)?;
    assert!(rt; same);
    Ok(())
}

fn prices_are_refused(rt: &impl Abort, alloc: Global, schema: &Schema, spine: &Spine)
    requires { spine.now.depth ≡ length schema.now.levels }
{
    for (text, due) in WRONG_PRICES {
        assert!(rt; text.len() < 1000);
        let fault = read_prices(alloc, schema, spine, text.as_bytes()).err();
        assert!(rt; fault == Some(due), "{text}");
    }
}

// Whether each unit has this count in its one cell.
fn are_counts_of(schema: &Schema, spine: &Spine, tables: &Tables, due: [u64; 4]) -> bool
    requires { AreCountsOf schema.now spine.now tables.now }
{
    if spine.units() != 4 || schema.cells() != 1 {
        return false;
    }
    for (unit, count) in due.iter().enumerate() {
        if tables.get(unit as u32, 0) != *count {
            return false;
        }
    }
    true
}

// Whether a text has these counts.
fn has_counts(
    alloc: Global,
    schema: &Schema,
    spine: &Spine,
    text: &str,
    due: [u64; 4],
) -> Result<bool, Fail>
    requires belong { spine.now.depth ≡ length schema.now.levels }
    requires limit { length text.now ≤ 2 ^ 30 }
{
    let tables = read_tables(alloc, schema, spine, text.as_bytes())?;
    Ok(are_counts_of(schema, spine, &tables, due))
}

fn tables_of_spine(
    rt: &impl Abort,
    alloc: Global,
    schema: &Schema,
    spine: &Spine,
) -> Result<(), Fail>
    requires { spine.now.depth ≡ length schema.now.levels }
{
    for (text, due) in TABLES {
        assert!(rt; text.len() < 1000);
        let same = has_counts(alloc, schema, spine, text, due)?;
        assert!(rt; same, "{text}");
    }
    Ok(())
}

fn tables_are_refused(rt: &impl Abort, alloc: Global, schema: &Schema, spine: &Spine)
    requires { spine.now.depth ≡ length schema.now.levels }
{
    for (text, due) in WRONG_TABLES {
        assert!(rt; text.len() < 1000);
        let fault = read_tables(alloc, schema, spine, text.as_bytes()).err();
        assert!(rt; fault == Some(due), "{text}");
    }
}

fn on_two_blocks(rt: &impl Abort, alloc: Global, schema: &Schema) -> Result<(), Fail> {
    let spine = read_spine(alloc, schema, TWO_BLOCKS.as_bytes())?;
    prices_of_spine(rt, alloc, schema, &spine)?;
    prices_are_refused(rt, alloc, schema, &spine);
    tables_of_spine(rt, alloc, schema, &spine)?;
    tables_are_refused(rt, alloc, schema, &spine);
    Ok(())
}

#[test]
fn read_and_written(rt: HostRuntime) -> Result<(), Fail> {
    let schema = read_schema(rt.alloc(), BLOCK_TOTALS.as_bytes())?;
    on_two_blocks(&rt, rt.alloc(), &schema)
}
