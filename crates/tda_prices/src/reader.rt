// Reads prices.
ghost use Rattle.std.specs.Prelude.{◌≡◌, ◌<◌, ◌≤◌, ◌^◌, [], ◌∷◌, length, All, IfErr, IfOk, IfSome, OnOk, None, Some};
ghost use Rattle.tda_io.specs.Due.{Gives};
ghost use Rattle.tda_io.specs.RowReading.{rest_due};
ghost use Rattle.tda_model.specs.Groups.{LevelIsNested};
ghost use Rattle.tda_model.specs.Spine.{IsUnit, children_of, parents_of};
ghost use Rattle.tda_spine.specs.Judged.{IsWithinLimits};
ghost use Rattle.tda_prices.specs.FilesBack.{PricesAreReadBack, PricesAreShort};
ghost use Rattle.tda_prices.specs.Kept.{ArePricesOf};
ghost use Rattle.tda_prices.specs.Left.{Reads, Stops};
ghost use Rattle.tda_prices.specs.Parts.{state_rows, kind_rows, cell_rows, child_rows, group_rows};
ghost use Rattle.tda_prices.specs.Places.{fields_of};
ghost use Rattle.tda_prices.specs.PricesText.{format, fit_places, places_of, read};

use crate::count::count_possible;
use crate::judge::{judge, past_fault};
use crate::place::{NOTHING, Place, fit_name};
use crate::{PriFault, Prices};
use std::alloc::Global;
use tda_io::RowReader;
use tda_schema::Schema;
use tda_spine::Spine;

// The price in the next row, whose place this is.
fn next_price(place: Place, rows: &mut RowReader) -> Result<i128, PriFault>
    requires some { 0 < rows.old.number }
    requires width { rows.old.width ≡ 5 }
    ensures ok { IfOk result (λ price. Reads (fields_of place.entry ∷ []) [] rows.old rows.new [] (price ∷ [])) }
    ensures err { IfErr result (Stops (fields_of place.entry ∷ []) rows.old) }
{
    if !rows.next_row()? {
        return Err(PriFault::Missing);
    }
    let price = judge(place, rows);
    if price.is_err() {
        // A later row of another width comes first.
        rows.finish()?;
    }
    price
}

// Appends the price in the next row, whose place this is.
fn read_price(place: Place, rows: &mut RowReader, prices: &mut Vec<i128>) -> Result<(), PriFault>
    requires some { 0 < rows.old.number }
    requires width { rows.old.width ≡ 5 }
    ensures ok { OnOk result (Reads (fields_of place.entry ∷ []) [] rows.old rows.new prices.old.items prices.new.items) }
    ensures err { IfErr result (Stops (fields_of place.entry ∷ []) rows.old) }
{
    let price = next_price(place, rows)?;
    prices.push(price)?;
    Ok(())
}

// Appends the prices of the states.
fn read_states(spine: &Spine, rows: &mut RowReader, prices: &mut Vec<i128>) -> Result<(), PriFault>
    requires some { 0 < rows.old.number }
    requires width { rows.old.width ≡ 5 }
    ensures ok { OnOk result (Reads (state_rows spine.now) [] rows.old rows.new prices.old.items prices.new.items) }
    ensures err { IfErr result (Stops (state_rows spine.now) rows.old) }
{
    // A spine has a first level.
    let _ = spine.units();
    for state in spine.at_level(1) {
        let place = Place {
            fit: NOTHING,
            part: "state",
            unit: spine.code(*state),
            item: 0,
        };
        read_price(place, rows, prices)?;
    }
    Ok(())
}

// Appends the prices of the kinds.
fn read_kinds(
    schema: &Schema,
    spine: &Spine,
    rows: &mut RowReader,
    prices: &mut Vec<i128>,
) -> Result<(), PriFault>
    requires some { 0 < rows.old.number }
    requires width { rows.old.width ≡ 5 }
    ensures ok { OnOk result (Reads (kind_rows schema.now spine.now) [] rows.old rows.new prices.old.items prices.new.items) }
    ensures err { IfErr result (Stops (kind_rows schema.now spine.now) rows.old) }
{
    for kind in 0..schema.kinds() {
        let place = Place {
            fit: NOTHING,
            part: "kind",
            unit: NOTHING,
            item: u32::from(kind),
        };
        read_price(place, rows, prices)?;
    }
    Ok(())
}

// Appends the prices of the possible cells.
fn read_cells(
    schema: &Schema,
    spine: &Spine,
    parent: u32,
    rows: &mut RowReader,
    prices: &mut Vec<i128>,
) -> Result<(), PriFault>
    requires parent { IsUnit spine.now parent }
    requires some { 0 < rows.old.number }
    requires width { rows.old.width ≡ 5 }
    ensures ok { OnOk result (Reads (cell_rows schema.now spine.now parent) [] rows.old rows.new prices.old.items prices.new.items) }
    ensures err { IfErr result (Stops (cell_rows schema.now spine.now parent) rows.old) }
{
    for cell in 0..schema.cells() {
        if schema.possible(cell) {
            let place = Place {
                fit: spine.code(parent),
                part: "cell",
                unit: NOTHING,
                item: cell,
            };
            read_price(place, rows, prices)?;
        }
    }
    Ok(())
}

// Appends the prices of a unit's groups.
fn read_groups(
    schema: &Schema,
    spine: &Spine,
    fit: Option<u32>,
    unit: u32,
    rows: &mut RowReader,
    prices: &mut Vec<i128>,
) -> Result<(), PriFault>
    requires belong { spine.now.depth ≡ length schema.now.levels }
    requires fit { IfSome fit (IsUnit spine.now) }
    requires unit { IsUnit spine.now unit }
    requires some { 0 < rows.old.number }
    requires width { rows.old.width ≡ 5 }
    ensures ok { OnOk result (Reads (group_rows schema.now spine.now fit unit) [] rows.old rows.new prices.old.items prices.new.items) }
    ensures err { IfErr result (Stops (group_rows schema.now spine.now fit unit) rows.old) }
{
    // Each unit is of one of the levels.
    let _ = spine.units();
    for group in 0..schema.groups(spine.level(unit)) {
        let place = Place {
            fit: fit_name(spine, fit),
            part: "group",
            unit: spine.code(unit),
            item: group,
        };
        read_price(place, rows, prices)?;
    }
    Ok(())
}

// Appends the prices of the nation's fit.
fn read_root(
    schema: &Schema,
    spine: &Spine,
    rows: &mut RowReader,
    prices: &mut Vec<i128>,
) -> Result<(), PriFault>
    requires belong { spine.now.depth ≡ length schema.now.levels }
    requires some { 0 < rows.old.number }
    requires width { rows.old.width ≡ 5 }
    ensures ok { OnOk result (Reads (fit_places schema.now spine.now None) [] rows.old rows.new prices.old.items prices.new.items) }
    ensures err { IfErr result (Stops (fit_places schema.now spine.now None) rows.old) }
{
    read_states(spine, rows, prices)?;
    read_kinds(schema, spine, rows, prices)?;
    read_groups(schema, spine, None, spine.nation(), rows, prices)
}

// Appends the prices of the groups of a unit's children.
fn read_children(
    schema: &Schema,
    spine: &Spine,
    parent: u32,
    rows: &mut RowReader,
    prices: &mut Vec<i128>,
) -> Result<(), PriFault>
    requires belong { spine.now.depth ≡ length schema.now.levels }
    requires parent { IsUnit spine.now parent }
    requires some { 0 < rows.old.number }
    requires width { rows.old.width ≡ 5 }
    ensures ok { OnOk result (Reads (child_rows schema.now spine.now parent) [] rows.old rows.new prices.old.items prices.new.items) }
    ensures err { IfErr result (Stops (child_rows schema.now spine.now parent) rows.old) }
{
    // Children are units.
    let _ = spine.units();
    for child in spine.children(parent) {
        read_groups(schema, spine, Some(parent), *child, rows, prices)?;
    }
    Ok(())
}

// Appends the prices of the fit of a unit's children.
fn read_split(
    schema: &Schema,
    spine: &Spine,
    parent: u32,
    rows: &mut RowReader,
    prices: &mut Vec<i128>,
) -> Result<(), PriFault>
    requires belong { spine.now.depth ≡ length schema.now.levels }
    requires parent { IsUnit spine.now parent }
    requires some { 0 < rows.old.number }
    requires width { rows.old.width ≡ 5 }
    ensures ok { OnOk result (Reads (fit_places schema.now spine.now (Some parent)) [] rows.old rows.new prices.old.items prices.new.items) }
    ensures err { IfErr result (Stops (fit_places schema.now spine.now (Some parent)) rows.old) }
{
    read_cells(schema, spine, parent, rows, prices)?;
    read_children(schema, spine, parent, rows, prices)
}

// How many prices all fits have: a unit's groups have one each, in the fit that the unit is in.
fn count_all(schema: &Schema, spine: &Spine) -> u64
    requires belong { spine.now.depth ≡ length schema.now.levels }
    ensures nested { All (LevelIsNested schema.now) schema.now.levels }
{
    // A spine has a first level.
    let _ = spine.units();
    let parents = spine.parents().len() as u64;
    let states = spine.at_level(1).len() as u64;
    let mut count = parents
        .saturating_mul(count_possible(schema))
        .saturating_add(states)
        .saturating_add(u64::from(schema.kinds()));
    for level in 0..schema.levels() {
        let units = spine.at_level(level).len() as u64;
        count = count.saturating_add(units.saturating_mul(u64::from(schema.groups(level))));
    }
    count
}

// The prices of all fits, with room for so many.
fn read_fits(
    alloc: Global,
    schema: &Schema,
    spine: &Spine,
    room: usize,
    rows: &mut RowReader,
) -> Result<Prices, PriFault>
    requires belong { spine.now.depth ≡ length schema.now.levels }
    requires some { 0 < rows.old.number }
    requires width { rows.old.width ≡ 5 }
    ensures ok { IfOk result (λ p. Reads (places_of schema.now spine.now) [] rows.old rows.new [] p.numbers) }
    ensures err { IfErr result (Stops (places_of schema.now spine.now) rows.old) }
    ensures prices { IfOk result (ArePricesOf schema.now spine.now) }
{
    let mut numbers = Vec::with_capacity(alloc, room)?;
    let mut starts = vec![in alloc; 0; spine.units() as usize]?;
    read_root(schema, spine, rows, &mut numbers)?;
    for parent in spine.parents() {
        starts[*parent as usize] = numbers.len() as u64;
        read_split(schema, spine, *parent, rows, &mut numbers)?;
    }
    Ok(Prices::new(numbers, starts))
}

// The prices of the rows after the header, with room for so many.
fn prices_of(
    alloc: Global,
    schema: &Schema,
    spine: &Spine,
    room: usize,
    rows: &mut RowReader,
) -> Result<Prices, PriFault>
    requires belong { spine.now.depth ≡ length schema.now.levels }
    requires number { rows.old.number ≡ 1 }
    requires width { rows.old.width ≡ 5 }
    ensures given { Gives PriFault.NoMemory (λ p. p.numbers) result (rest_due (format schema.now spine.now) rows.old) }
    ensures prices { IfOk result (ArePricesOf schema.now spine.now) }
{
    let prices = read_fits(alloc, schema, spine, room, rows)?;
    if rows.next_row()? {
        let fault = past_fault(rows);
        // A later row of another width comes first.
        rows.finish()?;
        return Err(fault);
    }
    Ok(prices)
}

// The prices of a text, with room for so many.
fn prices_in(
    alloc: Global,
    schema: &Schema,
    spine: &Spine,
    room: usize,
    bytes: &[u8],
) -> Result<Prices, PriFault>
    requires belong { spine.now.depth ≡ length schema.now.levels }
    requires limit { length bytes.now ≤ 2 ^ 30 }
    ensures given { Gives PriFault.NoMemory (λ p. p.numbers) result (read schema.now spine.now bytes.now) }
    ensures prices { IfOk result (ArePricesOf schema.now spine.now) }
{
    let mut rows = RowReader::new(alloc, bytes);
    if !rows.next_row()? || !rows.has_fields(&["fit", "part", "unit", "item", "price"]) {
        rows.finish()?;
        return Err(PriFault::BadHeader(1));
    }
    prices_of(alloc, schema, spine, room, &mut rows)
}

/// The prices of a text of at most 2^30 bytes, with the header `fit,part,unit,item,price` and a row for each price, the
/// fits in fit order. Of the nation's fit, written `-`, there is a row for each state (`state`, its code, 0), then for each
/// kind (`kind`, `-`, its number), then for each group of the nation (`group`, its code, the group's number). Of the fit of
/// a unit's children, written as the unit's code, there is a row for each possible cell (`cell`, `-`, its number), then for
/// each child one for each of its groups. The price is a canonical decimal within 2^96 of 0. One pass is made over the
/// text, and nothing of it is kept but the prices, sixteen bytes for each, and eight for each unit.
///
/// What `write_prices_header` and `write_prices` write is accepted, and gives the prices back; it is at most 2^30 bytes
/// long where the spine was read with the schema.
///
/// Rows are numbered from 1, the header being row 1. The first of these is answered. `BadRow` names the first row whose
/// width isn't that of row 1. `BadHeader(1)`: row 1 is another header, or there is no row. The first row that has a fault
/// is named with the first that it has: `WrongPlace` where the row has a place and its first four fields are not those of
/// the place, `BadNumber` where its last field is no such number, `TooMany` where it comes after the last place. Then the
/// file is judged as a whole: `Missing` where there are fewer rows than places. `NoMemory` where memory ran out.
pub fn read_prices(
    alloc: Global,
    schema: &Schema,
    spine: &Spine,
    bytes: &[u8],
) -> Result<Prices, PriFault>
    requires belong { spine.now.depth ≡ length schema.now.levels }
    requires limit { length bytes.now ≤ 2 ^ 30 }
    ensures given { Gives PriFault.NoMemory (λ p. p.numbers) result (read schema.now spine.now bytes.now) }
    ensures prices { IfOk result (ArePricesOf schema.now spine.now) }
    ensures read_back { PricesAreReadBack schema.now spine.now }
    ensures short { IsWithinLimits schema.now spine.now → PricesAreShort schema.now spine.now }
{
    // Units have codes, and there are at most 128 kinds and 4,096 cells.
    let _ = spine.units();
    let _ = schema.kinds();
    let _ = schema.cells();
    // A row without a fault has at least 12 bytes: five fields, one of them of four, each with what ends it. The last one
    // may lack its end.
    let room = count_all(schema, spine).min(bytes.len() as u64 / 12);
    prices_in(alloc, schema, spine, room as usize, bytes)
}
