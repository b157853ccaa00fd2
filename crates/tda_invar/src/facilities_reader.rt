// Reads facilities.
ghost use Rattle.std.specs.Prelude.{◌≡◌, ◌≢◌, ◌+◌, ◌*◌, ◌<◌, ◌≤◌, ◌^◌, [], None, Some, is_some, length, map, slice_index_or, take, unwrap_or, IfErr, IfOk, IfSome};
ghost use Rattle.tda_io.specs.Csv as csv;
ghost use Rattle.tda_io.specs.Csv.{after_header};
ghost use Rattle.tda_io.specs.Due.{Gives};
ghost use Rattle.tda_io.specs.Rows.{row_width};
ghost use Rattle.tda_model.specs.Groups.{kind_count};
ghost use Rattle.tda_spine.specs.Sound.{IsSound};
ghost use Rattle.tda_invar.specs.Entries.{Gathered, Says};
ghost use Rattle.tda_invar.specs.Facilities as spec;
ghost use Rattle.tda_invar.specs.Facilities.{facilities_in, kind_named, names_place, IsTableOf};
ghost use Rattle.tda_invar.specs.declared.fac_fault.FacFault.TheVariants as fault;

use crate::fields::{count_named, field, unit_at};
use crate::kind_table::{HOUSEHOLD, KindTable};
use crate::{FacFault, Facilities};
use std::alloc::{AllocError, Global};
use tda_io::{RowFault, Rows, has_header, read_rows};
use tda_schema::Schema;
use tda_spine::Spine;

// The most facilities in one row.
const FACILITIES: u64 = 1 << 20;

// What a row says: how many facilities stand at a place, which is that of a block and a kind.
#[derive(Clone, Copy)]
struct Found {
    place: usize,
    count: u32,
}

// The kind of a name.
fn find_kind(schema: &Schema, name: &[u8]) -> Option<u16>
    ensures value { result ≡ kind_named schema.now name.now }
    ensures in_range { IfSome result (λ k. k < kind_count schema.now) }
{
    // There is a first attribute.
    let _ = schema.attributes();
    schema.find_value(0, name)
}

// Whether a place has an entry.
fn has_entry(entries: &[Option<u32>], place: usize) -> bool
    requires { place < length entries.now }
    ensures { result ≡ is_some (slice_index_or entries.now place None) }
{
    entries[place].is_some()
}

// The place of a block and a kind.
fn place_of(schema: &Schema, spine: &Spine, block: u32, kind: u16) -> usize
    requires block { block < length spine.now.units }
    requires kind { kind < kind_count schema.now }
    ensures place { result ≡ block * kind_count schema.now + kind }
    ensures in_range { result < length spine.now.units * kind_count schema.now }
{
    let _ = spine.units();
    block as usize * usize::from(schema.kinds()) + usize::from(kind)
}

// What a row says, or its fault, beside what the rows before it say of each place.
fn judge(
    schema: &Schema,
    spine: &Spine,
    entries: &[Option<u32>],
    rows: &Rows,
    row: usize,
) -> Result<Found, FacFault>
    requires sound { IsSound spine.now }
    requires belong { spine.now.depth ≡ length schema.now.levels }
    requires gathered { Gathered (length spine.now.units * kind_count schema.now) (names_place schema.now spine.now) facilities_in (take row (after_header rows.now)) entries.now }
    requires small { length rows.now < 2 ^ 63 }
    requires row { row + 1 < length rows.now }
    requires width { row_width rows.now ≡ 3 }
    ensures ok { IfOk result (λ f. Says (length spine.now.units * kind_count schema.now) (names_place schema.now spine.now) facilities_in (take row (after_header rows.now)) (slice_index_or (after_header rows.now) row []) f.place f.count) }
    ensures fine { IfOk result (λ _. spec.row_fault schema.now spine.now (take row (after_header rows.now)) (slice_index_or (after_header rows.now) row []) ≡ None) }
    ensures err { IfErr result (λ f. spec.row_fault schema.now spine.now (take row (after_header rows.now)) (slice_index_or (after_header rows.now) row []) ≡ Some f) }
{
    let number = row as u64 + 2;
    let Some(block) = unit_at(spine, schema.levels() - 1, field(rows, row, 0)) else {
        return Err(FacFault::UnknownBlock(number));
    };
    let Some(kind) = find_kind(schema, field(rows, row, 1)) else {
        return Err(FacFault::UnknownKind(number));
    };
    if kind == HOUSEHOLD {
        return Err(FacFault::Household(number));
    }
    let Some(count) = count_named(field(rows, row, 2), FACILITIES) else {
        return Err(FacFault::BadCount(number));
    };
    let place = place_of(schema, spine, block, kind);
    if has_entry(entries, place) {
        return Err(FacFault::Repeated(number));
    }
    Ok(Found {
        place,
        count: count as u32,
    })
}

// What all rows say of each place, or the fault of the first row that has one.
fn entries_of(
    alloc: Global,
    schema: &Schema,
    spine: &Spine,
    rows: &Rows,
) -> Result<Vec<Option<u32>>, FacFault>
    requires belong { spine.now.depth ≡ length schema.now.levels }
    requires some { 0 < length rows.now }
    requires small { length rows.now < 2 ^ 63 }
    requires width { row_width rows.now ≡ 3 }
    ensures fine { IfOk result (λ _. csv.first_fault (spec.row_fault schema.now spine.now) [] (after_header rows.now) ≡ None) }
    ensures ok { IfOk result (λ entries. Gathered (length spine.now.units * kind_count schema.now) (names_place schema.now spine.now) facilities_in (after_header rows.now) entries.items) }
    ensures err { IfErr result (λ f. f ≢ fault.NoMemory → csv.first_fault (spec.row_fault schema.now spine.now) [] (after_header rows.now) ≡ Some f) }
{
    let places = spine.units() as usize * usize::from(schema.kinds());
    let mut entries = vec![in alloc; None; places]?;
    for row in 0..rows.len() - 1 {
        let found = judge(schema, spine, &entries, rows, row)?;
        entries[found.place] = Some(found.count);
    }
    Ok(entries)
}

// The entries as numbers, 0 where there is none.
fn numbers_of(alloc: Global, entries: &[Option<u32>]) -> Result<Vec<u64>, AllocError>
    ensures { IfOk result (λ numbers. numbers.items ≡ map (λ e. unwrap_or e 0) entries.now) }
{
    entries
        .iter()
        .map(|entry| u64::from(entry.unwrap_or(0)))
        .collect(alloc)
}

// The facilities of rows, of which the first has to be the header.
fn judged(
    alloc: Global,
    schema: &Schema,
    spine: &Spine,
    rows: &Rows,
) -> Result<Facilities, FacFault>
    requires belong { spine.now.depth ≡ length schema.now.levels }
    requires small { length rows.now < 2 ^ 63 }
    ensures given { Gives FacFault.NoMemory (λ f. f) result (csv.judged (spec.format schema.now spine.now) rows.now) }
    ensures table { IfOk result (IsTableOf schema.now spine.now) }
{
    if !has_header(rows, &["block", "kind", "count"]) {
        return Err(FacFault::BadHeader(1));
    }
    let entries = entries_of(alloc, schema, spine, rows)?;
    let numbers = numbers_of(alloc, &entries)?;
    let table = KindTable::new(spine.units() as usize, schema.kinds(), numbers);
    Ok(Facilities::new(table))
}

/// The facilities of a spine's blocks, from a text of at most 2^28 bytes with the header `block,kind,count` and a row for
/// each block and kind that has some.
///
/// Rows are numbered from 1, the header being row 1. The first of these is answered. `BadRow` names the first row whose
/// width isn't that of row 1. `BadHeader(1)`: row 1 is another header, or there is no row. The first row that has a fault
/// is named with the first that it has: `UnknownBlock` where its first field is not the code of a unit of the last level,
/// `UnknownKind` where its second field is not a value of the first attribute, `Household` where it is the first value,
/// `BadCount` where its third field is no canonical decimal from 0 to 2^20, `Repeated` where an earlier row has its block
/// and kind. A count of 0 is as no row, but a row that repeats it is refused. `NoMemory` where memory ran out.
pub fn read_facilities(
    alloc: Global,
    schema: &Schema,
    spine: &Spine,
    bytes: &[u8],
) -> Result<Facilities, FacFault>
    requires belong { spine.now.depth ≡ length schema.now.levels }
    requires limit { length bytes.now ≤ 2 ^ 28 }
    ensures given { Gives FacFault.NoMemory (λ f. f) result (spec.read schema.now spine.now bytes.now) }
    ensures table { IfOk result (IsTableOf schema.now spine.now) }
{
    match read_rows(alloc, bytes) {
        Ok(rows) => judged(alloc, schema, spine, &rows),
        Err(RowFault::BadWidth(row)) => Err(FacFault::BadRow(row)),
        Err(RowFault::NoMemory) => Err(FacFault::NoMemory),
    }
}
