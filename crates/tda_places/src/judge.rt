// What a row of the file of measurements says, or what is wrong with it.
ghost use Rattle.std.specs.Prelude.{◌≡◌, ◌+◌, ◌≤◌, ◌<◌, ℕ, None, Some, length, take, IfErr, IfOk, IfSome};
ghost use Rattle.std.specs.Fmt.{decimal};
ghost use Rattle.std.specs.Str.{bytes_eq};
ghost use Rattle.tda_io.specs.Csv.{same_row};
ghost use Rattle.tda_places.specs.Measurements as spec;
ghost use Rattle.tda_places.specs.Measurements.{number_of, place_fields, IsWithinLimit};
ghost use Rattle.tda_places.specs.Places.{places_of};
ghost use Rattle.tda_places.specs.Spots.{place_of, StandsAt};

use crate::MeaFault;
use crate::spot::{self, Spot, next_spot};
use tda_io::{RowReader, read_int};
use tda_schema::Schema;
use tda_spine::Spine;

// How far from 0 a measurement may be.
const LIMIT: u128 = 1 << 31;

// A measurement, and where its place stands.
#[derive(Clone, Copy, Debug, PartialEq, Eq)]
pub(crate) struct Measured {
    pub(crate) spot: Spot,
    pub(crate) value: i64,
}

// The number within the limit that a text is the canonical decimal of.
fn measurement_named(text: &[u8]) -> Option<i64>
    ensures value { result ≡ spec.measurement_named text.now }
    ensures limit { IfSome result IsWithinLimit }
{
    let number = read_int(text)?;
    if number.unsigned_abs() <= LIMIT {
        Some(number as i64)
    } else {
        None
    }
}

// Whether a text is the canonical decimal of a number.
fn is_decimal(text: &[u8], number: u32) -> bool
    ensures { result ≡ bytes_eq (decimal number) text.now }
{
    read_int(text) == Some(i128::from(number))
}

// Whether the row that was read last names the place that stands there.
fn names_place(schema: &Schema, spine: &Spine, spot: Spot, row: &RowReader) -> bool
    requires belong { spine.now.depth ≡ length schema.now.levels }
    requires at { (index : ℕ) × StandsAt schema.now spine.now index spot }
    requires width { length row.now.row ≡ 4 }
    ensures { result ≡ same_row (place_fields schema.now spine.now (place_of schema.now spine.now spot)) (take 3 row.now.row) }
{
    let place = spot::place_of(schema, spine, spot);
    if spine.code(place.unit).as_bytes() != row.field(0) {
        return false;
    }
    if schema.query_name(spot.level, spot.query).as_bytes() != row.field(1) {
        return false;
    }
    is_decimal(row.field(2), place.class)
}

/// What the row that was read last says of the place at its index, or its fault; `last` is where the place before stands.
pub(crate) fn judge(
    schema: &Schema,
    spine: &Spine,
    index: u64,
    count: u64,
    last: Option<Spot>,
    row: &RowReader,
) -> Result<Measured, MeaFault>
    requires belong { spine.now.depth ≡ length schema.now.levels }
    requires number { row.now.number ≡ index + 2 }
    requires count { count ≡ length (places_of schema.now spine.now) }
    requires last { IfSome last (λ spot. (before : ℕ) × (before + 1 ≡ index) × StandsAt schema.now spine.now before spot) }
    requires width { length row.now.row ≡ 4 }
    ensures ok { IfOk result (λ m. m.value ≡ number_of row.now.row) }
    ensures limit { IfOk result (λ m. IsWithinLimit m.value) }
    ensures at { IfOk result (λ m. StandsAt schema.now spine.now index m.spot) }
    ensures fine { IfOk result (λ _. spec.row_fault schema.now spine.now index row.now.row ≡ None) }
    ensures err { IfErr result (λ f. spec.row_fault schema.now spine.now index row.now.row ≡ Some f) }
{
    let number = row.number();
    let value = measurement_named(row.field(3));
    if index >= count {
        return Err(match value {
            Some(_) => MeaFault::TooMany(number),
            None => MeaFault::BadNumber(number),
        });
    }
    let spot = next_spot(schema, spine, index, last);
    if !names_place(schema, spine, spot, row) {
        return Err(MeaFault::WrongPlace(number));
    }
    match value {
        Some(value) => Ok(Measured { spot, value }),
        None => Err(MeaFault::BadNumber(number)),
    }
}
