// Writes measurements.
ghost use Rattle.std.specs.Prelude.{◌≡◌, ◌≤◌, ◌^◌, ◌++◌, ◌∷◌, Ok, [], length, take, true, OnOk, OnErr};
ghost use Rattle.std.specs.Fmt.{decimal, signed_decimal};
ghost use Rattle.tda_io.specs.Texts.{name_test, row_text};
ghost use Rattle.tda_model.specs.Sizes.{place_count, places_limit};
ghost use Rattle.tda_places.specs.Measurements.{header, measurements_text, read, AreMeasurementsOf};

use crate::Measurements;
use crate::spot::{next_spot, place_of};
use tda_io::{NoMemory, push_field, push_int};
use tda_schema::Schema;
use tda_spine::Spine;

// Appends the header.
fn push_header(out: &mut Vec<u8>) -> Result<(), NoMemory>
    ensures ok { OnOk result (out.new.items ≡ out.old.items ++ row_text header) }
    ensures err { OnErr result (take (length out.old.items) out.new.items ≡ out.old.items) }
{
    push_field(out, b"unit", false)?;
    push_field(out, b"query", false)?;
    push_field(out, b"class", false)?;
    push_field(out, b"value", true)
}

// Appends the row of a place.
fn push_measurement(
    out: &mut Vec<u8>,
    code: &str,
    query: &str,
    class: u32,
    value: i64,
) -> Result<(), NoMemory>
    requires code { name_test 16 code.now ≡ true }
    requires query { name_test 32 query.now ≡ true }
    ensures ok { OnOk result (out.new.items ≡ out.old.items ++ row_text (code.now ∷ query.now ∷ decimal class ∷ signed_decimal value ∷ [])) }
    ensures err { OnErr result (take (length out.old.items) out.new.items ≡ out.old.items) }
{
    push_field(out, code.as_bytes(), false)?;
    push_field(out, query.as_bytes(), false)?;
    push_int(out, i128::from(class))?;
    out.push(b',')?;
    push_int(out, i128::from(value))?;
    out.push(b'\n')?;
    Ok(())
}

// Appends the header and the rows of all places.
fn push_all(
    schema: &Schema,
    spine: &Spine,
    m: &Measurements,
    out: &mut Vec<u8>,
) -> Result<(), NoMemory>
    requires belong { spine.now.depth ≡ length schema.now.levels }
    requires measured { AreMeasurementsOf schema.now spine.now m.now }
    ensures ok { OnOk result (out.new.items ≡ out.old.items ++ measurements_text schema.now spine.now m.now) }
    ensures err { OnErr result (take (length out.old.items) out.new.items ≡ out.old.items) }
{
    push_header(out)?;
    let mut last = None;
    for (index, value) in m.numbers().iter().enumerate() {
        let spot = next_spot(schema, spine, index as u64, last);
        let place = place_of(schema, spine, spot);
        let query = schema.query_name(spot.level, spot.query);
        push_measurement(out, spine.code(place.unit), query, place.class, *value)?;
        last = Some(spot);
    }
    Ok(())
}

/// Appends the file of measurements, with the header `unit,query,class,value` and a row for each place in the order of the
/// places, at most 67 bytes a row, and 2^30 bytes in all where the spine was read with the schema.
///
/// `read_measurements` accepts what is written, and gives the measurements back. After `NoMemory` nothing was appended.
pub fn write_measurements(
    schema: &Schema,
    spine: &Spine,
    m: &Measurements,
    out: &mut Vec<u8>,
) -> Result<(), NoMemory>
    requires belong { spine.now.depth ≡ length schema.now.levels }
    requires measured { AreMeasurementsOf schema.now spine.now m.now }
    ensures ok { OnOk result (out.new.items ≡ out.old.items ++ measurements_text schema.now spine.now m.now) }
    ensures err { OnErr result (out.new.items ≡ out.old.items) }
    ensures read_back { read schema.now spine.now (measurements_text schema.now spine.now m.now) ≡ Ok m.now }
    ensures limit { place_count schema.now spine.now ≤ places_limit → length (measurements_text schema.now spine.now m.now) ≤ 2 ^ 30 }
{
    // Units have codes and queries names, and there are at most 4,096 cells.
    let _ = spine.units();
    let _ = schema.levels();
    let _ = schema.cells();
    let before = out.len();
    let written = push_all(schema, spine, m, out);
    if written.is_err() {
        out.truncate(before);
    }
    written
}
