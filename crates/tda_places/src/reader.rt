// Reads measurements.
ghost use Rattle.std.specs.Prelude.{◌≡◌, ◌≤◌, ◌^◌, length, IfOk};
ghost use Rattle.tda_io.specs.Due.{Gives};
ghost use Rattle.tda_io.specs.RowReading.{rest_due};
ghost use Rattle.tda_places.specs.Measurements as spec;
ghost use Rattle.tda_places.specs.Measurements.{format, AreMeasurementsOf};

use crate::judge::judge;
use crate::place::count;
use crate::{MeaFault, Measurements};
use std::alloc::Global;
use tda_io::RowReader;
use tda_schema::Schema;
use tda_spine::Spine;

// The measurements of the rows after the header, of a text of so many bytes.
fn measurements_of(
    alloc: Global,
    schema: &Schema,
    spine: &Spine,
    size: usize,
    rows: &mut RowReader,
) -> Result<Measurements, MeaFault>
    requires belong { spine.now.depth ≡ length schema.now.levels }
    requires number { rows.old.number ≡ 1 }
    requires width { rows.old.width ≡ 4 }
    ensures given { Gives MeaFault.NoMemory (λ m. m) result (rest_due (format schema.now spine.now) rows.old) }
    ensures measured { IfOk result (AreMeasurementsOf schema.now spine.now) }
{
    let count = count(schema, spine);
    // A row without a fault has at least 8 bytes: four fields, each with what ends it. The last one may lack its end.
    let room = count.min(size as u64 / 8);
    let mut numbers = Vec::with_capacity(alloc, room as usize)?;
    let mut last = None;
    while rows.next_row()? {
        match judge(schema, spine, numbers.len() as u64, count, last, rows) {
            Ok(measured) => {
                numbers.push(measured.value)?;
                last = Some(measured.spot);
            }
            Err(fault) => {
                // A later row of another width comes first.
                rows.finish()?;
                return Err(fault);
            }
        }
    }
    if (numbers.len() as u64) < count {
        return Err(MeaFault::Missing);
    }
    Ok(Measurements::from_list(schema, spine, numbers))
}

/// The measurements of a text of at most 2^30 bytes, with the header `unit,query,class,value` and a row for each place, in
/// the order of the places: the unit's code, the query's name, the class's number and the measurement, a canonical
/// decimal within 2^31 of 0. One pass is made over the text, and nothing of it is kept but the measurements.
///
/// Rows are numbered from 1, the header being row 1. The first of these is answered. `BadRow` names the first row whose
/// width isn't that of row 1. `BadHeader(1)`: row 1 is another header, or there is no row. The first row that has a fault
/// is named with the first that it has: `WrongPlace` where the row has a place and its first three fields are not those of
/// the place, `BadNumber` where its last field is no such number, `TooMany` where it comes after the last place. Then the
/// file is judged as a whole: `Missing` where there are fewer rows than places. `NoMemory` where memory ran out.
pub fn read_measurements(
    alloc: Global,
    schema: &Schema,
    spine: &Spine,
    bytes: &[u8],
) -> Result<Measurements, MeaFault>
    requires belong { spine.now.depth ≡ length schema.now.levels }
    requires limit { length bytes.now ≤ 2 ^ 30 }
    ensures given { Gives MeaFault.NoMemory (λ m. m) result (spec.read schema.now spine.now bytes.now) }
    ensures measured { IfOk result (AreMeasurementsOf schema.now spine.now) }
{
    let mut rows = RowReader::new(alloc, bytes);
    if !rows.next_row()? || !rows.has_fields(&["unit", "query", "class", "value"]) {
        rows.finish()?;
        return Err(MeaFault::BadHeader(1));
    }
    measurements_of(alloc, schema, spine, bytes.len(), &mut rows)
}
