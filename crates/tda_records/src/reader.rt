// Reads records.
ghost use Rattle.std.specs.Prelude.{◌≡◌, ◌+◌, ◌≤◌, ◌^◌, length, IfOk};
ghost use Rattle.std.specs.Bool.{OnTrue};
ghost use Rattle.tda_io.specs.Csv.{same_row};
ghost use Rattle.tda_io.specs.Due.{Gives};
ghost use Rattle.tda_io.specs.RowReading.{rest_due};
ghost use Rattle.tda_io.specs.Table.{rows_cost};
ghost use Rattle.tda_records.specs.Records as spec;
ghost use Rattle.tda_records.specs.Records.{format, AreRecordsOf};

use crate::judge::judge;
use crate::{RecFault, Records};
use std::alloc::Global;
use tda_io::RowReader;
use tda_schema::Schema;
use tda_spine::Spine;

// Whether the row that was read last is the header.
fn is_header(schema: &Schema, row: &RowReader) -> bool
    ensures header { result ≡ same_row (spec.header schema.now) row.now.row }
    ensures width { OnTrue result (length row.now.row ≡ length schema.now.attributes + 1) }
{
    let attributes = schema.attributes();
    if row.len() != attributes + 1 || b"block".as_slice() != row.field(0) {
        return false;
    }
    for a in 0..attributes {
        if schema.attribute_name(a).as_bytes() != row.field(a + 1) {
            return false;
        }
    }
    true
}

// The records of the rows after the header.
fn records_of(
    alloc: Global,
    schema: &Schema,
    spine: &Spine,
    rows: &mut RowReader,
) -> Result<Records, RecFault>
    requires belong { spine.now.depth ≡ length schema.now.levels }
    requires number { rows.old.number ≡ 1 }
    requires width { rows.old.width ≡ length schema.now.attributes + 1 }
    requires few { rows_cost rows.old.rest ≤ 2 ^ 28 }
    ensures given { Gives RecFault.NoMemory (λ r. r) result (rest_due (format schema.now spine.now) rows.old) }
    ensures records { IfOk result (AreRecordsOf schema.now spine.now) }
{
    let mut records = Vec::new(alloc);
    while rows.next_row()? {
        match judge(schema, spine, rows) {
            Ok(record) => records.push(record)?,
            Err(fault) => {
                // A later row of another width comes first.
                rows.finish()?;
                return Err(fault);
            }
        }
    }
    Ok(Records::new(records))
}

/// The records of a text of at most 2^28 bytes, with the header `block` and then the attributes' names in order, and a
/// row for each person. One pass is made over the text, and nothing of it is kept but the records.
///
/// Rows are numbered from 1, the header being row 1. The first of these is answered. `BadRow` names the first row whose
/// width isn't that of row 1. `BadHeader(1)`: row 1 is another header, or there is no row. The first row that has a fault
/// is named with the first that it has: `UnknownBlock` where its first field is not the code of a unit of the last level,
/// `UnknownValue` where a further field is not a value of its attribute, `ImpossibleCell` where the cell of its values
/// isn't possible. `NoMemory` where memory ran out.
pub fn read_records(
    alloc: Global,
    schema: &Schema,
    spine: &Spine,
    bytes: &[u8],
) -> Result<Records, RecFault>
    requires belong { spine.now.depth ≡ length schema.now.levels }
    requires limit { length bytes.now ≤ 2 ^ 28 }
    ensures given { Gives RecFault.NoMemory (λ r. r) result (spec.read schema.now spine.now bytes.now) }
    ensures records { IfOk result (AreRecordsOf schema.now spine.now) }
{
    let mut rows = RowReader::new(alloc, bytes);
    if !rows.next_row()? || !is_header(schema, &rows) {
        rows.finish()?;
        return Err(RecFault::BadHeader(1));
    }
    records_of(alloc, schema, spine, &mut rows)
}
