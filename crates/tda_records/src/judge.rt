// What a row of the file of records says, or what is wrong with it.
ghost use Rattle.std.specs.Prelude.{◌≡◌, ◌+◌, ◌<◌, ◌≤◌, None, Some, [], length, slice_index_or, true, IfErr, IfNone, IfOk, IfSome};
ghost use Rattle.tda_io.specs.Table.{row_cost};
ghost use Rattle.tda_records.specs.Cells.{HasCell};
ghost use Rattle.tda_records.specs.Records as spec;
ghost use Rattle.tda_records.specs.Records.{has_unknown_value, record_of, IsBlock, IsRecordOf};

use crate::RecFault;
use crate::records::Record;
use tda_io::RowReader;
use tda_schema::Schema;
use tda_spine::Spine;

// The most attributes.
const ATTRIBUTES: usize = 8;

// The block whose code is the first field.
fn block_in(schema: &Schema, spine: &Spine, row: &RowReader) -> Option<u32>
    requires belong { spine.now.depth ≡ length schema.now.levels }
    requires some { 0 < length row.now.row }
    ensures value { result ≡ spec.block_in spine.now row.now.row }
    ensures block { IfSome result (IsBlock spine.now) }
    ensures filled { IfSome result (λ _. 0 < length (slice_index_or row.now.row 0 [])) }
{
    // Codes differ and aren't empty, and there is a last level.
    let _ = spine.units();
    let Some(unit) = spine.find(row.field(0)) else {
        return None;
    };
    if spine.level(unit) + 1 == schema.levels() {
        Some(unit)
    } else {
        None
    }
}

// The cell, possible or not, that has the values of the fields after the first, and None where a field is no value.
fn cell_in(schema: &Schema, row: &RowReader) -> Option<u32>
    requires { length row.now.row ≡ length schema.now.attributes + 1 }
    ensures some { IfSome result (HasCell schema.now row.now.row) }
    ensures none { IfNone result (has_unknown_value schema.now row.now.row ≡ true) }
    ensures filled { IfSome result (λ _. 0 < length (slice_index_or row.now.row 1 [])) }
{
    let mut values = [0; ATTRIBUTES];
    let attributes = schema.attributes();
    for a in 0..attributes {
        let Some(value) = schema.find_value(a, row.field(a + 1)) else {
            return None;
        };
        values[a] = value;
    }
    // A value has a name, so the row has at least four bytes with the ends of its fields.
    let _ = schema.value_name(0, values[0]);
    Some(schema.cell_of(&values[..attributes]))
}

/// What the row says that was read last, or its fault.
pub(crate) fn judge(schema: &Schema, spine: &Spine, row: &RowReader) -> Result<Record, RecFault>
    requires belong { spine.now.depth ≡ length schema.now.levels }
    requires width { length row.now.row ≡ length schema.now.attributes + 1 }
    ensures ok { IfOk result (λ r. r ≡ record_of schema.now spine.now row.now.row) }
    ensures is { IfOk result (IsRecordOf schema.now spine.now) }
    ensures size { IfOk result (λ _. 4 ≤ row_cost row.now.row) }
    ensures fine { IfOk result (λ _. spec.row_fault schema.now spine.now row.now.number row.now.row ≡ None) }
    ensures err { IfErr result (λ f. spec.row_fault schema.now spine.now row.now.number row.now.row ≡ Some f) }
{
    let number = row.number();
    let Some(block) = block_in(schema, spine, row) else {
        return Err(RecFault::UnknownBlock(number));
    };
    let Some(cell) = cell_in(schema, row) else {
        return Err(RecFault::UnknownValue(number));
    };
    if !schema.possible(cell) {
        return Err(RecFault::ImpossibleCell(number));
    }
    Ok(Record { block, cell })
}
