// Reads tables.
ghost use Rattle.std.specs.Prelude.{◌≡◌, ◌≤◌, ◌^◌, length, IfOk};
ghost use Rattle.tda_io.specs.Due.{Gives};
ghost use Rattle.tda_out.specs.Counts.{AreCountsOf};
ghost use Rattle.tda_spine.specs.Judged.{IsWithinLimits};
ghost use Rattle.tda_prices.specs.FilesBack.{TablesAreReadBack, TablesAreShort};
ghost use Rattle.tda_io.specs.RowReading.{rest_due};
ghost use Rattle.tda_prices.specs.TablesRead.{format, read};

use crate::TabFault;
use crate::counted::judge;
use crate::ranks::ranks;
use std::alloc::Global;
use tda_io::RowReader;
use tda_out::Tables;
use tda_schema::Schema;
use tda_spine::Spine;

// The tables of the rows after the header.
fn tables_of(
    alloc: Global,
    schema: &Schema,
    spine: &Spine,
    rows: &mut RowReader,
) -> Result<Tables, TabFault>
    requires number { rows.old.number ≡ 1 }
    requires width { rows.old.width ≡ 3 }
    ensures given { Gives TabFault.NoMemory (λ t. t) result (rest_due (format schema.now spine.now) rows.old) }
    ensures counts { IfOk result (AreCountsOf schema.now spine.now) }
{
    // Units have codes of their own, and there are at most 4,096 cells.
    let _ = spine.units();
    let _ = schema.cells();
    let ranks = ranks(alloc, spine)?;
    let mut tables = Tables::new(alloc, schema, spine)?;
    let mut last = None;
    while rows.next_row()? {
        match judge(schema, spine, &ranks, last, rows) {
            Ok(counted) => {
                tables.set(counted.unit, counted.cell, counted.count)?;
                last = Some(counted.spot);
            }
            Err(fault) => {
                // A later row of another width comes first.
                rows.finish()?;
                return Err(fault);
            }
        }
    }
    Ok(tables)
}

// The tables of a text.
fn tables_in(
    alloc: Global,
    schema: &Schema,
    spine: &Spine,
    bytes: &[u8],
) -> Result<Tables, TabFault>
    requires belong { spine.now.depth ≡ length schema.now.levels }
    requires limit { length bytes.now ≤ 2 ^ 30 }
    ensures given { Gives TabFault.NoMemory (λ t. t) result (read schema.now spine.now bytes.now) }
    ensures counts { IfOk result (AreCountsOf schema.now spine.now) }
{
    let mut rows = RowReader::new(alloc, bytes);
    if !rows.next_row()? || !rows.has_fields(&["unit", "cell", "count"]) {
        rows.finish()?;
        return Err(TabFault::BadHeader(1));
    }
    tables_of(alloc, schema, spine, &mut rows)
}

/// The tables of a text of at most 2^30 bytes, with the header `unit,cell,count` and a row for each count that isn't 0: the
/// unit's code, the cell's number and the count, a canonical decimal from 1 to 2^30. The nation comes first, then for each
/// unit with children, in fit order, its children in file order; the cells of a unit ascend. A count without a row is 0.
/// Rows of impossible cells are read. One pass is made over the text, and nothing of it is kept but the counts.
///
/// What `write_tables_header` and `write_tables` write is accepted, and gives the counts back; it is at most 2^30 bytes long
/// where the spine was read with the schema.
///
/// Rows are numbered from 1, the header being row 1. The first of these is answered. `BadRow` names the first row whose
/// width isn't that of row 1. `BadHeader(1)`: row 1 is another header, or there is no row. The first row that has a fault
/// is named with the first that it has: `WrongPlace` where it names no unit or no cell, or its unit and cell don't come
/// after those of the row before; `BadNumber` where its last field is no such count. `NoMemory` where memory ran out.
pub fn read_tables(
    alloc: Global,
    schema: &Schema,
    spine: &Spine,
    bytes: &[u8],
) -> Result<Tables, TabFault>
    requires belong { spine.now.depth ≡ length schema.now.levels }
    requires limit { length bytes.now ≤ 2 ^ 30 }
    ensures given { Gives TabFault.NoMemory (λ t. t) result (read schema.now spine.now bytes.now) }
    ensures counts { IfOk result (AreCountsOf schema.now spine.now) }
    ensures read_back { TablesAreReadBack schema.now spine.now }
    ensures short { IsWithinLimits schema.now spine.now → TablesAreShort schema.now spine.now }
{
    // Units have codes of their own, and there are at most 4,096 cells.
    let _ = spine.units();
    let _ = schema.cells();
    tables_in(alloc, schema, spine, bytes)
}
