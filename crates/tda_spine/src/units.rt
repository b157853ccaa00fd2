// The units of rows without a fault.
ghost use Rattle.std.specs.Prelude.{◌≡◌, ◌<◌, [], None, true, false, length, map, slice_index_or, IfOk};
ghost use Rattle.tda_io.specs.Csv as csv;
ghost use Rattle.tda_io.specs.Texts.{name_test};
ghost use Rattle.tda_spine.specs.Judged.{row_fault};
ghost use Rattle.tda_spine.specs.Rows as spec;
ghost use Rattle.tda_spine.specs.Rows.{is_bad_code};

use crate::rows::SpineRows;
use crate::unit::SpineUnit;
use std::alloc::Global;
use tda_io::NoMemory;
use tda_schema::Schema;

// The text of a code.
fn text_of(code: &[u8]) -> &str
    requires { name_test 16 code.now ≡ true }
    ensures { result.now ≡ code.now }
{
    str::from_utf8(code).unwrap()
}

fn unit_of(
    alloc: Global,
    schema: &Schema,
    rows: &SpineRows,
    row: usize,
) -> Result<SpineUnit, NoMemory>
    requires row { row < length rows.now }
    requires code { is_bad_code (slice_index_or rows.now row []) ≡ false }
    ensures { IfOk result (λ unit. unit ≡ spec.unit_of schema.now rows.now (slice_index_or rows.now row [])) }
{
    let code = String::from_str(alloc, text_of(rows.code(row)))?;
    let level = schema.find_level(rows.level(row)).unwrap_or(0);
    let parent = rows.parent_place(row);
    Ok(SpineUnit {
        code,
        level,
        parent,
    })
}

/// The units of rows without a fault, in order.
pub(crate) fn units_of(
    alloc: Global,
    schema: &Schema,
    rows: &SpineRows,
) -> Result<Vec<SpineUnit>, NoMemory>
    requires { csv.first_fault (row_fault schema.now rows.now) [] rows.now ≡ None }
    ensures { IfOk result (λ units. units.items ≡ map (spec.unit_of schema.now rows.now) rows.now) }
{
    let mut units = Vec::with_capacity(alloc, rows.len())?;
    for row in 0..rows.len() {
        units.push(unit_of(alloc, schema, rows, row)?)?;
    }
    Ok(units)
}
