// What is wrong with a row of a spine's file.
ghost use Rattle.std.specs.Prelude.{◌≡◌, ◌<◌, ◌^◌, [], length, take, slice_index_or};
ghost use Rattle.tda_io.specs.Csv as csv;
ghost use Rattle.tda_spine.specs.Judged as judged;
ghost use Rattle.tda_spine.specs.Rows as spec;

use crate::SpineFault;
use crate::rows::SpineRows;
use tda_schema::Schema;

// The level that the parent's row names.
fn parent_level(schema: &Schema, rows: &SpineRows, row: usize) -> Option<usize>
    requires { row < length rows.now }
    ensures { result ≡ spec.parent_level schema.now rows.now (slice_index_or rows.now row []) }
{
    let place = rows.parent_place(row)?;
    schema.find_level(rows.level(place as usize))
}

// Whether a level goes with whether a parent is named, and with the level of the parent's row.
fn fits_parent(level: Option<usize>, no_parent: bool, above: Option<usize>) -> bool
    ensures { result ≡ spec.fits_parent level no_parent above }
{
    match (level, above) {
        (None, _) => false,
        (Some(0), _) => no_parent,
        (Some(_), None) => false,
        (Some(level), Some(above)) => !no_parent && above == level - 1,
    }
}

fn has_wrong_level(schema: &Schema, rows: &SpineRows, row: usize) -> bool
    requires { row < length rows.now }
    ensures { result ≡ spec.has_wrong_level schema.now rows.now (slice_index_or rows.now row []) }
{
    let level = schema.find_level(rows.level(row));
    let no_parent = rows.parent(row).is_empty();
    !fits_parent(level, no_parent, parent_level(schema, rows, row))
}

// The fault of a row, told by the row's number in the file.
fn row_fault(schema: &Schema, rows: &SpineRows, row: usize) -> Option<SpineFault>
    requires few { length rows.now < 2 ^ 30 }
    requires row { row < length rows.now }
    ensures { result ≡ judged.row_fault schema.now rows.now (take row rows.now) (slice_index_or rows.now row []) }
{
    let number = row as u64 + 2;
    if rows.has_bad_code(row) {
        Some(SpineFault::BadCode(number))
    } else if rows.is_repeated(row) {
        Some(SpineFault::Repeated(number))
    } else if rows.has_unknown_parent(row) {
        Some(SpineFault::UnknownParent(number))
    } else if has_wrong_level(schema, rows, row) {
        Some(SpineFault::WrongLevel(number))
    } else {
        None
    }
}

/// The fault of the first row that has one.
pub(crate) fn first_fault(schema: &Schema, rows: &SpineRows) -> Option<SpineFault>
    ensures { result ≡ csv.first_fault (judged.row_fault schema.now rows.now) [] rows.now }
{
    for row in 0..rows.len() {
        if let Some(fault) = row_fault(schema, rows, row) {
            return Some(fault);
        }
    }
    None
}
