// What the fields of a row name.
ghost use Rattle.std.specs.Prelude.{◌≡◌, ◌+◌, ◌<◌, ◌^◌, false, [], length, slice_index_or, IfNone, IfSome};
ghost use Rattle.tda_io.specs.Csv.{after_header};
ghost use Rattle.tda_io.specs.Rows.{row_width};
ghost use Rattle.tda_spine.specs.Sound.{IsSound};
ghost use Rattle.tda_invar.specs.Fields as spec;
ghost use Rattle.tda_invar.specs.Fields.{field_in, is_unit_at, IsNamed};

use tda_io::{Rows, read_int};
use tda_spine::Spine;

/// A field of a row after the header, rows from 0.
pub(crate) fn field<'a>(rows: &'a Rows, row: usize, column: usize) -> &'a [u8]
    requires small { length rows.now < 2 ^ 64 }
    requires row { row + 1 < length rows.now }
    requires column { column < row_width rows.now }
    ensures { result.now ≡ field_in (slice_index_or (after_header rows.now) row []) column }
{
    rows.field(row + 1, column)
}

/// The unit of a level that has this code.
pub(crate) fn unit_at(spine: &Spine, level: usize, code: &[u8]) -> Option<u32>
    requires { IsSound spine.now }
    ensures some { IfSome result (IsNamed spine.now level code.now) }
    ensures none { IfNone result (is_unit_at spine.now level code.now ≡ false) }
{
    let unit = spine.find(code)?;
    if spine.level(unit) == level {
        Some(unit)
    } else {
        None
    }
}

/// The number from 0 to `most` that a text is the canonical decimal of.
pub(crate) fn count_named(text: &[u8], most: u64) -> Option<u64>
    ensures { result ≡ spec.count_named most text.now }
{
    let number = read_int(text)?;
    if (0..=i128::from(most)).contains(&number) {
        Some(number as u64)
    } else {
        None
    }
}
