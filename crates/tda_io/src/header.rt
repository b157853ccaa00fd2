// The first row of a text.
ghost use Rattle.std.specs.Prelude.{◌≡◌, ◌<◌, length, map};
ghost use Rattle.std.specs.Bool.{OnTrue};
ghost use Rattle.tda_io.specs.Rows.{row_width};
ghost use Rattle.tda_io.specs.Csv as csv;

use crate::Rows;

/// Whether the first row has these fields.
pub fn has_header(rows: &Rows, names: &[&str]) -> bool
    ensures header { result ≡ csv.has_header (map (λ n. n.now) names.now) rows.now }
    ensures some { OnTrue result (0 < length rows.now) }
    ensures width { OnTrue result (row_width rows.now ≡ length names.now) }
{
    if rows.len() == 0 || rows.width() != names.len() {
        return false;
    }
    for (col, name) in names.iter().enumerate() {
        if name.as_bytes() != rows.field(0, col) {
            return false;
        }
    }
    true
}
