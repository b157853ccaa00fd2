// How many prices a fit has.
ghost use Rattle.std.specs.Prelude.{◌≡◌, ◌≤◌, ◌^◌, length, IfSome};
ghost use Rattle.tda_model.specs.Cells.{possible_cells};
ghost use Rattle.tda_spine.specs.Sound.{IsInner};
ghost use Rattle.tda_prices.specs.Items as spec;

use tda_schema::Schema;
use tda_spine::Spine;

// How many cells are possible.
pub(crate) fn count_possible(schema: &Schema) -> u64
    ensures count { result ≡ length (possible_cells schema.now) }
    ensures few { result ≤ 2 ^ 12 }
{
    let mut count = 0;
    for cell in 0..schema.cells() {
        if schema.possible(cell) {
            count += 1;
        }
    }
    count
}

/// How many prices a fit has: of the nation's fit, None, one for each state, kind and group of the nation; of the fit of a
/// unit's children one for each possible cell, and for each child one for each of its groups.
pub fn price_count(schema: &Schema, spine: &Spine, fit: Option<u32>) -> u64
    requires belong { spine.now.depth ≡ length schema.now.levels }
    requires fit { IfSome fit (IsInner spine.now) }
    ensures { result ≡ spec.price_count schema.now spine.now fit }
{
    // A spine has a first level, and each unit is of one of the levels.
    let _ = spine.units();
    match fit {
        None => {
            let states = spine.at_level(1).len() as u64;
            states + u64::from(schema.kinds()) + u64::from(schema.groups(0))
        }
        Some(parent) => {
            let groups = schema.groups(spine.level(parent) + 1);
            count_possible(schema) + spine.children(parent).len() as u64 * u64::from(groups)
        }
    }
}
