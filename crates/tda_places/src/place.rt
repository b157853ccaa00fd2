// The places of a release, by their indexes.
ghost use Rattle.std.specs.Prelude.{◌≡◌, ◌<◌, Some, length, slice_get};
ghost use Rattle.tda_model.specs.Sizes.{place_count};
ghost use Rattle.tda_places.specs.Places.{places_of, IsPlace};

use crate::spot::{before_level, place_of, spot_at};
use tda_schema::Schema;
use tda_spine::Spine;

/// What one measurement is of: a unit, a query of its level by its number there, and a class of the query by its first
/// cell.
#[derive(Clone, Copy, Debug, PartialEq, Eq)]
pub struct Place {
    pub unit: u32,
    pub query: u32,
    pub class: u32,
}

/// How many places there are: one for each class of each query of each unit's level, at most 2^21 where the spine was
/// read with the schema.
pub fn count(schema: &Schema, spine: &Spine) -> u64
    requires belong { spine.now.depth ≡ length schema.now.levels }
    ensures places { result ≡ length (places_of schema.now spine.now) }
    ensures count { result ≡ place_count schema.now spine.now }
{
    // Each unit is of one of the levels.
    let _ = spine.units();
    before_level(schema, spine, schema.levels())
}

/// The place at an index. Places are ordered by level, then unit in file order, then query, then class.
pub fn place_at(schema: &Schema, spine: &Spine, index: u64) -> Place
    requires belong { spine.now.depth ≡ length schema.now.levels }
    requires index { index < length (places_of schema.now spine.now) }
    ensures value { slice_get (places_of schema.now spine.now) index ≡ Some result }
    ensures is { IsPlace schema.now spine.now result }
{
    place_of(schema, spine, spot_at(schema, spine, index))
}
