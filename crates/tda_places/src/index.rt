// The index of a place.
ghost use Rattle.std.specs.Prelude.{◌≡◌, ◌<◌, Some, Contains, length, slice_get, slice_index};
ghost use Rattle.std.specs.List.{AllPairs};
ghost use Rattle.tda_model.specs.Spine.{units_at};
ghost use Rattle.tda_schema.specs.Stated.{queries_at};
ghost use Rattle.tda_places.specs.Places as spec;
ghost use Rattle.tda_places.specs.Places.{IsPlace};
ghost use Rattle.tda_places.specs.Spots.{class_count, place_of, StandsAt};

use crate::Place;
use crate::spot::{Spot, before_level, before_query, unit_count};
use tda_schema::Schema;
use tda_spine::Spine;

// Where a number stands among rising ones.
fn find(numbers: &[u32], number: u32) -> usize
    requires rise { AllPairs (λ x y. x < y) numbers.now }
    requires there { Contains numbers.now number }
    ensures within { result < length numbers.now }
    ensures is { slice_index numbers.now result ≡ number }
{
    match numbers.binary_search(&number) {
        Ok(index) => index,
        Err(_) => unreachable!(),
    }
}

// Where a place stands.
fn spot_of(schema: &Schema, spine: &Spine, place: Place) -> Spot
    requires belong { spine.now.depth ≡ length schema.now.levels }
    requires place { IsPlace schema.now spine.now place }
    ensures level { result.level < length schema.now.levels }
    ensures unit { result.unit < length (units_at spine.now result.level) }
    ensures query { result.query < length (queries_at schema.now result.level) }
    ensures class { result.class < class_count schema.now result.level result.query }
    ensures is { place_of schema.now spine.now result ≡ place }
{
    // Each unit is of one of the levels.
    let _ = spine.units();
    let level = spine.level(place.unit);
    let query = place.query as usize;
    Spot {
        level,
        unit: find(spine.at_level(level), place.unit),
        query,
        class: find(schema.classes(level, query), place.class),
    }
}

// The index of the place that stands there.
fn index_of_spot(schema: &Schema, spine: &Spine, spot: Spot) -> u64
    requires belong { spine.now.depth ≡ length schema.now.levels }
    requires level { spot.level < length schema.now.levels }
    requires unit { spot.unit < length (units_at spine.now spot.level) }
    requires query { spot.query < length (queries_at schema.now spot.level) }
    requires class { spot.class < class_count schema.now spot.level spot.query }
    ensures { StandsAt schema.now spine.now result spot }
{
    // There are at most 2^17 units and 4,096 cells.
    let _ = spine.units();
    let _ = schema.cells();
    before_level(schema, spine, spot.level)
        + spot.unit as u64 * unit_count(schema, spot.level)
        + before_query(schema, spot.level, spot.query)
        + spot.class as u64
}

// The index of a place.
pub(crate) fn index_of(schema: &Schema, spine: &Spine, place: Place) -> u64
    requires belong { spine.now.depth ≡ length schema.now.levels }
    requires place { IsPlace schema.now spine.now place }
    ensures index { spec.index_of schema.now spine.now place ≡ Some result }
    ensures there { slice_get (spec.places_of schema.now spine.now) result ≡ Some place }
    ensures within { result < length (spec.places_of schema.now spine.now) }
{
    index_of_spot(schema, spine, spot_of(schema, spine, place))
}
