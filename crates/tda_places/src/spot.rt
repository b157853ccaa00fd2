// Where places stand, by arithmetic.
ghost use Rattle.std.specs.Prelude.{◌≡◌, ◌+◌, ◌*◌, ◌<◌, ◌≤◌, ◌^◌, length, IfSome, ℕ};
ghost use Rattle.tda_model.specs.Groups.{classes_of};
ghost use Rattle.tda_model.specs.Sizes.{places_at};
ghost use Rattle.tda_model.specs.Spine.{units_at};
ghost use Rattle.tda_schema.specs.Stated.{queries_at, query_at};
ghost use Rattle.tda_places.specs.Places.{places_of, IsPlace};
ghost use Rattle.tda_places.specs.Spots as spec;
ghost use Rattle.tda_places.specs.Spots.{class_count, level_size, StandsAt};

use crate::Place;
use tda_schema::Schema;
use tda_spine::Spine;

// Where a place stands: at a level, which of its units, which query, and which of the query's classes.
#[derive(Clone, Copy, Debug, PartialEq, Eq)]
pub(crate) struct Spot {
    pub(crate) level: usize,
    pub(crate) unit: usize,
    pub(crate) query: usize,
    pub(crate) class: usize,
}

// A level or a query, and how many of its places come before a place.
#[derive(Clone, Copy, Debug, PartialEq, Eq)]
struct Part {
    number: usize,
    rest: u64,
}

// How many places each unit of a level has.
pub(crate) fn unit_count(schema: &Schema, level: usize) -> u64
    requires { level < length schema.now.levels }
    ensures count { result ≡ places_at schema.now level }
    ensures few { result ≤ 2 ^ 15 }
{
    // There are at most 8 queries and 4,096 cells.
    let _ = schema.queries(level);
    let _ = schema.cells();
    schema.places(level)
}

// How many places all units of a level have.
fn level_count(schema: &Schema, spine: &Spine, level: usize) -> u64
    requires belong { spine.now.depth ≡ length schema.now.levels }
    requires level { level < length schema.now.levels }
    ensures count { result ≡ level_size schema.now spine.now level }
    ensures few { result ≤ 2 ^ 32 }
{
    // There are at most 2^17 units.
    let _ = spine.units();
    spine.at_level(level).len() as u64 * unit_count(schema, level)
}

// How many places the levels before a level have.
pub(crate) fn before_level(schema: &Schema, spine: &Spine, level: usize) -> u64
    requires belong { spine.now.depth ≡ length schema.now.levels }
    requires level { level ≤ length schema.now.levels }
    ensures count { result ≡ spec.before_level schema.now spine.now level }
    ensures few { result ≤ 2 ^ 35 }
{
    // There are at most 7 levels.
    let _ = schema.levels();
    let mut count = 0;
    for earlier in 0..level {
        count += level_count(schema, spine, earlier);
    }
    count
}

// How many places of a unit stand before those of a query.
pub(crate) fn before_query(schema: &Schema, level: usize, query: usize) -> u64
    requires level { level < length schema.now.levels }
    requires query { query ≤ length (queries_at schema.now level) }
    ensures count { result ≡ spec.before_query schema.now level query }
    ensures few { result ≤ 2 ^ 15 }
{
    // There are at most 8 queries and 4,096 cells.
    let _ = schema.queries(level);
    let _ = schema.cells();
    let mut count = 0;
    for earlier in 0..query {
        count += schema.classes(level, earlier).len() as u64;
    }
    count
}

// The level of the place at an index, and the index among the places of the level.
fn level_of_index(schema: &Schema, spine: &Spine, index: u64) -> Part
    requires belong { spine.now.depth ≡ length schema.now.levels }
    requires index { index < spec.before_level schema.now spine.now (length schema.now.levels) }
    ensures level { result.number < length schema.now.levels }
    ensures within { result.rest < level_size schema.now spine.now result.number }
    ensures index { index ≡ spec.before_level schema.now spine.now result.number + result.rest }
{
    let mut rest = index;
    for level in 0..schema.levels() {
        let count = level_count(schema, spine, level);
        if rest < count {
            return Part {
                number: level,
                rest,
            };
        }
        rest -= count;
    }
    unreachable!()
}

// The query of the place of a unit at an index, and the index among the places of the query.
fn query_of_index(schema: &Schema, level: usize, index: u64) -> Part
    requires level { level < length schema.now.levels }
    requires index { index < places_at schema.now level }
    ensures query { result.number < length (queries_at schema.now level) }
    ensures within { result.rest < class_count schema.now level result.number }
    ensures index { index ≡ spec.before_query schema.now level result.number + result.rest }
{
    let mut rest = index;
    for query in 0..schema.queries(level) {
        let count = schema.classes(level, query).len() as u64;
        if rest < count {
            return Part {
                number: query,
                rest,
            };
        }
        rest -= count;
    }
    unreachable!()
}

// Where the place at an index stands.
pub(crate) fn spot_at(schema: &Schema, spine: &Spine, index: u64) -> Spot
    requires belong { spine.now.depth ≡ length schema.now.levels }
    requires index { index < length (places_of schema.now spine.now) }
    ensures { StandsAt schema.now spine.now index result }
{
    let level = level_of_index(schema, spine, index);
    let places = unit_count(schema, level.number);
    let query = query_of_index(schema, level.number, level.rest % places);
    Spot {
        level: level.number,
        unit: (level.rest / places) as usize,
        query: query.number,
        class: query.rest as usize,
    }
}

// Where the place at an index stands, beside where the one before it stands: in most cases it is the next class.
pub(crate) fn next_spot(schema: &Schema, spine: &Spine, index: u64, last: Option<Spot>) -> Spot
    requires belong { spine.now.depth ≡ length schema.now.levels }
    requires index { index < length (places_of schema.now spine.now) }
    requires last { IfSome last (λ spot. (before : ℕ) × (before + 1 ≡ index) × StandsAt schema.now spine.now before spot) }
    ensures { StandsAt schema.now spine.now index result }
{
    if let Some(spot) = last
        && spot.class + 1 < schema.classes(spot.level, spot.query).len()
    {
        return Spot {
            class: spot.class + 1,
            ..spot
        };
    }
    spot_at(schema, spine, index)
}

// The place that stands there.
pub(crate) fn place_of(schema: &Schema, spine: &Spine, spot: Spot) -> Place
    requires belong { spine.now.depth ≡ length schema.now.levels }
    requires level { spot.level < length schema.now.levels }
    requires unit { spot.unit < length (units_at spine.now spot.level) }
    requires query { spot.query < length (queries_at schema.now spot.level) }
    requires class { spot.class < class_count schema.now spot.level spot.query }
    ensures value { result ≡ spec.place_of schema.now spine.now spot }
    ensures is { IsPlace schema.now spine.now result }
{
    // There are at most 8 queries.
    let _ = schema.queries(spot.level);
    Place {
        unit: spine.at_level(spot.level)[spot.unit],
        query: spot.query as u32,
        class: schema.classes(spot.level, spot.query)[spot.class],
    }
}
