// Where the places of a unit begin among all places.
ghost use Rattle.std.specs.Prelude.{◌≡◌, ◌*◌, ◌^◌, ◌<◌, ◌≤◌, Contains, length, slice_index};
ghost use Rattle.std.specs.List.{AllPairs};
ghost use Rattle.tda_model.specs.Sizes.{places_at};
ghost use Rattle.tda_model.specs.Spine.{IsUnit, level_of, units_at};
ghost use Rattle.tda_places.specs.Spots.{before_level, level_size};
ghost use Rattle.tda_fitnet.specs.TermTable.{BeginsAt};

use tda_schema::Schema;
use tda_spine::Spine;

// How many places each unit of a level has.
fn unit_size(schema: &Schema, level: usize) -> u64
    requires { level < length schema.now.levels }
    ensures size { result ≡ places_at schema.now level }
    ensures few { result ≤ 2 ^ 15 }
{
    // There are at most 8 queries and 4,096 cells.
    let _ = schema.queries(level);
    let _ = schema.cells();
    schema.places(level)
}

// How many places all units of a level have.
fn level_places(schema: &Schema, spine: &Spine, level: usize) -> u64
    requires belong { spine.now.depth ≡ length schema.now.levels }
    requires level { level < length schema.now.levels }
    ensures size { result ≡ level_size schema.now spine.now level }
    ensures few { result ≤ 2 ^ 32 }
{
    // There are at most 2^17 units.
    let _ = spine.units();
    spine.at_level(level).len() as u64 * unit_size(schema, level)
}

/// How many places stand before those of a level.
pub(crate) fn level_first(schema: &Schema, spine: &Spine, level: usize) -> u64
    requires belong { spine.now.depth ≡ length schema.now.levels }
    requires level { level < length schema.now.levels }
    ensures first { result ≡ before_level schema.now spine.now level }
    ensures few { result ≤ 2 ^ 35 }
{
    // There are at most 7 levels.
    let _ = schema.levels();
    let mut first = 0;
    for earlier in 0..level {
        first += level_places(schema, spine, earlier);
    }
    first
}

// Where a number stands among rising ones.
fn find(numbers: &[u32], number: u32) -> usize
    requires rise { AllPairs (λ x y. x < y) numbers.now }
    requires there { Contains numbers.now number }
    ensures within { result < length numbers.now }
    ensures is { slice_index numbers.now result ≡ number }
{
    match numbers.binary_search(&number) {
        Ok(index) => index,
        Err(_) => unreachable!(),
    }
}

/// The index of a unit's first place, where so many places stand before those of its level.
pub(crate) fn unit_first(schema: &Schema, spine: &Spine, level_first: u64, unit: u32) -> u64
    requires belong { spine.now.depth ≡ length schema.now.levels }
    requires unit { IsUnit spine.now unit }
    requires level { level_first ≡ before_level schema.now spine.now (level_of spine.now unit) }
    requires few { level_first ≤ 2 ^ 35 }
    ensures { BeginsAt schema.now spine.now unit result }
{
    // There are at most 2^17 units, each of one of the levels.
    let _ = spine.units();
    let level = spine.level(unit);
    let number = find(spine.at_level(level), unit);
    level_first + number as u64 * unit_size(schema, level)
}
