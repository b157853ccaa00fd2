// What was measured.
ghost use Rattle.std.specs.Prelude.{◌≡◌, ◌<◌, length, pos, slice_index_or};
ghost use Rattle.tda_places.specs.Measurements.{measured_at, AreMeasurementsOf, IsWithinLimit, StandsBeside};
ghost use Rattle.tda_places.specs.Places.{IsPlace};

use crate::Place;
use crate::index::index_of;
use std::marker::Model;
use tda_schema::Schema;
use tda_spine::Spine;

/// A whole number for each place, in the order of the places, each within 2^31 of 0. Eight bytes are kept for each, where
/// they were read or measured.
#[derive(Debug, Drop)]
pub struct Measurements {
    numbers: Vec<i64>,
}

impl Model for Measurements {
    ghost use Rattle.std.specs.Prelude.{ℤ, List};
    ghost use Rattle.tda_places.specs.Measurements.{AreWithinLimit};

    ghost Value = { List ℤ };

    ghost view = { λ m. m.numbers.items };

    ghost invariant = { λ m. AreWithinLimit m.numbers.items };
}

impl Measurements {
    /// The measurements of these numbers, one for each place.
    pub fn from_list(schema: &Schema, spine: &Spine, list: Vec<i64>) -> Measurements
        requires { AreMeasurementsOf schema.now spine.now list.items }
        ensures { result ≡ list.items }
    {
        let _ = schema;
        let _ = spine;
        Measurements { numbers: list }
    }

    // The numbers in order.
    pub(crate) fn numbers(&self) -> &[i64]
        ensures { result.now ≡ self.now }
    {
        &self.numbers
    }

    /// The measurement of the place at an index, within 2^31 of 0.
    pub fn get(&self, index: u64) -> i64
        requires { index < length self.now }
        ensures value { result ≡ slice_index_or self.now index (pos 0) }
        ensures limit { IsWithinLimit result }
    {
        self.numbers[index as usize]
    }

    /// The measurement of a place, within 2^31 of 0.
    pub fn at(&self, schema: &Schema, spine: &Spine, place: Place) -> i64
        requires belong { spine.now.depth ≡ length schema.now.levels }
        requires measured { AreMeasurementsOf schema.now spine.now self.now }
        requires place { IsPlace schema.now spine.now place }
        ensures value { result ≡ measured_at schema.now spine.now self.now place }
        ensures beside { StandsBeside schema.now spine.now self.now place result }
        ensures limit { IsWithinLimit result }
    {
        self.get(index_of(schema, spine, place))
    }
}
