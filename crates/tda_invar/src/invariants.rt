// The bounds of units.
ghost use Rattle.std.specs.Prelude.{◌≡◌, ◌==◌, ◌<◌, ◌≤◌, ◌||◌, not, if◌then◌else◌, All, IfSome, Option, length, slice_index_or, None, Some};
ghost use Rattle.tda_model.specs.Schema as model_schema;
ghost use Rattle.tda_model.specs.Spine as model;
ghost use Rattle.tda_model.specs.Spine.{IsUnit};
ghost use Rattle.tda_model.specs.Groups.{kind_count};
ghost use Rattle.tda_model.specs.Bounds.{low, high, persons_limit};
ghost use Rattle.tda_invar.specs.KindTable.{number_at};
ghost use Rattle.tda_invar.specs.Known.{known_of, unit_total, IsJoined};

use crate::kind_table::{HOUSEHOLD, KindTable};
use crate::{Facilities, Totals};
use std::marker::Model;
use tda_io::PERSONS;

/// What is published exactly, for each unit: how many persons of each kind it has at least and at most, and a state's
/// total.
#[derive(Debug, Drop)]
pub struct Invariants {
    facilities: Facilities,
    totals: Totals,
    lows: KindTable,
    unit_totals: Vec<Option<u64>>,
}

impl Model for Invariants {
    ghost use Rattle.std.specs.Prelude.{◌≤◌, All};
    ghost use Rattle.tda_model.specs.Bounds.{persons_limit};
    ghost use Rattle.tda_invar.specs.Known.{JoinedLists};

    ghost Value = { JoinedLists };

    ghost view = { λ i. record { facilities = i.facilities; totals = i.totals; lows = i.lows; unit_totals = i.unit_totals.items } };

    ghost invariant = { λ i. All (λ n. n ≤ persons_limit) i.lows.numbers };
}

impl Invariants {
    // What is published, with the least persons of each unit and kind, and each unit's total where it is a state.
    pub(crate) fn new(
        facilities: Facilities,
        totals: Totals,
        lows: KindTable,
        unit_totals: Vec<Option<u64>>,
    ) -> Invariants
        requires { All (λ n. n ≤ persons_limit) lows.numbers }
        ensures { result ≡ record { facilities = facilities; totals = totals; lows = lows; unit_totals = unit_totals.items } }
    {
        Invariants {
            facilities,
            totals,
            lows,
            unit_totals,
        }
    }

    /// How many persons of a kind a unit has at least: the sum of the facilities of its blocks, and 0 for the first kind.
    /// At most 2^30, and at most what `high` answers.
    pub fn low(&self, unit: u32, kind: u16) -> u64
        requires unit { unit < self.now.lows.units }
        requires kind { kind < self.now.lows.kinds }
        ensures number { result ≡ number_at self.now.lows unit kind }
        ensures low { (s : model_schema.Schema) (sp : model.Spine) → IsJoined s sp self.now → result ≡ low sp (known_of sp self.now) unit kind }
        ensures limit { result ≤ persons_limit }
    {
        self.lows.get(unit, kind)
    }

    /// How many persons of a kind a unit has at most: nobody where no block of the unit has a facility of the kind, and
    /// else, and for the first kind, 2^30, as many as there may be.
    pub fn high(&self, unit: u32, kind: u16) -> u64
        requires unit { unit < self.now.lows.units }
        requires kind { kind < self.now.lows.kinds }
        ensures number { result ≡ (if (kind == 0) || not (number_at self.now.lows unit kind == 0) then persons_limit else 0) }
        ensures high { (s : model_schema.Schema) (sp : model.Spine) → IsJoined s sp self.now → result ≡ high sp (known_of sp self.now) unit kind }
        ensures least { number_at self.now.lows unit kind ≤ result }
        ensures limit { result ≤ persons_limit }
    {
        let low = self.low(unit, kind);
        if kind != HOUSEHOLD && low == 0 {
            0
        } else {
            PERSONS
        }
    }

    /// How many persons a state has, at most 2^30, and None for a unit that is no state.
    pub fn total(&self, unit: u32) -> Option<u64>
        requires unit { unit < length self.now.unit_totals }
        ensures number { result ≡ slice_index_or self.now.unit_totals unit None }
        ensures total { (s : model_schema.Schema) (sp : model.Spine) → IsJoined s sp self.now → result ≡ unit_total sp (known_of sp self.now) unit }
        ensures limit { (s : model_schema.Schema) (sp : model.Spine) → IsJoined s sp self.now → IfSome result (λ n. n ≤ persons_limit) }
    {
        self.unit_totals[unit as usize]
    }
}
