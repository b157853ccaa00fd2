// Totals of states.
ghost use Rattle.std.specs.Prelude.{◌≡◌, ◌<◌, ◌≤◌, length, slice_index};
ghost use Rattle.tda_model.specs.Bounds.{persons_limit};
ghost use Rattle.tda_model.specs.Spine.{IsUnit, level_of, units_at};
ghost use Rattle.tda_spine.specs.Sound.{IsSound};
ghost use Rattle.tda_invar.specs.Totals.{AreTotalsOf, total_of};

use std::marker::Model;
use tda_spine::Spine;

/// The level of the states.
pub(crate) const STATES: usize = 1;

/// How many persons live in each state: one number for each, in file order, together at most 2^30.
#[derive(Debug, Drop)]
pub struct Totals {
    numbers: Vec<u64>,
}

impl Model for Totals {
    ghost use Rattle.std.specs.Prelude.{◌≤◌, ℕ, List, sum};
    ghost use Rattle.tda_model.specs.Bounds.{persons_limit};

    ghost Value = { List ℕ };

    ghost view = { λ t. t.numbers.items };

    ghost invariant = { λ t. sum t.numbers.items ≤ persons_limit };
}

impl Totals {
    /// The totals of these numbers, one for each state of the spine in file order.
    pub fn from_list(spine: &Spine, list: Vec<u64>) -> Totals
        requires { AreTotalsOf spine.now list.items }
        ensures { result ≡ list.items }
    {
        let _ = spine;
        Totals { numbers: list }
    }

    /// The number of a state by its place among the states, from 0.
    pub(crate) fn nth(&self, place: usize) -> u64
        requires { place < length self.now }
        ensures number { result ≡ slice_index self.now place }
        ensures limit { result ≤ persons_limit }
    {
        self.numbers[place]
    }

    /// The total of a state, at most 2^30 persons.
    pub fn get(&self, spine: &Spine, state: u32) -> u64
        requires totals { AreTotalsOf spine.now self.now }
        requires state { IsUnit spine.now state }
        requires level { level_of spine.now state ≡ 1 }
        ensures total { result ≡ total_of spine.now self.now state }
        ensures limit { result ≤ persons_limit }
    {
        // There is a level of states.
        let _ = spine.units();
        match spine.at_level(STATES).binary_search(&state) {
            Ok(place) => self.nth(place),
            Err(_) => unreachable!(),
        }
    }
}
