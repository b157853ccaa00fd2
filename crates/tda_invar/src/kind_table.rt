// A number for each unit and kind.
ghost use Rattle.std.specs.Prelude.{◌≡◌, ◌*◌, ◌<◌, ◌≤◌, ◌^◌, All, length, sum_by};
ghost use Rattle.std.specs.List.{range_with_len};
ghost use Rattle.tda_invar.specs.KindTable.{number_at, number_limit, IsChanged};

use std::marker::Model;

/// The first kind, that of households, of which no facility is.
pub(crate) const HOUSEHOLD: u16 = 0;

/// A number from 0 to 2^37 for each unit and kind. Those of a unit stand side by side.
#[derive(Debug, Drop)]
pub(crate) struct KindTable {
    units: usize,
    kinds: u16,
    numbers: Vec<u64>,
}

impl Model for KindTable {
    ghost use Rattle.std.specs.Prelude.{◌≡◌, ◌*◌, ◌≤◌, All, length};
    ghost use Rattle.tda_invar.specs.KindTable.{NumberTable, number_limit};

    ghost Value = { NumberTable };

    ghost view = { λ t. record { units = t.units; kinds = t.kinds; numbers = t.numbers.items } };

    ghost invariant = { λ t. (length t.numbers.items ≡ t.units * t.kinds) × All (λ n. n ≤ number_limit) t.numbers.items };
}

impl KindTable {
    /// The table of these numbers.
    pub(crate) fn new(units: usize, kinds: u16, numbers: Vec<u64>) -> KindTable
        requires size { length numbers.items ≡ units * kinds }
        requires limit { All (λ n. n ≤ number_limit) numbers.items }
        ensures { result ≡ record { units = units; kinds = kinds; numbers = numbers.items } }
    {
        KindTable {
            units,
            kinds,
            numbers,
        }
    }

    /// How many units there are.
    pub(crate) fn units(&self) -> usize
        ensures { result ≡ self.now.units }
    {
        self.units
    }

    /// How many kinds there are.
    pub(crate) fn kinds(&self) -> u16
        ensures { result ≡ self.now.kinds }
    {
        self.kinds
    }

    /// The number of a unit and a kind.
    pub(crate) fn get(&self, unit: u32, kind: u16) -> u64
        requires unit { unit < self.now.units }
        requires kind { kind < self.now.kinds }
        ensures number { result ≡ number_at self.now unit kind }
        ensures limit { result ≤ number_limit }
    {
        self.numbers[unit as usize * usize::from(self.kinds) + usize::from(kind)]
    }

    /// Changes the number of a unit and a kind.
    pub(crate) fn set(&mut self, unit: u32, kind: u16, number: u64)
        requires unit { unit < self.old.units }
        requires kind { kind < self.old.kinds }
        requires limit { number ≤ number_limit }
        ensures { IsChanged self.old self.new unit kind number }
    {
        self.numbers[unit as usize * usize::from(self.kinds) + usize::from(kind)] = number;
    }

    /// The numbers of a kind together, over at most 2^17 units.
    pub(crate) fn sum(&self, units: &[u32], kind: u16) -> u64
        requires units { All (λ u. u < self.now.units) units.now }
        requires few { length units.now ≤ 2 ^ 17 }
        requires kind { kind < self.now.kinds }
        ensures { result ≡ sum_by (λ u. number_at self.now u kind) units.now }
    {
        let mut sum = 0;
        for unit in units {
            sum += self.get(*unit, kind);
        }
        sum
    }

    /// The numbers of a unit together.
    pub(crate) fn row_sum(&self, unit: u32) -> u64
        requires { unit < self.now.units }
        ensures { result ≡ sum_by (number_at self.now unit) (range_with_len 0 self.now.kinds) }
    {
        let mut sum = 0;
        for kind in 0..self.kinds() {
            sum += self.get(unit, kind);
        }
        sum
    }
}
