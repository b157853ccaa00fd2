// The ledger as a value.
ghost use Rattle.std.specs.Prelude.{◌≡◌, ◌<◌, length, Some, slice_get};
ghost use Rattle.tda_frac.specs.Fraction.{IsAtMost};

use crate::LedgerRow;
use std::marker::Model;
use tda_frac::Frac;

/// What a release spends: a row for each query, in the order level, query; the exact sum of all shares; and the total
/// that they may come to.
#[derive(Debug, Drop)]
pub struct Ledger {
    pub(crate) rows: Vec<LedgerRow>,
    pub(crate) spent: Frac,
    pub(crate) total: Frac,
}

impl Model for Ledger {
    ghost use Rattle.tda_frac.specs.Fraction.{IsAtMost};
    ghost use Rattle.tda_ledger.specs.Ledger as spec;

    ghost Value = { spec.Ledger };

    ghost view = { λ l. record { rows = l.rows.items; spent = l.spent; total = l.total } };

    ghost invariant = { λ l. IsAtMost l.spent l.total };
}

impl Ledger {
    /// How many rows there are: one for each query of each level, so at most 56.
    pub fn len(&self) -> usize
        ensures { result ≡ length self.now.rows }
    {
        self.rows.len()
    }

    /// A row, by its number from 0.
    pub fn row(&self, i: usize) -> LedgerRow
        requires { i < length self.now.rows }
        ensures { slice_get self.now.rows i ≡ Some result }
    {
        self.rows[i]
    }

    /// The exact sum of all shares, which is at most the total.
    pub fn spent(&self) -> Frac
        ensures value { result ≡ self.now.spent }
        ensures within { IsAtMost result self.now.total }
    {
        self.spent
    }

    /// The most that all shares together may be.
    pub fn total(&self) -> Frac
        ensures { result ≡ self.now.total }
    {
        self.total
    }
}
