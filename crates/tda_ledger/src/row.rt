// A row of a ledger.
use tda_frac::Frac;

/// What is spent on a query: its share, and the numbers of its level and of it among the level's queries, each from 0.
#[derive(Clone, Copy, Debug, PartialEq, Eq)]
pub struct LedgerRow {
    pub level: usize,
    pub query: usize,
    pub share: Frac,
}
