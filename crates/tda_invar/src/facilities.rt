// Facilities in blocks.
ghost use Rattle.std.specs.Prelude.{◌≡◌, ◌<◌, ◌≤◌, All};
ghost use Rattle.tda_invar.specs.KindTable.{number_at};
ghost use Rattle.tda_invar.specs.Facilities.{facilities_limit};

use crate::kind_table::KindTable;
use std::marker::Model;

/// How many facilities of each kind stand in each block, at most 2^20 of one kind in one block. Blocks are units of the
/// last level, and the kinds are the values of the first attribute.
#[derive(Debug, Drop)]
pub struct Facilities {
    table: KindTable,
}

impl Model for Facilities {
    ghost use Rattle.std.specs.Prelude.{◌≤◌, All};
    ghost use Rattle.tda_invar.specs.KindTable.{NumberTable};
    ghost use Rattle.tda_invar.specs.Facilities.{facilities_limit};

    ghost Value = { NumberTable };

    ghost view = { λ f. f.table };

    ghost invariant = { λ f. All (λ n. n ≤ facilities_limit) f.table.numbers };
}

impl Facilities {
    // The facilities of a table.
    pub(crate) fn new(table: KindTable) -> Facilities
        requires { All (λ n. n ≤ facilities_limit) table.numbers }
        ensures { result ≡ table }
    {
        Facilities { table }
    }

    /// How many facilities of a kind stand in a block, at most 2^20: 0 where no row names them.
    pub fn get(&self, block: u32, kind: u16) -> u64
        requires block { block < self.now.units }
        requires kind { kind < self.now.kinds }
        ensures count { result ≡ number_at self.now block kind }
        ensures limit { result ≤ facilities_limit }
    {
        self.table.get(block, kind)
    }

    // The table of the facilities.
    pub(crate) fn table(&self) -> &KindTable
        ensures table { result.now ≡ self.now }
        ensures limit { All (λ n. n ≤ facilities_limit) self.now.numbers }
    {
        &self.table
    }
}
