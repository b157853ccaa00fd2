// The records that were read.
ghost use Rattle.std.specs.Prelude.{◌≡◌, ◌<◌, length, slice_index_or};
ghost use Rattle.tda_records.specs.Records.{block_at, cell_at};

use std::marker::Model;

// One person: the block that the person lives in, and the cell of the person's values.
#[derive(Clone, Copy, Debug, PartialEq, Eq)]
pub(crate) struct Record {
    pub(crate) block: u32,
    pub(crate) cell: u32,
}

/// For each person a block, which is a unit of the last level, and a possible cell, in the order of the file. Records are
/// numbered from 0. Each takes 8 bytes in a list that grows as they are read, so that part of the list may be empty.
#[derive(Debug, Drop)]
pub struct Records {
    records: Vec<Record>,
}

impl Model for Records {
    ghost use Rattle.std.specs.Prelude.{List};
    ghost use Rattle.tda_records.specs.declared.records.Record.{Record};

    ghost Value = { List Record };

    ghost view = { λ r. r.records.items };
}

impl Records {
    pub(crate) fn new(records: Vec<Record>) -> Records
        ensures { result ≡ records.items }
    {
        Records { records }
    }

    /// How many records there are. `read_records` ensures that there are at most 2^26.
    pub fn len(&self) -> usize
        ensures { result ≡ length self.now }
    {
        self.records.len()
    }

    /// The block of a record.
    pub fn block(&self, i: usize) -> u32
        requires { i < length self.now }
        ensures { result ≡ block_at self.now i }
    {
        self.records[i].block
    }

    /// The cell of a record.
    pub fn cell(&self, i: usize) -> u32
        requires { i < length self.now }
        ensures { result ≡ cell_at self.now i }
    {
        self.records[i].cell
    }
}
