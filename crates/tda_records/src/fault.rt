// Why a text gives no records.
ghost use Rattle.std.specs.Prelude.{◌≡◌};
ghost use Rattle.tda_records.specs.Faults.{fault_of};
ghost use Rattle.tda_records.specs.declared.fault.RecFault.TheVariants.{NoMemory};

use std::alloc::{AllocError, AllocFailed};
use tda_io::RowFault;
use thiserror::Error;

/// Why a text gave no records. Rows are numbered from 1, the header being row 1.
#[derive(Clone, Copy, Debug, PartialEq, Eq, Error)]
pub enum RecFault {
    /// The first row that has another number of fields than row 1.
    #[error("row {0} has another width")]
    BadRow(u64),
    /// The first row, which is not the header, or is not there.
    #[error("row {0} is not the header")]
    BadHeader(u64),
    /// The first field of this row is no block's code.
    #[error("row {0} has an unknown block")]
    UnknownBlock(u64),
    /// A further field of this row is no value of its attribute.
    #[error("row {0} has an unknown value")]
    UnknownValue(u64),
    /// The values of this row are those of a cell that is not possible.
    #[error("row {0} has an impossible cell")]
    ImpossibleCell(u64),
    /// There was not enough memory.
    #[error("out of memory")]
    NoMemory,
}

impl From<AllocError> for RecFault {
    ghost from_gives = { λ _ e. e ≡ NoMemory };

    fn from(_: AllocError) -> Self {
        RecFault::NoMemory
    }
}

impl<T: Drop> From<AllocFailed<T>> for RecFault {
    ghost from_gives = { λ _ e. e ≡ NoMemory };

    fn from(_: AllocFailed<T>) -> Self {
        RecFault::NoMemory
    }
}

impl From<RowFault> for RecFault {
    ghost from_gives = { λ row_fault fault. fault ≡ fault_of row_fault };

    fn from(fault: RowFault) -> Self {
        match fault {
            RowFault::BadWidth(row) => RecFault::BadRow(row),
            RowFault::NoMemory => RecFault::NoMemory,
        }
    }
}
