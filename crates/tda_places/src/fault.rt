// Why a text gives no measurements.
ghost use Rattle.std.specs.Prelude.{◌≡◌};
ghost use Rattle.tda_places.specs.Faults.{fault_of};
ghost use Rattle.tda_places.specs.declared.fault.MeaFault.TheVariants.{NoMemory};

use std::alloc::{AllocError, AllocFailed};
use tda_io::RowFault;
use thiserror::Error;

/// Why a text gave no measurements. Rows are numbered from 1, the header being row 1.
#[derive(Clone, Copy, Debug, PartialEq, Eq, Error)]
pub enum MeaFault {
    /// The first row that has another number of fields than row 1.
    #[error("row {0} has another width")]
    BadRow(u64),
    /// The first row, which is not the header, or is not there.
    #[error("row {0} is not the header")]
    BadHeader(u64),
    /// The first three fields of this row are not those of its place.
    #[error("row {0} has another place")]
    WrongPlace(u64),
    /// The last field of this row is no canonical decimal within 2^31 of 0.
    #[error("row {0} has no number within the limit")]
    BadNumber(u64),
    /// There are fewer rows than places.
    #[error("a place has no row")]
    Missing,
    /// This row comes after the last place.
    #[error("row {0} comes after the last place")]
    TooMany(u64),
    /// There was not enough memory.
    #[error("out of memory")]
    NoMemory,
}

impl From<AllocError> for MeaFault {
    ghost from_gives = { λ _ e. e ≡ NoMemory };

    fn from(_: AllocError) -> Self {
        MeaFault::NoMemory
    }
}

impl<T: Drop> From<AllocFailed<T>> for MeaFault {
    ghost from_gives = { λ _ e. e ≡ NoMemory };

    fn from(_: AllocFailed<T>) -> Self {
        MeaFault::NoMemory
    }
}

impl From<RowFault> for MeaFault {
    ghost from_gives = { λ row_fault fault. fault ≡ fault_of row_fault };

    fn from(fault: RowFault) -> Self {
        match fault {
            RowFault::BadWidth(row) => MeaFault::BadRow(row),
            RowFault::NoMemory => MeaFault::NoMemory,
        }
    }
}
