// Why a text gives no facilities.
ghost use Rattle.std.specs.Prelude.{◌≡◌};
ghost use Rattle.tda_invar.specs.declared.fac_fault.FacFault.TheVariants.{NoMemory};

use std::alloc::{AllocError, AllocFailed};
use tda_io::NoMemory as OutOfMemory;
use thiserror::Error;

/// Why a text gave no facilities. Rows are numbered from 1, the header being row 1.
#[derive(Clone, Copy, Debug, PartialEq, Eq, Error)]
pub enum FacFault {
    /// The first row that has another number of fields than row 1.
    #[error("row {0} has another width")]
    BadRow(u64),
    /// The first row, which is not the header, or is not there.
    #[error("row {0} is not the header")]
    BadHeader(u64),
    /// The first field of this row is no block's code.
    #[error("row {0} has an unknown block")]
    UnknownBlock(u64),
    /// The second field of this row is no kind's name.
    #[error("row {0} has an unknown kind")]
    UnknownKind(u64),
    /// The kind of this row is the first, that of households.
    #[error("row {0} has facilities of households")]
    Household(u64),
    /// The third field of this row is no canonical decimal from 0 to 2^20.
    #[error("row {0} has a bad count")]
    BadCount(u64),
    /// An earlier row has the block and the kind of this row.
    #[error("row {0} has the block and kind of an earlier row")]
    Repeated(u64),
    /// There was not enough memory.
    #[error("out of memory")]
    NoMemory,
}

impl From<AllocError> for FacFault {
    ghost from_gives = { λ _ e. e ≡ NoMemory };

    fn from(_: AllocError) -> Self {
        FacFault::NoMemory
    }
}

impl<T: Drop> From<AllocFailed<T>> for FacFault {
    ghost from_gives = { λ _ e. e ≡ NoMemory };

    fn from(_: AllocFailed<T>) -> Self {
        FacFault::NoMemory
    }
}

impl From<OutOfMemory> for FacFault {
    ghost from_gives = { λ _ e. e ≡ NoMemory };

    fn from(_: OutOfMemory) -> Self {
        FacFault::NoMemory
    }
}
