// Why a text gives no totals.
ghost use Rattle.std.specs.Prelude.{◌≡◌};
ghost use Rattle.tda_invar.specs.declared.tot_fault.TotFault.TheVariants.{NoMemory};

use std::alloc::{AllocError, AllocFailed};
use tda_io::NoMemory as OutOfMemory;
use thiserror::Error;

/// Why a text gave no totals. Rows are numbered from 1, the header being row 1, and units from 0, in file order.
#[derive(Clone, Copy, Debug, PartialEq, Eq, Error)]
pub enum TotFault {
    /// The first row that has another number of fields than row 1.
    #[error("row {0} has another width")]
    BadRow(u64),
    /// The first row, which is not the header, or is not there.
    #[error("row {0} is not the header")]
    BadHeader(u64),
    /// The first field of this row is no state's code.
    #[error("row {0} has an unknown state")]
    UnknownState(u64),
    /// An earlier row has the state of this row.
    #[error("row {0} has the state of an earlier row")]
    Repeated(u64),
    /// The first state that has no row.
    #[error("state {0} has no row")]
    Missing(u32),
    /// The second field of this row is no canonical decimal from 0 to 2^30.
    #[error("row {0} has a bad count")]
    BadCount(u64),
    /// All totals together are above 2^30.
    #[error("there are too many persons")]
    TooManyPersons,
    /// There was not enough memory.
    #[error("out of memory")]
    NoMemory,
}

impl From<AllocError> for TotFault {
    ghost from_gives = { λ _ e. e ≡ NoMemory };

    fn from(_: AllocError) -> Self {
        TotFault::NoMemory
    }
}

impl<T: Drop> From<AllocFailed<T>> for TotFault {
    ghost from_gives = { λ _ e. e ≡ NoMemory };

    fn from(_: AllocFailed<T>) -> Self {
        TotFault::NoMemory
    }
}

impl From<OutOfMemory> for TotFault {
    ghost from_gives = { λ _ e. e ≡ NoMemory };

    fn from(_: OutOfMemory) -> Self {
        TotFault::NoMemory
    }
}
