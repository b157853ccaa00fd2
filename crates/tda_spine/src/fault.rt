// Why a text is no spine.
ghost use Rattle.std.specs.Prelude.{◌≡◌};
ghost use Rattle.tda_spine.specs.declared.fault.SpineFault.TheVariants.{NoMemory};

use std::alloc::{AllocError, AllocFailed};
use tda_io::NoMemory as OutOfMemory;
use thiserror::Error;

/// Why a text gave no spine. Rows are numbered from 1, the header being row 1, and units from 0, in file order.
#[derive(Clone, Copy, Debug, PartialEq, Eq, Error)]
pub enum SpineFault {
    /// The first row that has another number of fields than row 1.
    #[error("row {0} has another width")]
    BadRow(u64),
    /// The first row, which is not the header, or is not there.
    #[error("row {0} is not the header")]
    BadHeader(u64),
    /// The first field of this row is no unit code.
    #[error("row {0} has no unit code")]
    BadCode(u64),
    /// An earlier row has the code of this row.
    #[error("row {0} has the code of an earlier row")]
    Repeated(u64),
    /// This row names a parent that is no row's code.
    #[error("row {0} has an unknown parent")]
    UnknownParent(u64),
    /// The level of this row is none, or does not go with the row's parent.
    #[error("row {0} has a wrong level")]
    WrongLevel(u64),
    /// There is not exactly one unit of the first level.
    #[error("there is not exactly one nation")]
    NoNation,
    /// The first unit above the last level that has no child.
    #[error("unit {0} has no child")]
    Childless(u32),
    /// There are too many units, units times cells, or places.
    #[error("there are too many units, counts or places")]
    TooMany,
    /// The first fit in fit order that has too many nodes or arcs: that of the children of this unit, or, where no unit is
    /// named, that of the nation.
    #[error("a fit is too large")]
    FitTooLarge(Option<u32>),
    /// There was not enough memory.
    #[error("out of memory")]
    NoMemory,
}

impl From<AllocError> for SpineFault {
    ghost from_gives = { λ _ e. e ≡ NoMemory };

    fn from(_: AllocError) -> Self {
        SpineFault::NoMemory
    }
}

impl<T: Drop> From<AllocFailed<T>> for SpineFault {
    ghost from_gives = { λ _ e. e ≡ NoMemory };

    fn from(_: AllocFailed<T>) -> Self {
        SpineFault::NoMemory
    }
}

impl From<OutOfMemory> for SpineFault {
    ghost from_gives = { λ _ e. e ≡ NoMemory };

    fn from(_: OutOfMemory) -> Self {
        SpineFault::NoMemory
    }
}
