// What can be wrong with a file of prices, or of tables.
ghost use Rattle.std.specs.Prelude.{◌≡◌};
ghost use Rattle.tda_prices.specs.Faults.{of_prices, of_tables};
ghost use Rattle.tda_prices.specs.declared.fault.PriFault.TheVariants as prices_fault;
ghost use Rattle.tda_prices.specs.declared.fault.TabFault.TheVariants as tables_fault;

use std::alloc::{AllocError, AllocFailed};
use tda_io::{NoMemory, RowFault};
use thiserror::Error;

/// Why a text gave no prices. Rows are numbered from 1, the header being row 1.
#[derive(Clone, Copy, Debug, PartialEq, Eq, Error)]
pub enum PriFault {
    /// The first row that has another number of fields than row 1.
    #[error("row {0} has another width")]
    BadRow(u64),
    /// The first row, which is not the header, or is not there.
    #[error("row {0} is not the header")]
    BadHeader(u64),
    /// The first four fields of this row are not those of its place.
    #[error("row {0} has another place")]
    WrongPlace(u64),
    /// The last field of this row is no canonical decimal within 2^96 of 0.
    #[error("row {0} has no number within the limit")]
    BadNumber(u64),
    /// There are fewer rows than places.
    #[error("a place has no row")]
    Missing,
    /// This row comes after the last place.
    #[error("row {0} comes after the last place")]
    TooMany(u64),
    /// There was not enough memory.
    #[error("out of memory")]
    NoMemory,
}

impl From<AllocError> for PriFault {
    ghost from_gives = { λ _ e. e ≡ prices_fault.NoMemory };

    fn from(_: AllocError) -> Self {
        PriFault::NoMemory
    }
}

impl<T: Drop> From<AllocFailed<T>> for PriFault {
    ghost from_gives = { λ _ e. e ≡ prices_fault.NoMemory };

    fn from(_: AllocFailed<T>) -> Self {
        PriFault::NoMemory
    }
}

impl From<RowFault> for PriFault {
    ghost from_gives = { λ row_fault fault. fault ≡ of_prices row_fault };

    fn from(fault: RowFault) -> Self {
        match fault {
            RowFault::BadWidth(row) => PriFault::BadRow(row),
            RowFault::NoMemory => PriFault::NoMemory,
        }
    }
}

/// Why a text gave no tables. Rows are numbered from 1, the header being row 1.
#[derive(Clone, Copy, Debug, PartialEq, Eq, Error)]
pub enum TabFault {
    /// The first row that has another number of fields than row 1.
    #[error("row {0} has another width")]
    BadRow(u64),
    /// The first row, which is not the header, or is not there.
    #[error("row {0} is not the header")]
    BadHeader(u64),
    /// This row names no unit and cell, or ones that don't come after those of the row before.
    #[error("row {0} has another place")]
    WrongPlace(u64),
    /// The last field of this row is no canonical decimal from 1 to 2^30.
    #[error("row {0} has no count within the limit")]
    BadNumber(u64),
    /// There was not enough memory.
    #[error("out of memory")]
    NoMemory,
}

impl From<AllocError> for TabFault {
    ghost from_gives = { λ _ e. e ≡ tables_fault.NoMemory };

    fn from(_: AllocError) -> Self {
        TabFault::NoMemory
    }
}

impl<T: Drop> From<AllocFailed<T>> for TabFault {
    ghost from_gives = { λ _ e. e ≡ tables_fault.NoMemory };

    fn from(_: AllocFailed<T>) -> Self {
        TabFault::NoMemory
    }
}

impl From<NoMemory> for TabFault {
    ghost from_gives = { λ _ e. e ≡ tables_fault.NoMemory };

    fn from(_: NoMemory) -> Self {
        TabFault::NoMemory
    }
}

impl From<RowFault> for TabFault {
    ghost from_gives = { λ row_fault fault. fault ≡ of_tables row_fault };

    fn from(fault: RowFault) -> Self {
        match fault {
            RowFault::BadWidth(row) => TabFault::BadRow(row),
            RowFault::NoMemory => TabFault::NoMemory,
        }
    }
}
