// Why facilities and totals don't go together.
ghost use Rattle.std.specs.Prelude.{◌≡◌};
ghost use Rattle.tda_invar.specs.declared.join_fault.JoinFault.TheVariants.{NoMemory};

use std::alloc::{AllocError, AllocFailed};
use tda_io::NoMemory as OutOfMemory;
use thiserror::Error;

/// Why facilities and totals don't go together.
#[derive(Clone, Copy, Debug, PartialEq, Eq, Error)]
pub enum JoinFault {
    /// The first state whose total is below the sum of its facilities of all kinds: its number among the units, which are
    /// numbered from 0 in file order, its total, from 0 to 2^30 persons, and how many persons its facilities need, more
    /// than that and below 2^44.
    #[error("state {state} has {total} persons and needs {needed}")]
    Short { state: u32, total: u64, needed: u64 },
    /// There was not enough memory.
    #[error("out of memory")]
    NoMemory,
}

impl From<AllocError> for JoinFault {
    ghost from_gives = { λ _ e. e ≡ NoMemory };

    fn from(_: AllocError) -> Self {
        JoinFault::NoMemory
    }
}

impl<T: Drop> From<AllocFailed<T>> for JoinFault {
    ghost from_gives = { λ _ e. e ≡ NoMemory };

    fn from(_: AllocFailed<T>) -> Self {
        JoinFault::NoMemory
    }
}

impl From<OutOfMemory> for JoinFault {
    ghost from_gives = { λ _ e. e ≡ NoMemory };

    fn from(_: OutOfMemory) -> Self {
        JoinFault::NoMemory
    }
}
