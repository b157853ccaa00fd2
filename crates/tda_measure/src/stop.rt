// Why nothing was measured.
ghost use Rattle.std.specs.Prelude.{◌≡◌};
ghost use Rattle.tda_measure.specs.declared.stop.MeasureStop.TheVariants.{NoMemory};

use std::alloc::{AllocError, AllocFailed};
use thiserror::Error;

/// Why there are no measurements. Places are numbered from 0, in their order.
#[derive(Clone, Copy, Debug, PartialEq, Eq, Error)]
pub enum MeasureStop {
    /// The words end before the number of this place.
    #[error("the words end at place {0}")]
    OutOfWords(u64),
    /// The draw of this place passed 2^30, with this magnitude.
    #[error("the draw of place {0} passed the limit with {1}")]
    TooLarge(u64, i64),
    /// There was not enough memory.
    #[error("out of memory")]
    NoMemory,
}

impl From<AllocError> for MeasureStop {
    ghost from_gives = { λ _ e. e ≡ NoMemory };

    fn from(_: AllocError) -> Self {
        MeasureStop::NoMemory
    }
}

impl<T: Drop> From<AllocFailed<T>> for MeasureStop {
    ghost from_gives = { λ _ e. e ≡ NoMemory };

    fn from(_: AllocFailed<T>) -> Self {
        MeasureStop::NoMemory
    }
}
