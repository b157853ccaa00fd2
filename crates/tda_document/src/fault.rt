// Why a document is no written schema.
ghost use Rattle.std.specs.Prelude.{◌≡◌};
ghost use Rattle.tda_document.specs.declared.fault.DocumentFault.TheVariants.{NoMemory};

use std::alloc::{AllocError, AllocFailed};
use thiserror::Error;

/// Why a document is no written schema. Of the faults that hold, the first in this order is the document's; want of memory
/// may stand in place of any answer.
#[derive(Clone, Copy, Debug, PartialEq, Eq, Error)]
pub enum DocumentFault {
    /// The top table, or one of an attribute, recode, level or query, has a key that isn't listed.
    #[error("a key that isn't listed")]
    UnknownKey,
    /// Such a table lacks a required key.
    #[error("a required key is missing")]
    MissingKey,
    /// A value isn't of its type, or the version isn't the integer 1.
    #[error("a value of another type")]
    WrongType,
    /// There was not enough memory.
    #[error("out of memory")]
    NoMemory,
}

impl From<AllocError> for DocumentFault {
    ghost from_gives = { λ _ e. e ≡ NoMemory };

    fn from(_: AllocError) -> Self {
        DocumentFault::NoMemory
    }
}

impl<T: Drop> From<AllocFailed<T>> for DocumentFault {
    ghost from_gives = { λ _ e. e ≡ NoMemory };

    fn from(_: AllocFailed<T>) -> Self {
        DocumentFault::NoMemory
    }
}
