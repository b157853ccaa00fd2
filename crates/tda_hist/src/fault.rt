// Why persons and facilities don't agree.
use thiserror::Error;

/// Why the persons of a block don't agree with its facilities. Blocks are numbered among the units, which are numbered
/// from 0 in file order, kinds from 0.
#[derive(Clone, Copy, Debug, PartialEq, Eq, Error)]
pub enum HistFault {
    /// Persons of a kind of quarters live in a block in which no facility of the kind stands.
    #[error("block {block} has persons of kind {kind} and no facility of it")]
    NoFacility {
        block: u32,
        kind: u16,
    },
    /// Fewer persons of a kind live in a block than facilities of the kind stand there: how many were found, and how many
    /// are needed, more than that and at most 2^20.
    #[error("block {block} has {found} persons of kind {kind} and needs {needed}")]
    Short {
        block: u32,
        kind: u16,
        found: u64,
        needed: u64,
    },
}
