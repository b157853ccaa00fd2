//! The records: for each person the block and the cell, read from a file and judged.
#![tactic(auto)]

mod fault;
mod judge;
mod reader;
mod records;

pub use fault::RecFault;
pub use reader::read_records;
pub use records::Records;
