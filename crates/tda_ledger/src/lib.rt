//! The budget ledger of a schema: the share of each query, their exact sum and the total, and the file of these.
#![tactic(auto)]

mod ledger;
mod make;
mod row;
mod write;

pub use ledger::Ledger;
pub use make::make_ledger;
pub use row::LedgerRow;
pub use write::write_ledger;
