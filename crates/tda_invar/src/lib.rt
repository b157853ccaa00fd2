//! What is published exactly: facilities in blocks, totals of states, and the bounds that they give each unit.
#![tactic(auto)]

mod fac_fault;
mod facilities;
mod facilities_reader;
mod fields;
mod invariants;
mod join_fault;
mod joining;
mod kind_table;
mod lows;
mod tot_fault;
mod totals;
mod totals_reader;
mod totals_writer;

pub use fac_fault::FacFault;
pub use facilities::Facilities;
pub use facilities_reader::read_facilities;
pub use invariants::Invariants;
pub use join_fault::JoinFault;
pub use joining::join;
pub use tot_fault::TotFault;
pub use totals::Totals;
pub use totals_reader::read_totals;
pub use totals_writer::write_totals;
