//! The places of a release: for each unit, each query of its level and each class of the query; and what was measured there.
#![tactic(auto)]

mod fault;
mod index;
mod judge;
mod measurements;
mod place;
mod reader;
mod spot;
mod writer;

pub use fault::MeaFault;
pub use measurements::Measurements;
pub use place::{Place, count, place_at};
pub use reader::read_measurements;
pub use writer::write_measurements;
