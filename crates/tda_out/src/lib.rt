//! Tables of counts, and the file that they are written to.
#![tactic(auto)]

mod tables;
mod tables_writer;

pub use tables::Tables;
pub use tables_writer::{write_tables, write_tables_header};
