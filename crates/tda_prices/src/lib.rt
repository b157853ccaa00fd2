//! The prices of all fits with the file of them, and the file of tables as it is read.
#![tactic(auto)]

mod count;
mod counted;
mod fault;
mod judge;
mod place;
mod prices;
mod ranks;
mod reader;
mod tables;
mod writer;

pub use count::price_count;
pub use fault::{PriFault, TabFault};
pub use prices::Prices;
pub use reader::read_prices;
pub use tables::read_tables;
pub use writer::{write_prices, write_prices_header};
