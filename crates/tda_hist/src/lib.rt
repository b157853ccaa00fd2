//! True counts: how many persons live in each unit with each cell, their totals and sums, whether they agree with the
//! facilities, and how far apart two lists of records are.
#![tactic(auto)]

mod agreement;
mod counting;
mod distance;
mod fault;
mod sums;

pub use agreement::agree;
pub use counting::count;
pub use distance::square_distance;
pub use fault::HistFault;
pub use sums::{class_sum, state_totals};
