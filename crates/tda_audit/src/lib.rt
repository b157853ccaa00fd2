//! The judge of tables and prices.
#![tactic(auto)]

mod bounds;
mod distance;
mod fits;
mod gives;
mod groups;
mod judge;
mod rules;
mod shares;
mod side;
mod terms;
mod trees;
mod verdict;

pub use distance::deviation;
pub use judge::audit;
pub use verdict::Verdict;
