//! Families of disjoint sets of numbers: their sets, whether these are nested, and how many different ones there are.
#![tactic(auto)]

mod counted;
mod family;
mod nested;

pub use counted::count_sets;
pub use family::Family;
pub use nested::{all_are_nested, are_nested};
