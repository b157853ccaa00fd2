//! Exact fractions of 64-bit numbers in lowest terms: reading, adding, comparing and writing them,
//! and least common multiples for their denominators.
#![tactic(auto)]

mod frac;
mod memory;
mod text;
mod whole;

pub use frac::Frac;
pub use memory::NoMemory;
pub use whole::lcm;
