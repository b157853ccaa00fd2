//! Each demo's files are accepted: the laws of the demo as contracts, and what the readers give of its files.
#![tactic(auto)]

mod inputs;
mod law;
mod reading;
#[cfg(test)]
mod tests;

pub use inputs::{DemoInputs, demo_inputs};
pub use law::demo_is_accepted;
