//! A guess of the prices of a split, from its net alone.
//!
//! The trees of groups answer the prices of the cells by their linear response, for a few rounds, in whole
//! numbers. A wrong guess costs a solver time and never a table: nothing but ranges is claimed.
#![tactic(auto)]

mod answer;
mod level;
mod numbers;
mod prices;
mod shape;
mod state;

pub use prices::guess;
