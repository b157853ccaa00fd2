//! The texts of faults and of verdicts: why a file isn't accepted, and what an audit found.
#![tactic(auto)]

mod text;
mod verdict;

pub use text::{Named, Plain, push_named, push_plain};
pub use verdict::push_verdict;
