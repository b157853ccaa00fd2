//! The files of a release: tables that are least at each fit, and prices that show it.
#![tactic(auto)]

mod release;

pub use release::{Texts, release_texts};
