//! The words of the command line: which command they are, and the values of its names.
#![tactic(auto)]

mod words;

pub use words::{Command, Number, Source, judge, number_of, source_of, value_named, value_of};
