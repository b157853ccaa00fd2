//! The files of a demonstration: a schema, a spine of a size, its facilities, and persons that a number's words make.
#![tactic(auto)]

mod codes;
mod facility_rows;
mod files;
mod person;
mod person_rows;
mod schema;
mod spine_rows;
mod taking;
#[cfg(test)]
mod tests;

pub use files::{DemoFiles, demo_files};
