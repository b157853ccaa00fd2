//! The document of a schema before its names are looked up: its keys and the types of its values, and the tests of its names,
//! its numbers and what it refers to.
#![tactic(auto)]

mod distinct;
mod document;
mod fault;
mod keys;
mod known;
mod names;
mod origins;
mod raw;
mod sizes;
mod typed;

pub use distinct::is_distinct;
pub use document::written;
pub use fault::DocumentFault;
pub use known::knows_names;
pub use names::has_names;
pub use raw::{RawAttribute, RawLevel, RawListed, RawQuery, RawRecode, RawSchema};
pub use sizes::{attribute_named, has_sizes};
