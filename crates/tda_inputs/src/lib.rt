//! The files that a command reads, each judged before the next is read.
#![tactic(auto)]

mod base;
mod counted;
mod evidence;
mod inputs;
mod noise;
mod reading;
mod refusal;

pub use counted::{Counted, read_counted};
pub use evidence::{Evidence, read_evidence};
pub use inputs::{Inputs, read_inputs};
pub use noise::Noise;
pub use reading::{File, Stop};
pub use refusal::Refusal;
