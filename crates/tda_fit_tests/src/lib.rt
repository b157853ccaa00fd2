//! Tests of the networks of fits.
#![tactic(auto)]

#[cfg(test)]
mod nations;
#[cfg(test)]
mod nets;
#[cfg(test)]
mod starts;
