//! Tests of losses, of nets and their prices, and of the solver of nets.
#![tactic(auto)]

#[cfg(test)]
mod cancel;
#[cfg(test)]
mod judge;
#[cfg(test)]
mod loss;
#[cfg(test)]
mod reach;
