//! Tests of what records come to: true counts, words and noise, measurements, and the tables and ledgers that are written.
#![tactic(auto)]

#[cfg(test)]
mod agreement;
#[cfg(test)]
mod ledger;
#[cfg(test)]
mod measure;
#[cfg(test)]
mod noise;
#[cfg(test)]
mod tables;
#[cfg(test)]
mod true_counts;
#[cfg(test)]
mod words;
