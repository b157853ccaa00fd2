//! Tests of the readers: which texts are schemas, spines and the other files, and which fault any other text has.
#![tactic(auto)]

#[cfg(test)]
mod documents;
#[cfg(test)]
mod facilities;
#[cfg(test)]
mod fractions;
#[cfg(test)]
mod groups;
#[cfg(test)]
mod invariants;
#[cfg(test)]
mod outside;
#[cfg(test)]
mod places;
#[cfg(test)]
mod records;
#[cfg(test)]
mod schema;
#[cfg(test)]
mod sets;
#[cfg(test)]
mod spine;
#[cfg(test)]
mod totals;
