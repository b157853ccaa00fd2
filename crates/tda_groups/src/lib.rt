//! The groups of a level as a tree: sets of possible cells, each with the least one that holds it.
#![tactic(auto)]

mod cell_set;
mod chains;
mod group_tree;
mod order;
mod sources;

pub use group_tree::{GroupTree, tree};
