//! Tests of the files of prices and of tables: which texts they are, what is wrong with any other, and that they are written as
//! they were read.
#![tactic(auto)]

#[cfg(test)]
mod files;
