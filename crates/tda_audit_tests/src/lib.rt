//! Tests of the audit: which condition it names first, of tables and prices of four nations.
#![tactic(auto)]

#[cfg(test)]
mod verdicts;
