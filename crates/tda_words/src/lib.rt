//! The 32-bit words that random draws are made of: from a file's bytes, or from a seed by ChaCha20.
#![tactic(auto)]

mod list_words;
mod seed_words;
mod words;

pub use list_words::ListWords;
pub use seed_words::SeedWords;
pub use words::Words;
