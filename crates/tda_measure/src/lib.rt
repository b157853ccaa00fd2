//! Measurements of true counts: the sum of each place's class in the table of its unit, plus discrete Gaussian noise of
//! variance 1/share, drawn place after place from one source of words.
#![tactic(auto)]

mod measuring;
mod shares;
mod stop;
mod sums;

pub use measuring::measure;
pub use stop::MeasureStop;
