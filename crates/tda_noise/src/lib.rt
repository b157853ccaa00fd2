//! Exact samplers: uniform numbers, coins of chance e^-x, and discrete Laplace and Gaussian numbers, each drawn
//! from single 32-bit words (Canonne, Kamath and Steinke, "The Discrete Gaussian for Differential Privacy",
//! 2020). No call takes memory. That the words are random, and how the draws are then distributed, is not proved.
#![tactic(auto)]

mod coins;
mod discrete_gaussian;
mod discrete_laplace;
mod draw;
mod uniform;

pub use coins::{coin, exp_coin};
pub use discrete_gaussian::gaussian;
pub use discrete_laplace::laplace;
pub use draw::Draw;
pub use uniform::uniform_below;
