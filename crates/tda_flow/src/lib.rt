//! Nets, circulations and what they cost, prices that show a circulation to be a least one, and what
//! a solver of nets owes.
//!
//! After Ahuja, Magnanti and Orlin, "Network Flows" (1993), sections 9.3 and 14.3.
#![tactic(auto)]

mod balance;
mod judge;
mod lanes;
mod links;
mod net;
mod search;
mod solver;
mod terms;
mod walk;
mod work;

pub use balance::is_circulation;
pub use judge::{BadArc, Side, certified};
pub use net::{Arc, Net, Term, Turn};
pub use solver::Solver;
pub use terms::step_cost;
pub use walk::move_along;
pub use work::{Work, reach};
