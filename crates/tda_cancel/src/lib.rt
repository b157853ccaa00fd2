//! A solver of nets by closed walks of negative cost, for every curve.
//!
//! After Ahuja, Magnanti and Orlin, "Network Flows" (1993), sections 5.5 and 9.6, with the unit steps
//! of a convex cost of section 14.3.
#![tactic(auto)]

mod cancel;
mod rows;
mod steps;
mod tables;
mod trace;

pub use cancel::Cancel;
