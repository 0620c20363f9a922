//! The dealer: draws the parts of all parties from a seed.
#![tactic(auto)]

mod dealing;
mod draws;
mod rows;

pub use dealing::deal;
