//! Correlations of one stock are handed out to jobs that run in several threads: each once, and
//! without a lock.
#![tactic(auto)]

mod asks;
mod claims;
mod counter;
mod laws;
mod place;

pub use asks::{Grant, Range};
pub use claims::{ClaimSeat, Claims};
pub use laws::{asks_are_lawful_at_every_moment, lawful_asks_do_not_meet};
