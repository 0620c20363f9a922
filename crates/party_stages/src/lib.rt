//! The stages of one party's run of a plan: which may run, how they run side by side, and what is kept of them. Whatever
//! the party is still sent, what it has so far is what the equations give.
#![tactic(auto)]

mod brought;
mod ran;
mod ready;
mod scene;
mod stages;

pub use brought::Brought;
pub use ran::Ran;
pub use ready::run_ready;
pub use scene::{Found, look, need_of, run_one};
pub use stages::Stages;
