//! Items of a graph that are run with values on the edges between them: each item takes the values of the edges that
//! end there and gives those of the edges that start there.
#![tactic(auto)]

mod run;
mod shelf;
mod slots;
mod work;

pub use run::{run_turns, run_turns_counted};
pub use slots::Slots;
pub use work::Work;
