//! The core of a scheduler: items, edges between them, and turns in which each item is handed out once,
//! after all the edges that lead to it. It knows neither threads nor what an item does.
#![tactic(auto)]

mod dag;
mod edge;
mod groups;
mod laws;
mod steps;
mod turns;
mod work;

pub use dag::{Dag, DagError};
pub use edge::{Edge, OUTSIDE, TERMINAL};
pub use laws::{edges_are_listed, ends_are_no_items, nothing_is_left, runs_keep_order};
pub use steps::Steps;
pub use turns::Turns;
pub use work::DrainWork;
