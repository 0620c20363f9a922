//! Works whose items several workers run side by side: as a pool in which a worker steals what others
//! made ready, or in waves. The workers share a table, which has a word for each item, with the number of
//! edges to it that are not given yet, and a slot for the value on each edge.
#![tactic(auto)]

mod close;
mod collected;
mod deque;
mod hand;
mod hints;
mod item;
mod run;
mod shift;
mod start;
mod table;
mod view;
mod waves;

pub use collected::Collected;
pub use run::run_pool;
pub use view::View;
pub use waves::run_waves;
