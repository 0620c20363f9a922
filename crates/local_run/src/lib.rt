//! All parties of a run of a plan in one process.
#![tactic(auto)]

mod cargo;
mod deciding;
mod edges;
mod graph;
mod inputs;
mod item;
mod items;
mod job;
mod laws;
mod loads;
mod operands;
mod outputs;
mod report;
mod run;
mod work;

pub use gate_tasks::PartyReport;
pub use job::LocalJob;
pub use laws::{edges_are_few, jobs_of_seed_serve, told_bits_are_those_of_outputs, turns_are_few};
pub use run::{local_pool, local_turns, local_turns_counted};
