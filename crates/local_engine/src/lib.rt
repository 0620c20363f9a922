//! Runs of circuits among all parties in one process: those of `local_run`, and what they tell of a circuit in either
//! language.
#![tactic(auto)]

mod laws;

pub use laws::{
    bristol_outputs_are_told, bristol_plans_take_inputs, mixed_outputs_are_told,
    mixed_plans_take_inputs,
};
pub use local_run::{
    LocalJob, PartyReport, edges_are_few, jobs_of_seed_serve, local_pool, local_turns,
    local_turns_counted, told_bits_are_those_of_outputs, turns_are_few,
};
