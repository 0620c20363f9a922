//! The stages of a gate at a party, and a gate as a task that waits for what it lacks.
#![tactic(auto)]

mod deciding;
mod finish;
mod gather;
mod heard;
mod input;
mod operand;
mod outgoing;
mod own;
mod report;
mod sending;
mod stage;
mod step;
mod task;
mod value;
mod wires;

pub use deciding::serves_party;
pub use gather::{held_values, kept_payloads};
pub use joint_run::{
    Own, a_party_follows, every_gate_recombines, every_wire_recombines, one_joint_run,
    payloads_have_their_lengths, payloads_have_their_shapes, payloads_read_back,
    tape_uses_never_meet, vector_in, vector_payload, word_in, word_payload,
};
pub use outgoing::{Carried, Out, Outs};
pub use own::{Env, StageEnv};
pub use report::PartyReport;
pub use stage::{StageOut, run_stage};
pub use step::{Need, Step};
pub use task::GateTask;
pub use value::Value;
pub use wires::Wires;
