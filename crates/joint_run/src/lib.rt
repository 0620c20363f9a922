//! What each party makes of its own data and of what it is sent, and the run of all parties together.
#![tactic(auto)]

mod laws;
mod own;
mod payload;

pub use laws::{
    a_party_follows, every_gate_recombines, every_wire_recombines, one_joint_run,
    payloads_have_their_lengths, payloads_have_their_shapes, payloads_read_back, shares_are_lawful,
    tape_uses_never_meet,
};
pub use own::Own;
pub use payload::{vector_in, vector_payload, word_in, word_payload};
