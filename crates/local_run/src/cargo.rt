//! What edges carry.

use gate_tasks::{Carried, Value};
use mot_base::Payload;

/// The value on an edge.
#[derive(Drop)]
pub(crate) enum Cargo {
    /// A party's value of a gate.
    Value(Value),
    /// What a party carries at a gate from stage to stage.
    Kept(Carried),
    /// A payload.
    Message(Payload),
}
