//! Plans: what each gate does, what it needs, which messages it has, and what a plan computes in plain.
#![tactic(auto)]

mod draft;
mod gate;
mod laws;
mod message;
mod needs;
mod plan;
mod slots;

pub use draft::Draft;
pub use gate::{GateKind, Operands};
pub use laws::records_never_meet;
pub use message_demux::{Shape, SlotSpec};
pub use plan::Plan;
