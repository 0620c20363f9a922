//! A circuit of either language, as a command meets it: how its text reads, its inputs and outputs, its plan, its plain
//! evaluation, and how its outputs are written.
#![tactic(auto)]

mod circuit;
mod notation;

pub use circuit::{Circuit, ReadError, read_circuit};
pub use notation::Notation;
