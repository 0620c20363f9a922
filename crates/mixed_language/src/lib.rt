//! Circuits over all three sharings: what a circuit is, and what it computes.
#![tactic(auto)]

mod circuit;
mod evaluate;
mod form;
mod language;
mod operand;
mod tables;
mod telling;

pub use circuit::{Mixed, NewStatement};
pub use circuit_tables::{InputTable, OutputTable, Outputs, Receiver, Values};
pub use evaluate::{each_circuit_evaluates, evaluates_once};
pub use form::Form;
pub use language::{Domain, Operation, Slot, Widths};
pub use operand::Operand;
pub use telling::plain;
