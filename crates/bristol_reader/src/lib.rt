//! Circuits in Bristol Fashion as text, and what a circuit computes.
#![tactic(auto)]

mod builder;
mod cause;
mod circuit;
mod evaluate;
mod gates;
mod header;
mod kind;
mod line;
mod marks;
mod number;
mod read;
mod stage;
mod tables;
mod telling;
mod widths;
mod write;

pub use cause::{BristolCause, BristolError};
pub use circuit::Bristol;
pub use evaluate::{each_circuit_evaluates, evaluates_once};
pub use kind::BristolKind;
pub use read::{each_read_is_circuit, each_text_reads_or_faults, read_bristol};
pub use telling::plain_bristol;
pub use write::write_bristol;
