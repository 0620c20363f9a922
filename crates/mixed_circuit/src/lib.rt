//! Circuits over all three sharings as text.
#![tactic(auto)]

mod builder;
mod cause;
mod line;
mod names;
mod operand;
mod raw;
mod read;
mod row;
mod statement;
mod write;

pub use cause::{CircuitCause, CircuitError};
pub use circuit_values::{ValuesCause, ValuesError, read_values};
pub use mixed_language::{
    Form, InputTable, Mixed, OutputTable, Outputs, Receiver, Values, each_circuit_evaluates,
    evaluates_once, plain,
};
pub use read::{each_text_reads_or_faults, one_operation, read_mixed, reads_what_is_said};
pub use write::write_mixed;
