//! The values of a circuit's inputs as text.
#![tactic(auto)]

mod asked;
mod bits;
mod cause;
mod given;
mod literal;
mod read;

pub use cause::{ValuesCause, ValuesError};
pub use circuit_tables::{
    InputTable, OutputTable, Outputs, Receiver, Values, cuts_once, number_of,
};
pub use read::{each_text_reads_or_faults, read_values};
