//! Tables of a circuit's inputs and outputs, the values of inputs, and outputs with their bits: for circuits of any
//! language.
#![tactic(auto)]

mod bits;
mod cut;
mod inputs;
mod outputs;
mod told;
mod values;

pub use bits::push_bits;
pub use cut::cuts_once;
pub use inputs::InputTable;
pub use outputs::OutputTable;
pub use share_types::Receiver;
pub use told::Outputs;
pub use values::{Values, number_of};
