//! How a call of a command ends, whatever the command: with a report or a refusal, whose status and line are told of its
//! cause; what is written of it; and what it leaves of the files. The steps of which commands are composed stand here as
//! definitions, and the loading of files as code.
#![tactic(auto)]

mod digest;
mod ending;
mod fault;
mod loading;
mod refusal;
mod status;

pub use digest::push_digest;
pub use ending::end;
pub use fault::{CircuitFault, Difference, Field, PartFault};
pub use loading::{load, load_both};
pub use refusal::{FileCause, Refusal};
pub use status::Status;
