//! What the program does with its words.
#![tactic(auto)]

mod commands;
mod deal;
mod local;
mod needs;
mod offers;
mod plain;
mod program;
mod report;
mod run_parts;
mod workers;

pub use command_ends::Status;
pub use program::{deal_command, local_command, motion, needs_command, plain_command};
