//! One party's run of a plan over links.
#![tactic(auto)]

mod greeting;
mod report;
mod rest;
mod running;
mod saying;
mod speaking;
mod turn;
mod waiting;

pub use gate_tasks::PartyReport;
pub use party_stages::Brought;
pub use peer_streams::PartyError;
pub use running::run_party;
