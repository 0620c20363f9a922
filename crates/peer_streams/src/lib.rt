//! One party's part of a run over links: what its peers' bytes show, however they are cut, and what
//! it sends to each of them.
#![tactic(auto)]

mod engine;
mod error;
mod hello;
mod judge;
mod laws;
mod peer;
mod run;
mod sending;
mod taking;

pub use engine::exchange;
pub use error::PartyError;
pub use laws::{
    answers_are_shown, honest_frames_are_kept, honest_frames_show_nothing,
    honest_peers_show_nothing, honest_streams_end, honest_streams_show_nothing,
};
pub use peer::Peer;
pub use run::Run;
pub use sending::{send_each, send_frame, send_message};
pub use taking::{first_unended, least_room, read_all, take_event};
