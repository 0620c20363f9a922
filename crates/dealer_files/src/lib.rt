//! What a dealer gives the parties, and the files that carry it.
#![tactic(auto)]

mod fault;
mod head;
mod laws;
mod numbers;
mod part;
mod read;
mod write;

pub use fault::DealerError;
pub use head::dealer_len;
pub use laws::{
    a_file_has_no_fault, a_file_is_of_one_part, bytes_are_a_file_or_fault,
    honest_parts_serve_garbling,
};
pub use part::DealerPart;
pub use read::read_dealer;
pub use write::write_dealer;
