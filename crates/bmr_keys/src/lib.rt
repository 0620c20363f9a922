//! BMR keys, with free XOR and point-and-permute (Beaver, Micali and Rogaway 1990): the function that hides
//! keys, the zero keys of a tape, and a party's part of the mask of a wire.
#![tactic(auto)]

mod hiding;
mod laws;
mod lists;
mod part;
mod payload;

pub use hiding::{prf, zero_key};
pub use laws::{
    constant_recombines, flip_recombines, fresh_recombine, join_recombines, keys_read_back,
    slice_recombines, uses_are_apart, xor_recombines, zero_keys_are_even,
};
pub use lists::{
    add_offset, add_own, is_set, joined, key_by, records_times, some_keys, with_bit, xored,
};
pub use part::MaskPart;
pub use payload::{key_in, key_payload, keys_in};
