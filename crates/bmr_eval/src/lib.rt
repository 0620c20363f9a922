//! Evaluation of garbled wires of BMR: what all parties see of a wire, its masked bits and active keys, from what
//! they see of others.
#![tactic(auto)]

mod entry;
mod evaluate;
mod laws;
mod linear;

pub use entry::{enter, gathered};
pub use evaluate::eval_and;
pub use laws::{
    and_recombines, entry_recombines, flip_recombines, join_recombines, slice_recombines,
    wires_evaluate, xor_recombines, zero_recombines,
};
pub use linear::{eval_join, eval_slice, eval_xor, eval_zero};
