//! The values that parties share and the correlations that serve them.
#![tactic(auto)]

mod bits;
mod keys;
mod laws;
mod needs;
mod receiver;
mod records;
mod sharing;

pub use bits::{Bits, BitsList};
pub use keys::{Key, Keys, Online};
pub use laws::{bits_are_numbers, operations_are_bitwise, sums_are_by_party};
pub use needs::{Kind, Needs, TooFew};
pub use receiver::Receiver;
pub use records::{BitTriple, KeyBit, MultTriple, SharedBit};
pub use sharing::{Sharing, WireType};
