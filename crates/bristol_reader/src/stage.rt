use crate::builder::Builder;
use crate::header::{Heading, Sizes};

/// How far a circuit's text was read.
#[derive(Drop)]
pub enum Stage {
    /// No header line stands yet.
    Start,
    /// The first header line stands.
    Sized(Sizes),
    /// The first two stand.
    Entered(Heading),
    /// All three stand, and the circuit of the gates so far.
    Body(Builder),
}
