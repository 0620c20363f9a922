use circuit_tables::Values;
use mot_base::{Party, Seed};
use share_types::Needs;

/// What a party brings beside its part of a deal: its number, the seed of its tape, its input values, the session, and
/// from which record of each kind on the run uses the part.
#[derive(Debug, Drop)]
pub struct Own {
    pub me: Party,
    pub seed: Seed,
    pub inputs: Values,
    pub session: u32,
    pub bases: Needs,
}
