ghost use Rattle.std.specs.Prelude.{◌≡◌};

use mot_base::NoMemory;
use thiserror::Error;

/// Why a circuit is not lowered.
#[derive(Clone, Copy, Debug, PartialEq, Eq, Error)]
pub enum PlanError {
    /// The circuit has more than 4,194,304 gates: so many.
    #[error("the circuit has {gates} gates")]
    TooManyGates { gates: u64 },
    #[error("out of memory")]
    NoMemory,
}

impl From<NoMemory> for PlanError {
    ghost from_gives = { λ _ e. e ≡ NoMemory };

    ghost use Rattle.gate_plan.specs.declared.error.PlanError.TheVariants.{NoMemory};

    fn from(_error: NoMemory) -> PlanError {
        PlanError::NoMemory
    }
}
