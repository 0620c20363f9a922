//! A stage that was run.

use gate_tasks::StageOut;

/// A stage of a gate that was run, and what it gave.
#[derive(Debug, Drop)]
pub struct Ran {
    pub gate: u32,
    pub stage: u8,
    pub given: StageOut,
}
