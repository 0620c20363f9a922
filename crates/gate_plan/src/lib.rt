//! The lowering of circuits to plans, which are those of `plan_gates`.
#![tactic(auto)]

mod adder;
mod block;
mod bristol;
mod convert;
mod error;
mod expand;
mod lower;
mod statement;
mod wire;

pub use adder::{adder_adds, adder_counts};
pub use bristol::{lower_bristol, lowered_bristol_gates};
pub use error::PlanError;
pub use lower::{lower_mixed, lowered_gates, parts_exist};
pub use plan_gates::{GateKind, Plan, Shape, SlotSpec, records_never_meet};
