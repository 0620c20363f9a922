//! What flows into an item, by kind.

ghost use Rattle.std.specs.Prelude.{◌≡◌, ◌≤◌, length, None, IfOk};
ghost use Rattle.std.specs.List.{flat_map};
ghost use Rattle.local_run.specs.Cargo.{values_of, payloads_of, kept_after};

use crate::cargo::Cargo;
use crate::operands::Operands;
use gate_tasks::{Carried, Value};
use mot_base::{NoMemory, Payload};
use std::alloc::Global;
use std::mem;

/// What is left where something was taken.
const NOTHING: Cargo = Cargo::Value(Value::Told(None));

/// The values of operands, what was carried, and payloads, each in the order of the edges.
#[derive(Drop)]
pub(crate) struct Inputs {
    pub(crate) wires: Operands,
    pub(crate) carried: Option<Carried>,
    pub(crate) payloads: Vec<Payload>,
}

impl Inputs {
    /// What flows into an item, by kind. It is taken out of the vector.
    pub(crate) fn new(alloc: Global, inputs: &mut Vec<Cargo>) -> Result<Inputs, NoMemory>
        requires { length (flat_map values_of inputs.old.items) ≤ 2 }
        ensures wires { IfOk result (λ made. made.wires ≡ flat_map values_of inputs.old.items) }
        ensures carried { IfOk result (λ made. made.carried ≡ kept_after None inputs.old.items) }
        ensures payloads { IfOk result (λ made. made.payloads.items ≡ flat_map payloads_of inputs.old.items) }
    {
        let mut wires = Operands::new();
        let mut carried = None;
        let mut payloads = Vec::new(alloc);
        for at in 0..inputs.len() {
            match mem::replace(&mut inputs[at], NOTHING) {
                Cargo::Value(value) => {
                    wires = wires.with(value);
                    continue;
                }
                Cargo::Kept(kept) => {
                    carried = Some(kept);
                    continue;
                }
                Cargo::Message(payload) => {
                    payloads.push(payload)?;
                    continue;
                }
            }
        }
        Ok(Inputs {
            wires,
            carried,
            payloads,
        })
    }
}
