//! Values by gate.

ghost use Rattle.std.specs.Prelude.{◌≡◌, ◌≢◌, ◌<◌, ℕ, length, Some, None, IfOk};
ghost use Rattle.std.specs.Option.{option_copied};
ghost use Rattle.gate_tasks.specs.Wires.{value_held, no_values, with_value};

use mot_base::NoMemory;
use std::alloc::Global;
use std::marker::Model;

/// For each gate of a plan its value, or none yet.
#[derive(Debug, Drop)]
pub struct Wires<V> {
    values: Vec<Option<V>>,
}

impl<V> Model for Wires<V> {
    ghost use Rattle.std.specs.Prelude.{List, Option};

    ghost Value = { List (Option V) };

    ghost view = { λ w. w.values.items };
}

impl<V: Drop> Wires<V> {
    /// No values of so many gates.
    pub fn new(alloc: Global, gates: u32) -> Result<Wires<V>, NoMemory>
        ensures { IfOk result (λ wires. wires ≡ no_values gates) }
    {
        let mut values = Vec::with_capacity(alloc, gates as usize)?;
        for _i in 0..gates {
            values.push(None)?;
        }
        Ok(Wires { values })
    }

    /// Gives a gate its value. It takes no memory.
    pub fn set(&mut self, gate: u32, value: V)
        requires inside { gate < length self.old }
        requires free { value_held self.old gate ≡ None }
        ensures after { self.new ≡ with_value self.old gate value }
        ensures set { value_held self.new gate ≡ Some value }
        ensures others { (other : ℕ) → other ≢ gate → value_held self.new other ≡ value_held self.old other }
    {
        self.values[gate as usize] = Some(value);
    }

    /// The value of a gate, and none exactly where it has none yet.
    pub fn get(&self, gate: u32) -> Option<&V>
        ensures { option_copied result ≡ value_held self.entry.now gate }
    {
        self.values.get(gate as usize)?.as_ref()
    }
}
