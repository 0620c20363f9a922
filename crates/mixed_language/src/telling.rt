ghost use Rattle.std.specs.Prelude.{◌≡◌, ◌<◌, ◌≤◌, ◌+◌, ◌++◌, [], ◌∷◌, length, slice_get, slice_index, All, None, IfOk, IfSome, OnOk};
ghost use Rattle.mot_base.specs.Limits.{most_width, most_gates};
ghost use Rattle.share_types.specs.Bits.{bits};
ghost use Rattle.circuit_tables.specs.Values.{HaveWidths};
ghost use Rattle.mixed_language.specs.Table.{inputs_of, name_at, width_at};
ghost use Rattle.mixed_language.specs.Eval.{told_by, told_of, IsPlain};

use crate::circuit::Mixed;
use crate::evaluate::{values_of, width_at};
use crate::form::Form;
use circuit_tables::{Outputs, Receiver, Values};
use mot_base::NoMemory;
use std::alloc::Global;

/// The plain evaluation of a circuit on the values of all its inputs.
pub fn plain(alloc: Global, circuit: &Mixed, values: &Values) -> Result<Outputs, NoMemory>
    requires { HaveWidths None (inputs_of circuit.now.statements) values.now }
    ensures plain { IfOk result (λ outputs. IsPlain circuit.now values.now outputs) }
    ensures widths { IfOk result (λ outputs. All (λ t. length t.bits ≤ most_width) outputs) }
{
    let inputs = circuit.input_numbers(alloc, values)?;
    let numbers = values_of(alloc, circuit, inputs.as_slice())?;
    circuit.tell(alloc, numbers.as_slice())
}

impl Mixed {
    /// The outputs, in the order of their statements, from the number of each statement's value.
    pub fn tell(&self, alloc: Global, values: &[u64]) -> Result<Outputs, NoMemory>
        requires { length values.now ≡ length self.now.statements }
        ensures value { IfOk result (λ outputs. outputs ≡ told_of self.now values.now) }
        ensures widths { IfOk result (λ outputs. All (λ t. length t.bits ≤ most_width) outputs) }
    {
        let mut outputs = Outputs::new(alloc);
        for at in 0..self.len() {
            push_told(&mut outputs, self, at, values)?;
        }
        Ok(outputs)
    }
}

/// Adds what a statement tells, if it is an output.
fn push_told(
    outputs: &mut Outputs,
    circuit: &Mixed,
    at: u32,
    values: &[u64],
) -> Result<(), NoMemory>
    requires at { at < length circuit.now.statements }
    requires values { length values.now ≡ length circuit.now.statements }
    requires room { length outputs.old < most_gates }
    ensures added { OnOk result (IfSome (slice_get circuit.now.statements at) (λ s.
        outputs.new ≡ outputs.old ++ told_by circuit.now.statements values.now s)) }
    ensures one { OnOk result (length outputs.new ≤ length outputs.old + 1) }
{
    match circuit.form(at) {
        Form::Output { x, to } => push_value(outputs, circuit, x, to, values[x as usize]),
        _ => Ok(()),
    }
}

/// Adds a value as an output.
fn push_value(
    outputs: &mut Outputs,
    circuit: &Mixed,
    x: u32,
    to: Receiver,
    value: u64,
) -> Result<(), NoMemory>
    requires x { x < length circuit.now.statements }
    requires room { length outputs.old < most_gates }
    ensures added { OnOk result (outputs.new ≡ outputs.old ++ record {
      name = name_at circuit.now.statements x;
      to = to;
      bits = bits (width_at circuit.now.statements x) value;
    } ∷ []) }
{
    outputs.push(circuit.name(x), to, value, width_at(circuit, x))
}
