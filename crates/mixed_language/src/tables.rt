ghost use Rattle.std.specs.Prelude.{◌≡◌, ◌<◌, ◌≤◌, ◌+◌, ◌++◌, [], ◌∷◌, length, slice_get, IfOk, IfSome, OnOk};
ghost use Rattle.mot_base.specs.Limits.{most_gates};
ghost use Rattle.circuit_tables.specs.Table.{AreNamedApart};
ghost use Rattle.mixed_language.specs.Table.{inputs_of, outputs_of, input_entry, owner_of, output_entry, name_at, width_at};

use crate::circuit::Mixed;
use crate::form::Form;
use circuit_tables::{InputTable, OutputTable, Receiver};
use mot_base::{MAX_WIDTH, NoMemory};
use std::alloc::Global;

impl Mixed {
    /// The inputs, in the order of their statements. One that is shared by sum has 64 bits.
    pub fn inputs(&self, alloc: Global) -> Result<InputTable, NoMemory>
        ensures value { IfOk result (λ table. table ≡ inputs_of self.now.statements) }
        ensures apart { IfOk result (λ table. AreNamedApart table) }
    {
        let mut table = InputTable::new(alloc);
        for at in 0..self.len() {
            push_input(&mut table, self, at)?;
        }
        Ok(table)
    }

    /// The outputs, in the order of their statements. One of a value that is shared by sum has 64 bits.
    pub fn outputs(&self, alloc: Global) -> Result<OutputTable, NoMemory>
        ensures { IfOk result (λ table. table ≡ outputs_of self.now) }
    {
        let mut table = OutputTable::new(alloc);
        for at in 0..self.len() {
            push_output(&mut table, self, at)?;
        }
        Ok(table)
    }
}

/// Adds the input that a statement is, if it is one.
fn push_input(table: &mut InputTable, circuit: &Mixed, at: u32) -> Result<(), NoMemory>
    requires at { at < length circuit.now.statements }
    requires room { length table.old < most_gates }
    ensures added { OnOk result (IfSome (slice_get circuit.now.statements at) (λ s.
        table.new ≡ table.old ++ input_entry s (owner_of s.shape))) }
    ensures one { OnOk result (length table.new ≤ length table.old + 1) }
{
    match circuit.form(at) {
        Form::InputA { party } => { table.push(circuit.name(at), party, u32::from(MAX_WIDTH)) }
        Form::InputB { party, width } | Form::InputY { party, width } => {
            table.push(circuit.name(at), party, u32::from(width))
        }
        _ => Ok(()),
    }
}

/// Adds the output that a statement is, if it is one.
fn push_output(table: &mut OutputTable, circuit: &Mixed, at: u32) -> Result<(), NoMemory>
    requires at { at < length circuit.now.statements }
    requires room { length table.old < most_gates }
    ensures added { OnOk result (IfSome (slice_get circuit.now.statements at) (λ s.
        table.new ≡ table.old ++ output_entry circuit.now.statements s)) }
    ensures one { OnOk result (length table.new ≤ length table.old + 1) }
{
    match circuit.form(at) {
        Form::Output { x, to } => push_told(table, circuit, x, to),
        _ => Ok(()),
    }
}

/// Adds a value as an output.
fn push_told(table: &mut OutputTable, circuit: &Mixed, x: u32, to: Receiver) -> Result<(), NoMemory>
    requires x { x < length circuit.now.statements }
    requires room { length table.old < most_gates }
    ensures added { OnOk result (table.new
        ≡ table.old ++ record {
          name = name_at circuit.now.statements x;
          to = to;
          width = width_at
              circuit.now.statements x;
        } ∷ []) }
{
    let width = match circuit.wire(x) {
        Some(wire) => u32::from(wire.width()),
        None => 0,
    };
    table.push(circuit.name(x), to, width)
}
