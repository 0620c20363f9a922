ghost use Rattle.std.specs.Prelude.{◌≡◌, ◌<◌, ◌==◌, length, sum, slice_get, slice_index, option_map, Some};

use crate::gates::Gates;
use crate::kind::BristolKind;
use crate::widths::Widths;
use std::marker::Model;

/// A circuit in Bristol Fashion: the number of its wires, the widths of its input and output values, and its gates. The
/// first wires are the inputs in order, and the last wires are the outputs in order.
#[derive(Debug, Drop)]
pub struct Bristol {
    wires: u32,
    inputs: Widths,
    outputs: Widths,
    gates: Gates,
}

impl Model for Bristol {
    ghost use Rattle.bristol_reader.specs.Circuit.{Circuit};
    ghost use Rattle.bristol_reader.specs.Built.{IsCircuit};

    ghost Value = { Circuit };

    ghost view = { λ b. record { wires = b.wires; inputs = b.inputs; outputs = b.outputs; gates = b.gates } };

    ghost invariant = { λ b. IsCircuit (record { wires = b.wires; inputs = b.inputs; outputs = b.outputs; gates = b.gates }) };
}

impl Bristol {
    ghost use Rattle.bristol_reader.specs.Circuit.{Circuit};
    ghost use Rattle.bristol_reader.specs.Built.{IsCircuit};

    /// The circuit of these parts.
    pub(crate) fn of(wires: u32, inputs: Widths, outputs: Widths, gates: Gates) -> Bristol
        requires { IsCircuit (record { wires = wires; inputs = inputs; outputs = outputs; gates = gates }) }
        ensures { result ≡ record { wires = wires; inputs = inputs; outputs = outputs; gates = gates } }
    {
        Bristol {
            wires,
            inputs,
            outputs,
            gates,
        }
    }

    /// How many wires each input value has.
    pub(crate) fn input_widths(&self) -> &Widths
        ensures value { result.now ≡ self.entry.now.inputs }
        ensures circuit { IsCircuit self.entry.now }
    {
        &self.inputs
    }

    /// How many wires each output value has.
    pub(crate) fn output_widths(&self) -> &Widths
        ensures value { result.now ≡ self.entry.now.outputs }
        ensures circuit { IsCircuit self.entry.now }
    {
        &self.outputs
    }

    /// How many input values there are.
    pub fn input_count(&self) -> u32
        ensures { result ≡ length self.now.inputs }
    {
        self.inputs.len()
    }

    /// How many wires an input value has, at least one.
    pub fn input_width(&self, at: u32) -> u32
        requires { at < length self.now.inputs }
        ensures { result ≡ slice_index self.now.inputs at }
    {
        self.inputs.width(at)
    }

    /// How many wires all input values have together.
    pub fn input_wires(&self) -> u32
        ensures { result ≡ sum self.now.inputs }
    {
        self.inputs.total()
    }

    /// How many wires all output values have together.
    pub fn output_wires(&self) -> u32
        ensures { result ≡ sum self.now.outputs }
    {
        self.outputs.total()
    }

    /// The number of wires, at most 4,194,304.
    pub fn wires(&self) -> u32
        ensures value { result ≡ self.now.wires }
        ensures circuit { IsCircuit self.now }
    {
        self.wires
    }

    /// The number of gates, at most 1,048,576.
    pub fn len(&self) -> u32
        ensures value { result ≡ length self.now.gates }
        ensures circuit { IsCircuit self.now }
    {
        self.gates.len() as u32
    }

    /// Whether there is no gate.
    pub fn is_empty(&self) -> bool
        ensures { result ≡ (length self.now.gates == 0) }
    {
        self.gates.len() == 0
    }

    /// The kind of a gate.
    pub fn kind(&self, at: u32) -> BristolKind
        requires { at < length self.now.gates }
        ensures { option_map (λ g. g.kind) (slice_get self.now.gates at) ≡ Some result }
    {
        self.gates.kind(at as usize)
    }

    /// The input wires of a gate, and for `Eq` the constant.
    pub fn ins(&self, at: u32) -> &[u32]
        requires { at < length self.now.gates }
        ensures { option_map (λ g. g.ins) (slice_get self.entry.now.gates at) ≡ Some result.now }
    {
        self.gates.ins(at as usize)
    }

    /// The output wires of a gate.
    pub fn outs(&self, at: u32) -> &[u32]
        requires { at < length self.now.gates }
        ensures { option_map (λ g. g.outs) (slice_get self.entry.now.gates at) ≡ Some result.now }
    {
        self.gates.outs(at as usize)
    }
}
