ghost use Rattle.std.specs.Prelude.{◌≡◌, ◌<◌, ◌≤◌, ◌&&◌, true, not, nat_le, length, sum, slice_index_or, if◌then◌else◌, IfOk};
ghost use Rattle.std.specs.List.{list_all};
ghost use Rattle.bristol_reader.specs.Circuit.{is_set, no_gates, more_gates, are_outputs_set};
ghost use Rattle.bristol_reader.specs.Line.{is_in_range, are_ins_set, are_outs_new, added};
ghost use Rattle.bristol_reader.specs.Kinds.{is_arity};
ghost use Rattle.text_lines.specs.Gives.{Gives};
ghost use Rattle.bristol_reader.specs.Stored.{stated_gate};

use crate::cause::BristolCause;
use crate::circuit::Bristol;
use crate::gates::Gates;
use crate::header::Heading;
use crate::line::Stated;
use crate::marks::{mark_all, marks};
use crate::widths::Widths;
use std::alloc::{AllocError, Global};
use std::marker::Model;
use text_lines::LineError;

/// A circuit that grows by one gate after another, how many gates are stated, and for each wire whether it is an input
/// or set.
#[derive(Drop)]
pub struct Builder {
    stated: u32,
    wires: u32,
    inputs: Widths,
    outputs: Widths,
    gates: Gates,
    set: Vec<bool>,
}

impl Model for Builder {
    ghost use Rattle.bristol_reader.specs.Circuit.{Progress};
    ghost use Rattle.bristol_reader.specs.Built.{IsKept};

    ghost Value = { Progress };

    ghost view = { λ b. record { stated = b.stated; circuit = record { wires = b.wires; inputs = b.inputs; outputs = b.outputs; gates = b.gates } } };

    ghost invariant = { λ b. IsKept b.stated (record { wires = b.wires; inputs = b.inputs; outputs = b.outputs; gates = b.gates }) b.set.items };
}

impl Builder {
    ghost use Rattle.bristol_reader.specs.Built.{IsBuilt, IsCircuit, FitsBehind};
    ghost use Rattle.mot_base.specs.Limits.{most_wires};

    /// The circuit of no gate.
    pub fn new(alloc: Global, heading: Heading, outputs: Widths) -> Result<Builder, AllocError>
        requires { sum outputs ≤ heading.sizes.wires }
        ensures { IfOk result (λ b. b ≡ no_gates heading outputs) }
    {
        let Heading { sizes, inputs } = heading;
        let _total = outputs.total();
        let set = marks(alloc, inputs.total(), sizes.wires)?;
        Ok(Builder {
            stated: sizes.gates,
            wires: sizes.wires,
            inputs,
            outputs,
            gates: Gates::new(alloc),
            set,
        })
    }

    /// How many wires the circuit has.
    pub fn wires(&self) -> u32
        ensures value { result ≡ self.now.circuit.wires }
        ensures most { result ≤ most_wires }
    {
        self.wires
    }

    /// How many gates are stated.
    pub fn stated(&self) -> u32
        ensures { result ≡ self.now.stated }
    {
        self.stated
    }

    /// How many gates there are so far.
    pub fn len(&self) -> u32
        ensures value { result ≡ length self.now.circuit.gates }
        ensures some_left { result ≤ self.now.stated }
    {
        self.gates.len() as u32
    }

    /// Whether a wire is an input of the circuit or set.
    pub fn is_set(&self, wire: u64) -> bool
        requires { wire < self.now.circuit.wires }
        ensures { result ≡ is_set self.now.circuit wire }
    {
        self.set[wire as usize]
    }

    /// Whether each output wire of the circuit is an input or set.
    #[tactic(auto, unfolding(crate::specs::Circuit::are_outputs_set))]
    pub fn are_outputs_set(&self) -> bool
        ensures { result ≡ are_outputs_set self.now.circuit }
    {
        let from = self.wires - self.outputs.total();
        for wire in from..self.wires {
            if !self.set[wire as usize] {
                return false;
            }
        }
        true
    }

    /// The circuit with one gate more, the outputs of which have to be new.
    pub fn with_gate(self, gate: &Stated) -> Result<Builder, LineError<BristolCause>>
        requires room { length self.circuit.gates < self.stated }
        requires arity { is_arity gate.now.kind (length gate.now.ins.now) (length gate.now.outs.now) ≡ true }
        requires range { is_in_range self.circuit.wires (stated_gate gate.now) ≡ true }
        requires used { are_ins_set self.circuit (stated_gate gate.now) ≡ true }
        ensures { Gives (λ b. b) result (added self (stated_gate gate.now)) }
    {
        let Builder {
            stated,
            wires,
            inputs,
            outputs,
            gates,
            mut set,
        } = self;
        if !mark_all(&mut set, gate.outs) {
            return Err(LineError::Shows(BristolCause::SetTwice));
        }
        let gates = gates.with(gate.kind, gate.ins, gate.outs)?;
        Ok(Builder {
            stated,
            wires,
            inputs,
            outputs,
            gates,
            set,
        })
    }

    /// The circuit that was built.
    pub fn finish(self) -> Bristol
        requires { are_outputs_set self.circuit ≡ true }
        ensures { result ≡ self.circuit }
    {
        let Builder {
            wires,
            inputs,
            outputs,
            gates,
            ..
        } = self;
        Bristol::of(wires, inputs, outputs, gates)
    }
}
