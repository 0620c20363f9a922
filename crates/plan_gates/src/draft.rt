ghost use Rattle.std.specs.Prelude.{◌≡◌, ◌<◌, ◌≤◌, length, slice_get, option_map, Some, IfOk, IfSome, OnOk};
ghost use Rattle.mot_base.specs.Limits.{most_gates};
ghost use Rattle.plan_gates.specs.Gate.{gate_of, kind_of, stated_width, width_at, width_of_operand};
ghost use Rattle.plan_gates.specs.Plan.{no_gates, with_gate, sizes_of};

use crate::gate::GateKind;
use mot_base::NoMemory;
use std::alloc::Global;
use std::marker::Model;

/// A gate: what it does, and the width of its value, which is 64 for a word. An output gate has the width of its operand.
#[derive(Debug, Drop)]
struct Gate {
    kind: GateKind,
    width: u8,
}

impl Model for Gate {
    ghost use Rattle.std.specs.Prelude.{IfSome, ◌≡◌};
    ghost use Rattle.plan_gates.specs.Gate as spec;
    ghost use Rattle.plan_gates.specs.Gate.{gate_of, kind_of, stated_width};

    ghost Value = { spec.Gate };

    ghost view = { λ g. gate_of (kind_of g.kind) g.width };

    ghost invariant = { λ g. IfSome (stated_width g.kind) (λ width. width ≡ g.width) };
}

/// On what a gate's needs and messages hang beside its kind: how many parties there are, and the widths of the gate's
/// value and of its first operand's, which is 0 without one.
#[derive(Clone, Copy, Debug)]
pub struct Sizes {
    pub parties: u8,
    pub width: u8,
    pub low: u8,
}

/// A plan in the making: gates, of which nothing is asked but that each has the width that its kind states. Each takes up
/// to 48 bytes.
#[derive(Debug, Drop)]
pub struct Draft {
    parties: u8,
    gates: Vec<Gate>,
}

impl Model for Draft {
    ghost use Rattle.std.specs.Prelude.{◌≤◌, length};
    ghost use Rattle.mot_base.specs.Limits.{most_gates};
    ghost use Rattle.plan_gates.specs.Plan.{Gates};

    ghost Value = { Gates };

    ghost view = { λ d. record { parties = d.parties; gates = d.gates.items } };

    ghost invariant = { λ d. length d.gates.items ≤ most_gates };
}

impl Draft {
    /// No gate yet.
    pub fn new(alloc: Global, parties: u8) -> Draft
        ensures { result ≡ no_gates parties }
    {
        Draft {
            parties,
            gates: Vec::new(alloc),
        }
    }

    /// Adds a gate, and gives its number.
    pub fn push(&mut self, kind: GateKind, width: u8) -> Result<u32, NoMemory>
        requires stated { IfSome (stated_width kind) (λ stated. stated ≡ width) }
        requires room { length self.old.gates < most_gates }
        ensures next { OnOk result (self.new ≡ with_gate self.old (gate_of (kind_of kind) width)) }
        ensures number { IfOk result (λ number. number ≡ length self.old.gates) }
    {
        let number = self.gates();
        self.gates.push(Gate { kind, width })?;
        Ok(number)
    }

    /// The number of parties.
    pub fn parties(&self) -> u8
        ensures { result ≡ self.now.parties }
    {
        self.parties
    }

    /// The number of gates, at most 4,194,304.
    pub fn gates(&self) -> u32
        ensures value { result ≡ length self.now.gates }
        ensures few { result ≤ most_gates }
    {
        self.gates.len() as u32
    }

    /// What a gate does.
    pub(crate) fn gate(&self, gate: u32) -> GateKind
        requires { gate < length self.now.gates }
        ensures kind { option_map (λ g. g.kind) (slice_get self.now.gates gate) ≡ Some (kind_of result) }
        ensures width { IfSome (stated_width result) (λ width.
            option_map (λ g. g.width) (slice_get self.now.gates gate) ≡ Some width) }
    {
        self.gates[gate as usize].kind
    }

    /// The width of a gate's value.
    pub(crate) fn width(&self, gate: u32) -> u8
        requires { gate < length self.now.gates }
        ensures { option_map (λ g. g.width) (slice_get self.now.gates gate) ≡ Some result }
    {
        self.gates[gate as usize].width
    }

    /// On what a gate's needs and messages hang.
    pub(crate) fn sizes(&self, gate: u32) -> Sizes
        requires { gate < length self.now.gates }
        ensures { option_map (sizes_of self.now) (slice_get self.now.gates gate) ≡ Some result }
    {
        let operands = self.gate(gate).operands();
        Sizes {
            parties: self.parties,
            width: self.width(gate),
            low: self.width_of_operand(operands.first),
        }
    }

    /// The width of an operand, and 0 without one.
    fn width_of_operand(&self, operand: Option<u32>) -> u8
        ensures { result ≡ width_of_operand self.now.gates operand }
    {
        match operand {
            Some(gate) if gate < self.gates() => self.width(gate),
            _ => 0,
        }
    }
}
