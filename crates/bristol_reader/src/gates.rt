ghost use Rattle.std.specs.Prelude.{◌≡◌, ◌<◌, ◌^◌, ◌++◌, ◌∷◌, [], true, nat_lt, length, slice_get, option_map, Some, IfOk, OnOk};
ghost use Rattle.std.specs.List.{list_all};

use crate::kind::BristolKind;
use std::alloc::{AllocError, Global};
use std::marker::Model;

/// A gate: where its input wires begin among all wires of gates, how many there are, and how many output wires follow.
#[derive(Debug, Drop)]
pub struct Placed {
    kind: BristolKind,
    at: usize,
    ins: usize,
    outs: usize,
}

/// Gates in order, whose wires stand in one row.
#[derive(Debug, Drop)]
pub struct Gates {
    gates: Vec<Placed>,
    wires: Vec<u32>,
}

impl Model for Gates {
    ghost use Rattle.std.specs.Prelude.{List, length, map};
    ghost use Rattle.bristol_reader.specs.Circuit.{Gate};
    ghost use Rattle.bristol_reader.specs.Stored.{placed_gate, ArePlaced};

    ghost Value = { List Gate };

    ghost view = { λ g. map (placed_gate g.wires.items) g.gates.items };

    ghost invariant = { λ g. ArePlaced g.gates.items (length g.wires.items) };
}

impl Gates {
    /// No gate. It takes no memory.
    pub fn new(alloc: Global) -> Gates
        ensures { result ≡ [] }
    {
        Gates {
            gates: Vec::new(alloc),
            wires: Vec::new(alloc),
        }
    }

    /// The gates with one more.
    pub fn with(self, kind: BristolKind, ins: &[u64], outs: &[u64]) -> Result<Gates, AllocError>
        requires ins { list_all (λ w. nat_lt w (2 ^ 32)) ins.now ≡ true }
        requires outs { list_all (λ w. nat_lt w (2 ^ 32)) outs.now ≡ true }
        ensures { IfOk result (λ gates.
            gates ≡ self ++ record { kind = kind; ins = ins.now; outs = outs.now } ∷ []) }
    {
        let Gates {
            mut gates,
            mut wires,
        } = self;
        let at = wires.len();
        push_all(&mut wires, ins)?;
        push_all(&mut wires, outs)?;
        gates.push(Placed {
            kind,
            at,
            ins: ins.len(),
            outs: outs.len(),
        })?;
        Ok(Gates { gates, wires })
    }

    /// How many gates there are.
    pub fn len(&self) -> usize
        ensures { result ≡ length self.now }
    {
        self.gates.len()
    }

    pub fn kind(&self, at: usize) -> BristolKind
        requires { at < length self.now }
        ensures { option_map (λ g. g.kind) (slice_get self.now at) ≡ Some result }
    {
        self.gates[at].kind
    }

    pub fn ins(&self, at: usize) -> &[u32]
        requires { at < length self.now }
        ensures { option_map (λ g. g.ins) (slice_get self.entry.now at) ≡ Some result.now }
    {
        let gate = &self.gates[at];
        &self.wires[gate.at..gate.at + gate.ins]
    }

    pub fn outs(&self, at: usize) -> &[u32]
        requires { at < length self.now }
        ensures { option_map (λ g. g.outs) (slice_get self.entry.now at) ≡ Some result.now }
    {
        let gate = &self.gates[at];
        let from = gate.at + gate.ins;
        &self.wires[from..from + gate.outs]
    }
}

/// Adds wires at the end of a row.
fn push_all(row: &mut Vec<u32>, wires: &[u64]) -> Result<(), AllocError>
    requires { list_all (λ w. nat_lt w (2 ^ 32)) wires.now ≡ true }
    ensures { OnOk result (row.new.items ≡ row.old.items ++ wires.now) }
{
    for wire in wires {
        row.push(*wire as u32)?;
    }
    Ok(())
}
