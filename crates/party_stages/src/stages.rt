//! How far a party has run the gates of a plan.

ghost use Rattle.std.specs.Prelude.{◌≡◌, ◌<◌, length, slice_get, true, Some, IfOk, OnOk, is_none};
ghost use Rattle.message_demux.specs.Kept.{InboxContents};
ghost use Rattle.gate_tasks.specs.Wires.{value_held};
ghost use Rattle.party_stages.specs.Following.{Side, no_progress, progress_after, IsRan};
ghost use Rattle.party_stages.specs.Scene.{IsScene, IsStart, IsNext};

use crate::ran::Ran;
use gate_tasks::{GateTask, Outs, StageOut, Value, Wires};
use mot_base::NoMemory;
use std::alloc::Global;
use std::marker::Model;

/// How far a party has run the gates of a plan: each gate's task, the values so far, and what was sent so far at each
/// gate.
#[derive(Debug, Drop)]
pub struct Stages {
    tasks: Vec<GateTask>,
    wires: Wires<Value>,
    said: Vec<Outs>,
}

impl Model for Stages {
    ghost use Rattle.std.specs.Prelude.{◌≡◌, length};
    ghost use Rattle.party_stages.specs.Following.{Progress};

    ghost Value = { Progress };

    ghost view = { λ s. record { tasks = s.tasks.items; wires = s.wires; said = s.said.items } };

    ghost invariant = { λ s.
        (length s.wires ≡ length s.tasks.items) × (length s.said.items ≡ length s.tasks.items) };
}

impl Stages {
    /// Nothing was run of so many gates.
    pub fn new(alloc: Global, gates: u32) -> Result<Stages, NoMemory>
        ensures is { IfOk result (λ stages. stages ≡ no_progress gates) }
        ensures scene { IfOk result (λ stages. (b : Side) (inbox : InboxContents) →
            length b.plan.gates ≡ gates → IsStart b inbox → IsScene b inbox stages) }
    {
        let mut tasks = Vec::with_capacity(alloc, gates as usize)?;
        let mut said = Vec::with_capacity(alloc, gates as usize)?;
        for gate in 0..gates {
            tasks.push(GateTask::new(gate))?;
            said.push(Outs::none(alloc))?;
        }
        let wires = Wires::new(alloc, gates)?;
        Ok(Stages { tasks, wires, said })
    }

    /// The task of a gate.
    pub fn task(&self, gate: u32) -> &GateTask
        requires { gate < length self.now.tasks }
        ensures { slice_get self.entry.now.tasks gate ≡ Some result.now }
    {
        &self.tasks[gate as usize]
    }

    /// The values so far.
    pub fn wires(&self) -> &Wires<Value>
        ensures { result.now ≡ self.entry.now.wires }
    {
        &self.wires
    }

    /// What was sent so far, by gate.
    pub fn said(&self) -> &[Outs]
        ensures { result.now ≡ self.entry.now.said }
    {
        self.said.as_slice()
    }

    /// Whether a gate has no value yet.
    pub fn is_open(&self, gate: u32) -> bool
        ensures { result ≡ is_none (value_held self.now.wires gate) }
    {
        self.wires.get(gate).is_none()
    }

    /// Whether a stage that was run is the next one of its gate.
    pub fn is_next(&self, ran: &Ran) -> bool
        ensures { result ≡ true → IsNext self.now ran.now }
    {
        let Some(task) = self.tasks.get(ran.gate as usize) else {
            return false;
        };
        task.stage() == ran.stage && ran.stage < u8::MAX && self.is_open(ran.gate)
    }

    /// Takes what the next stage of a gate gave. The party goes on by the equations.
    pub fn take(&mut self, ran: Ran) -> Result<(), NoMemory>
        requires { IsNext self.old ran }
        ensures after { OnOk result (self.new ≡ progress_after self.old ran.gate ran.given) }
        ensures scene { (b : Side) (inbox : InboxContents) → IsScene b inbox self.old → IsRan b inbox ran →
            OnOk result (IsScene b inbox self.new) }
    {
        self.put(ran)
    }

    /// Puts what the next stage of a gate gave where it belongs.
    fn put(&mut self, ran: Ran) -> Result<(), NoMemory>
        requires { IsNext self.old ran }
        ensures { OnOk result (self.new ≡ progress_after self.old ran.gate ran.given) }
    {
        let gate = ran.gate;
        let StageOut {
            carried,
            value,
            out,
        } = ran.given;
        self.said[gate as usize].append(out)?;
        match value {
            Some(value) => self.wires.set(gate, value),
            None => self.tasks[gate as usize].advance(carried),
        }
        Ok(())
    }
}
