//! A gate of one party as a task.

ghost use Rattle.std.specs.Prelude.{◌≡◌, ◌<◌, ◌+◌, List, length, Some, None, slice_get, option_map, IfOk, IfSome, IsSome, OnErr};
ghost use Rattle.plan_gates.specs.Gate.{Gate};
ghost use Rattle.plan_gates.specs.Messages.{stages, awaits};
ghost use Rattle.joint_run.specs.Party as party;
ghost use Rattle.joint_run.specs.Party.{Rounds};
ghost use Rattle.gate_tasks.specs.Stage.{hand_in, operands_at, IsOf, IsStage, Gives, Serves};
ghost use Rattle.gate_tasks.specs.Task.{new_task, place_at, held_values, payloads_at, lacking, need_of, value_done, HasRun, HoldTypes, ExpectsAll};

use crate::gather::{held_values, kept_payloads, lacking};
use crate::outgoing::Carried;
use crate::own::{Env, StageEnv};
use crate::stage::{StageOut, run_stage};
use crate::step::{Need, Step};
use mot_base::NoMemory;
use std::alloc::Global;
use std::marker::Model;

/// A gate of one party, which is run stage by stage. It is seen as its gate, the stage that it runs next, and what it
/// carries to it.
#[derive(Debug, Drop)]
pub struct GateTask {
    gate: u32,
    stage: u8,
    carried: Option<Carried>,
}

impl Model for GateTask {
    ghost use Rattle.gate_tasks.specs.Task.{Task};

    ghost Value = { Task };

    ghost view = { λ t. record { gate = t.gate; stage = t.stage; carried = t.carried } };
}

impl GateTask {
    /// The task of a gate, at stage 0. It takes no memory.
    pub fn new(gate: u32) -> GateTask
        ensures { result ≡ new_task gate }
    {
        GateTask {
            gate,
            stage: 0,
            carried: None,
        }
    }

    /// Its gate.
    pub fn gate(&self) -> u32
        ensures { result ≡ self.now.gate }
    {
        self.gate
    }

    /// The stage that it runs next.
    pub fn stage(&self) -> u8
        ensures { result ≡ self.now.stage }
    {
        self.stage
    }

    /// The first thing that the next stage lacks: values of operands in the gate's order, and then messages by sender.
    pub fn lacking(&self, env: &Env) -> Option<Need>
        requires { self.now.gate < length env.now.plan.now.gates }
        ensures { result ≡ lacking env.now self.now.gate self.now.stage }
    {
        lacking(env, self.gate, self.stage)
    }

    /// Runs the next stage, or tells the first thing that it lacks: values of operands in the gate's order, and then messages
    /// by sender. A task that has answered `Done` is not polled again.
    pub fn poll(&mut self, alloc: Global, env: &Env) -> Result<Step, NoMemory>
        requires serves { Serves env.now.plan.now env.now.own.now env.now.part.now self.old.gate }
        requires stage { self.old.stage < stages env.now.plan.now env.now.own.now.me.0 self.old.gate }
        requires wires { HoldTypes env.now.plan.now self.old.gate env.now.wires.now }
        requires inbox { ExpectsAll env.now.plan.now env.now.own.now.me.0 self.old.gate env.now.inbox.now }
        ensures lacks { IfOk result (λ step. need_of step ≡ lacking env.now self.old.gate self.old.stage) }
        ensures waits { IfOk result (λ step. IsSome (need_of step) → self.new ≡ self.old) }
        ensures runs { let me = env.now.own.now.me.0 in
            IfOk result (λ step. (before : List party.Value) (got : Rounds) →
            IsStage (hand_in (place_at env.now self.old.gate) before) got self.old.stage
            (held_values env.now.wires.now (operands_at env.now.plan.now.gates self.old.gate))
            self.old.carried
            (payloads_at env.now.plan.now me env.now.inbox.now self.old.gate
            (awaits env.now.plan.now me self.old.gate self.old.stage)) →
            HasRun (hand_in (place_at env.now self.old.gate) before) got self.old step self.new) }
        ensures typed { IfOk result (λ step. IfSome (value_done step) (λ value. (gate : Gate) →
            slice_get env.now.plan.now.gates self.old.gate ≡ Some gate → IsOf gate value)) }
        ensures unchanged { OnErr result (self.new ≡ self.old) }
    {
        if let Some(need) = lacking(env, self.gate, self.stage) {
            return Ok(Step::NotYet(need));
        }
        let given = self.run(alloc, env)?;
        match given.value {
            Some(value) => Ok(Step::Done(value, given.out)),
            None => {
                self.advance(given.carried);
                Ok(Step::Sent(given.out))
            }
        }
    }

    /// Gathers what the next stage takes and runs it. It lacks nothing.
    pub fn run(&self, alloc: Global, env: &Env) -> Result<StageOut, NoMemory>
        requires serves { Serves env.now.plan.now env.now.own.now env.now.part.now self.now.gate }
        requires stage { self.now.stage < stages env.now.plan.now env.now.own.now.me.0 self.now.gate }
        requires wires { HoldTypes env.now.plan.now self.now.gate env.now.wires.now }
        requires inbox { ExpectsAll env.now.plan.now env.now.own.now.me.0 self.now.gate env.now.inbox.now }
        requires all { lacking env.now self.now.gate self.now.stage ≡ None }
        ensures gives { let me = env.now.own.now.me.0 in
            IfOk result (λ given. (before : List party.Value) (got : Rounds) →
            IsStage (hand_in (place_at env.now self.now.gate) before) got self.now.stage
            (held_values env.now.wires.now (operands_at env.now.plan.now.gates self.now.gate))
            self.now.carried
            (payloads_at env.now.plan.now me env.now.inbox.now self.now.gate
            (awaits env.now.plan.now me self.now.gate self.now.stage)) →
            Gives (hand_in (place_at env.now self.now.gate) before) got self.now.stage given) }
        ensures typed { IfOk result (λ given. IfSome given.value (λ value. (gate : Gate) →
            slice_get env.now.plan.now.gates self.now.gate ≡ Some gate → IsOf gate value)) }
    {
        let place = StageEnv {
            plan: env.plan,
            own: env.own,
            part: env.part,
            gate: self.gate,
        };
        let wires = held_values(alloc, env, self.gate)?;
        let round = env.plan.awaits(env.own.me, self.gate, self.stage);
        let payloads = kept_payloads(alloc, env, self.gate, round)?;
        let carried = copy_carried(alloc, &self.carried)?;
        run_stage(alloc, &place, self.stage, &wires, carried, &payloads)
    }

    /// Moves on to the next stage, with what the one that was run gave to carry.
    pub fn advance(&mut self, carried: Option<Carried>)
        requires { self.old.stage < 255 }
        ensures { self.new ≡ record self.old { stage = self.old.stage + 1; carried = carried } }
    {
        self.stage += 1;
        self.carried = carried;
    }
}

/// The same once more, if something is carried.
fn copy_carried(alloc: Global, carried: &Option<Carried>) -> Result<Option<Carried>, NoMemory>
    ensures { IfOk result (λ copy. copy ≡ carried.now) }
{
    match carried {
        Some(carried) => Ok(Some(carried.copy(alloc)?)),
        None => Ok(None),
    }
}
