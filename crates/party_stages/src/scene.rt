//! The next stage of a gate at a party: what it lacks, and what it gives.

ghost use Rattle.std.specs.Prelude.{◌≡◌, ◌<◌, length, slice_get, Some, IfOk};
ghost use Rattle.gate_tasks.specs.Task.{Task};
ghost use Rattle.party_stages.specs.Following.{IsProgress, IsRan, me_of};
ghost use Rattle.party_stages.specs.Scene.{IsScene, IsReady, IsNext, need_at};

use crate::brought::Brought;
use crate::ran::Ran;
use crate::stages::Stages;
use gate_tasks::{Env, Need};
use message_demux::Inbox;
use mot_base::NoMemory;
use std::alloc::Global;

/// The first thing that the next stage of a gate lacks.
pub fn need_of(brought: &Brought, inbox: &Inbox, stages: &Stages, gate: u32) -> Option<Need>
    requires gate { gate < length brought.now.plan.gates }
    requires progress { IsProgress brought.now.plan (me_of brought.now) stages.now }
    ensures { (task : Task) → slice_get stages.now.tasks gate ≡ Some task →
        result ≡ need_at brought.now inbox.now stages.now gate task.stage }
{
    let env = Env {
        plan: brought.plan,
        own: brought.own,
        part: brought.part,
        wires: stages.wires(),
        inbox,
    };
    stages.task(gate).lacking(&env)
}

/// What is found where a gate is looked at.
#[derive(Clone, Copy, Debug, PartialEq, Eq)]
pub enum Found {
    /// Its next stage lacks nothing.
    Ready,
    Lacks(Need),
    /// It has its value.
    Done,
}

/// Looks at a gate.
pub fn look(brought: &Brought, inbox: &Inbox, stages: &Stages, gate: u32) -> Found
    requires { IsScene brought.now inbox.now stages.now }
    ensures { result ≡ Found.Ready → IsReady brought.now inbox.now stages.now gate }
{
    if gate >= brought.plan.gates() || !stages.is_open(gate) {
        return Found::Done;
    }
    match need_of(brought, inbox, stages, gate) {
        None => Found::Ready,
        Some(need) => Found::Lacks(need),
    }
}

/// Runs the next stage of a gate, which lacks nothing.
pub fn run_one(
    alloc: Global,
    brought: &Brought,
    inbox: &Inbox,
    stages: &Stages,
    gate: u32,
) -> Result<Ran, NoMemory>
    requires scene { IsScene brought.now inbox.now stages.now }
    requires ready { IsReady brought.now inbox.now stages.now gate }
    ensures ran { IfOk result (IsRan brought.now inbox.now) }
    ensures next { IfOk result (IsNext stages.now) }
    ensures gate { IfOk result (λ ran. ran.gate ≡ gate) }
{
    let env = Env {
        plan: brought.plan,
        own: brought.own,
        part: brought.part,
        wires: stages.wires(),
        inbox,
    };
    let task = stages.task(gate);
    let given = task.run(alloc, &env)?;
    Ok(Ran {
        gate,
        stage: task.stage(),
        given,
    })
}
