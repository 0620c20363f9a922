//! The stages of all parties as a work over a graph.

ghost use Rattle.std.specs.Prelude.{◌≡◌, ◌<◌, ◌≤◌, List, Some, None, length, slice_get, IfOk, IfSome};
ghost use Rattle.std.specs.List.{flat_map};
ghost use Rattle.turn_core.specs.Graph.{incoming, outgoing};
ghost use Rattle.task_pool.specs.Meanings.{AreMeanings};
ghost use Rattle.plan_gates.specs.Gate.{Gate};
ghost use Rattle.plan_gates.specs.Messages.{stages, awaits};
ghost use Rattle.joint_run.specs.Party as equations;
ghost use Rattle.joint_run.specs.Party.{Rounds};
ghost use Rattle.gate_tasks.specs.Stage.{hand_in, IsOf, IsStage, Gives, Serves, AreOperands, AreAwaited};
ghost use Rattle.local_run.specs.Cargo.{values_of, payloads_of, kept_after};
ghost use Rattle.plan_gates.specs.Plan.{IsPlan};
ghost use Rattle.local_run.specs.Items.{IsItem};
ghost use Rattle.local_run.specs.Loads.{loads_to};
ghost use Rattle.local_run.specs.Job.{IsJob};
ghost use Rattle.local_run.specs.Meaning.{edge_means, owns_with, AreMeant, HasRun};

use crate::cargo::Cargo;
use crate::graph::RunGraph;
use crate::inputs::Inputs;
use crate::item::Item;
use crate::job::LocalJob;
use crate::outputs::outputs;
use dealer_files::DealerPart;
use gate_tasks::{StageEnv, StageOut, run_stage};
use mot_base::NoMemory;
use std::alloc::Global;
use std::marker::Model;
use task_pool::Work;

/// The stages of all parties of a run.
#[derive(Drop)]
pub(crate) struct LocalWork<'r> {
    pub(crate) job: &'r LocalJob,
    pub(crate) parts: &'r [DealerPart],
    pub(crate) graph: &'r RunGraph,
}

impl<'r> Model for LocalWork<'r> {
    ghost use Rattle.local_run.specs.Meaning.{owns_with};
    ghost use Rattle.local_run.specs.Running.{Running, IsRunning};

    ghost Value = { Running };

    ghost view = { λ w. record {
      plan = w.job.now.plan;
      owns = owns_with w.job.now.owns.items w.parts.now;
      graph = w.graph.now.dag;
    } };

    ghost invariant = { λ w.
        IsRunning w.job.now.plan w.job.now.owns.items w.parts.now
        w.graph.now.items.items w.graph.now.loads.items w.graph.now.dag };
}

impl<'r> Work for LocalWork<'r> {
    type Edge = Cargo;

    ghost graph = { λ w. w.graph };

    ghost means = { λ w. edge_means w.plan w.owns };

    fn run(
        &self,
        alloc: Global,
        item: u32,
        inputs: &mut Vec<Cargo>,
    ) -> Result<Vec<Cargo>, NoMemory> {
        let place = self.graph.items[item as usize];
        let given = run_item(alloc, self.job, self.parts, place, inputs)?;
        let edges = self.graph.dag.outgoing(item);
        let outputs = outputs(alloc, &self.graph.loads, edges, given)?;
        Ok(outputs)
    }
}

/// Runs an item on what flows into it.
fn run_item(
    alloc: Global,
    job: &LocalJob,
    parts: &[DealerPart],
    item: Item,
    inputs: &mut Vec<Cargo>,
) -> Result<StageOut, NoMemory>
    requires plan { IsPlan job.now.plan }
    requires job { IsJob job.now.plan job.now.owns.items parts.now }
    requires item { IsItem job.now.plan item }
    requires inputs { AreMeant job.now.plan (owns_with job.now.owns.items parts.now)
        (loads_to job.now.plan item) inputs.old.items }
    ensures { IfOk result (λ given.
        HasRun job.now.plan (owns_with job.now.owns.items parts.now) item given) }
{
    let party = item.party.0 as usize;
    let env = StageEnv {
        plan: &job.plan,
        own: &job.owns[party],
        part: &parts[party],
        gate: item.gate,
    };
    let given = run_place(alloc, &env, item.stage, inputs)?;
    Ok(given)
}

/// Runs a party's stage on what flows into it.
fn run_place(
    alloc: Global,
    env: &StageEnv,
    stage: u8,
    inputs: &mut Vec<Cargo>,
) -> Result<StageOut, NoMemory>
    requires serves { Serves env.now.plan.now env.now.own.now env.now.part.now env.now.gate }
    requires stage { stage < stages env.now.plan.now env.now.own.now.me.0 env.now.gate }
    requires wires { AreOperands env.now.plan.now env.now.gate (flat_map values_of inputs.old.items) }
    requires payloads { let me = env.now.own.now.me.0 in
        AreAwaited env.now.plan.now me env.now.gate (awaits env.now.plan.now me env.now.gate stage)
        (flat_map payloads_of inputs.old.items) }
    ensures gives { IfOk result (λ given. (before : List equations.Value) (got : Rounds) →
        IsStage (hand_in env.now before) got stage
        (flat_map values_of inputs.old.items) (kept_after None inputs.old.items) (flat_map payloads_of inputs.old.items) →
        Gives (hand_in env.now before) got stage given) }
    ensures typed { IfOk result (λ given. IfSome given.value (λ value. (gate : Gate) →
        slice_get env.now.plan.now.gates env.now.gate ≡ Some gate → IsOf gate value)) }
{
    let Inputs {
        wires,
        carried,
        payloads,
    } = Inputs::new(alloc, inputs)?;
    run_stage(alloc, env, stage, wires.as_slice(), carried, &payloads)
}
