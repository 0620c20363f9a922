//! All parties in one process, on one thread or by several workers.

ghost use Rattle.std.specs.Prelude.{◌≡◌, ◌<◌, ◌≤◌, ◌+◌, ℕ, List, Some, length, map, slice_get, IfOk, OnOk};
ghost use Rattle.share_types.specs.declared.needs.Needs.{Needs};
ghost use Rattle.plan_gates.specs.Plain.{Outside};
ghost use Rattle.joint_run.specs.Joint.{Payloads, IsJoint};
ghost use Rattle.joint_run.specs.Honest.{AreHonest, AreInputs};
ghost use Rattle.gate_tasks.specs.declared.report.PartyReport as spec;
ghost use Rattle.local_run.specs.Items.{all_items};
ghost use Rattle.local_run.specs.Job.{IsJob};
ghost use Rattle.local_run.specs.Meaning.{owns_with};
ghost use Rattle.local_run.specs.Report.{AreReports, plain_told};

use crate::graph::RunGraph;
use crate::job::LocalJob;
use crate::report::reports;
use crate::work::LocalWork;
use dealer_files::DealerPart;
use gate_tasks::PartyReport;
use mot_base::{NoMemory, Turnstile};
use pool_workers::run_pool;
use std::alloc::Global;
use std::marker::Brand;
use std::sync::ledger::{Blank, Ledger};
use std::thread::Threads;
use task_pool::run_turns_counted;
use turn_core::Steps;

/// Runs all parties of a job, each with its part of a deal, one stage after another, and gives their reports in the order
/// of the parties. They are those of the joint run, and where the parts are honest, each party is told what the plan
/// computes in plain.
pub fn local_turns(
    alloc: Global,
    job: &LocalJob,
    parts: &[DealerPart],
) -> Result<Vec<PartyReport>, NoMemory>
    requires { IsJob job.now.plan job.now.owns.items parts.now }
    ensures joint { let owns = owns_with job.now.owns.items parts.now in
        IfOk result (λ reports. (table : Payloads) → IsJoint job.now.plan owns table →
        AreReports job.now.plan owns table reports.items) }
    ensures plain { let owns = owns_with job.now.owns.items parts.now in
        IfOk result (λ reports. (bases : Needs) (session : ℕ) (outside : Outside) →
        AreHonest job.now.plan owns bases session → AreInputs job.now.plan owns outside.inputs →
        (p : ℕ) (report : spec.PartyReport) → slice_get reports.items p ≡ Some report →
        map (λ bits. bits.word) report.told ≡ plain_told job.now.plan outside p) }
{
    turns_with::<Brand>(alloc, job, parts, Blank::new(1))
}

/// The same with a ledger for the turns.
fn turns_with<L: Ledger>(
    alloc: Global,
    job: &LocalJob,
    parts: &[DealerPart],
    blank: Blank,
) -> Result<Vec<PartyReport>, NoMemory>
    requires job { IsJob job.now.plan job.now.owns.items parts.now }
    requires name { blank.name ≡ L.name }
    requires parts { blank.parts ≡ L.parts }
    requires some { 0 < L.parts }
    ensures joint { let owns = owns_with job.now.owns.items parts.now in
        IfOk result (λ reports. (table : Payloads) → IsJoint job.now.plan owns table →
        AreReports job.now.plan owns table reports.items) }
    ensures plain { let owns = owns_with job.now.owns.items parts.now in
        IfOk result (λ reports. (bases : Needs) (session : ℕ) (outside : Outside) →
        AreHonest job.now.plan owns bases session → AreInputs job.now.plan owns outside.inputs →
        (p : ℕ) (report : spec.PartyReport) → slice_get reports.items p ≡ Some report →
        map (λ bits. bits.word) report.told ≡ plain_told job.now.plan outside p) }
{
    let mut steps = Steps::<L>::new(blank);
    local_turns_counted(alloc, job, parts, &mut steps)
}

/// The same, and takes one step for each stage of each gate at a party: the items of the run, which are few by the law
/// `turns_are_few`.
pub fn local_turns_counted<L: Ledger>(
    alloc: Global,
    job: &LocalJob,
    parts: &[DealerPart],
    steps: &mut Steps<L>,
) -> Result<Vec<PartyReport>, NoMemory>
    requires { IsJob job.now.plan job.now.owns.items parts.now }
    ensures joint { let owns = owns_with job.now.owns.items parts.now in
        IfOk result (λ reports. (table : Payloads) → IsJoint job.now.plan owns table →
        AreReports job.now.plan owns table reports.items) }
    ensures plain { let owns = owns_with job.now.owns.items parts.now in
        IfOk result (λ reports. (bases : Needs) (session : ℕ) (outside : Outside) →
        AreHonest job.now.plan owns bases session → AreInputs job.now.plan owns outside.inputs →
        (p : ℕ) (report : spec.PartyReport) → slice_get reports.items p ≡ Some report →
        map (λ bits. bits.word) report.told ≡ plain_told job.now.plan outside p) }
    ensures turns { OnOk result (steps.new ≡ steps.old + length (all_items job.now.plan)) }
    ensures most { steps.new ≤ steps.old + length (all_items job.now.plan) }
{
    let _parties = job.plan.parties();
    let graph = RunGraph::new(alloc, &job.plan)?;
    let work = LocalWork {
        job,
        parts,
        graph: &graph,
    };
    let ends = run_turns_counted(alloc, &graph.dag, &work, steps)?;
    let reports = reports(alloc, &job.plan, &ends)?;
    Ok(reports)
}

/// The same by 1 to 16 workers side by side, whatever order they run the stages in. A worker passes the gate with each
/// stage. The call waits for nobody but the workers that it started, and where a thread cannot be started it does that
/// work itself.
pub fn local_pool<G: Turnstile + Sync, R: Threads + Sync>(
    rt: &R,
    alloc: Global,
    job: &LocalJob,
    parts: &[DealerPart],
    workers: u8,
    gate: &G,
) -> Result<Vec<PartyReport>, NoMemory>
    requires job { IsJob job.now.plan job.now.owns.items parts.now }
    requires workers { (1 ≤ workers) × (workers ≤ 16) }
    ensures joint { let owns = owns_with job.now.owns.items parts.now in
        IfOk result (λ reports. (table : Payloads) → IsJoint job.now.plan owns table →
        AreReports job.now.plan owns table reports.items) }
    ensures plain { let owns = owns_with job.now.owns.items parts.now in
        IfOk result (λ reports. (bases : Needs) (session : ℕ) (outside : Outside) →
        AreHonest job.now.plan owns bases session → AreInputs job.now.plan owns outside.inputs →
        (p : ℕ) (report : spec.PartyReport) → slice_get reports.items p ≡ Some report →
        map (λ bits. bits.word) report.told ≡ plain_told job.now.plan outside p) }
{
    let _parties = job.plan.parties();
    let graph = RunGraph::new(alloc, &job.plan)?;
    let work = LocalWork {
        job,
        parts,
        graph: &graph,
    };
    let collected = run_pool(rt, alloc, &graph.dag, &work, workers, gate)?;
    let reports = reports(alloc, &job.plan, &collected.ends)?;
    Ok(reports)
}
