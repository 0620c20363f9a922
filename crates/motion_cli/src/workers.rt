//! The workers that run all parties of a job.

ghost use Rattle.std.specs.Prelude.{◌≡◌, ◌≤◌, ℕ, map, slice_get, Some, IfOk};
ghost use Rattle.mot_base.specs.Limits.{most_workers};
ghost use Rattle.share_types.specs.declared.needs.Needs.{Needs};
ghost use Rattle.plan_gates.specs.Plain.{Outside};
ghost use Rattle.joint_run.specs.Joint.{Payloads, IsJoint};
ghost use Rattle.joint_run.specs.Honest.{AreHonest, AreInputs};
ghost use Rattle.gate_tasks.specs.declared.report.PartyReport as spec;
ghost use Rattle.local_run.specs.Job.{IsJob};
ghost use Rattle.local_run.specs.Meaning.{owns_with};
ghost use Rattle.local_run.specs.Report.{AreReports, plain_told};

use dealer_files::DealerPart;
use local_engine::{LocalJob, PartyReport, local_pool, local_turns};
use mot_base::{NoMemory, Turnstile};
use std::alloc::Global;
use std::thread::Threads;

/// Runs all parties of a job by so many workers: on this thread where there is one, and by the pool where there are more.
/// The reports are those of the joint run, whoever runs it.
pub(crate) fn run_job<R: Threads + Sync, G: Turnstile + Sync>(
    rt: &R,
    alloc: Global,
    job: &LocalJob,
    parts: &[DealerPart],
    workers: u8,
    gate: &G,
) -> Result<Vec<PartyReport>, NoMemory>
    requires job { IsJob job.now.plan job.now.owns.items parts.now }
    requires workers { (1 ≤ workers) × (workers ≤ most_workers) }
    ensures joint { let owns = owns_with job.now.owns.items parts.now in
        IfOk result (λ reports. (table : Payloads) → IsJoint job.now.plan owns table →
        AreReports job.now.plan owns table reports.items) }
    ensures plain { let owns = owns_with job.now.owns.items parts.now in
        IfOk result (λ reports. (bases : Needs) (session : ℕ) (outside : Outside) →
        AreHonest job.now.plan owns bases session → AreInputs job.now.plan owns outside.inputs →
        (p : ℕ) (report : spec.PartyReport) → slice_get reports.items p ≡ Some report →
        map (λ bits. bits.word) report.told ≡ plain_told job.now.plan outside p) }
{
    if workers == 1 {
        local_turns(alloc, job, parts)
    } else {
        local_pool(rt, alloc, job, parts, workers, gate)
    }
}
