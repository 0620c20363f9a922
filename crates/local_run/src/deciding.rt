//! Whether a run has what its plan asks for.

ghost use Rattle.std.specs.Prelude.{◌≡◌, ◌↔◌, true, ℕ, length, slice_get, Some};
ghost use Rattle.dealer_files.specs.Part.{Part};
ghost use Rattle.joint_run.specs.declared.own.Own as brought;
ghost use Rattle.gate_tasks.specs.Serving.{ServeParty};
ghost use Rattle.local_run.specs.Job.{IsJob};

use crate::job::LocalJob;
use dealer_files::DealerPart;
use gate_tasks::serves_party;
use mot_base::Party;

impl LocalJob {
    /// Whether what the parties bring and these parts of a deal serve the plan, as `local_turns` asks.
    pub fn is_job(&self, parts: &[DealerPart]) -> bool
        ensures { (result ≡ true) ↔ IsJob self.now.plan self.now.owns.items parts.now }
    {
        let parties = usize::from(self.plan.parties());
        if self.owns.len() != parties || parts.len() != parties || self.plan.has_keys() {
            return false;
        }
        serves_all(self, parts)
    }
}

/// Whether each party is served by what it brings and by its part.
fn serves_all(job: &LocalJob, parts: &[DealerPart]) -> bool
    requires owns { length job.now.owns.items ≡ job.now.plan.parties }
    requires parts { length parts.now ≡ job.now.plan.parties }
    ensures { (result ≡ true) ↔ ((p : ℕ) (own : brought.Own) (part : Part) →
        slice_get job.now.owns.items p ≡ Some own → slice_get parts.now p ≡ Some part →
        ServeParty job.now.plan p own part) }
{
    for party in 0..job.plan.parties() {
        let at = usize::from(party);
        if !serves_party(&job.plan, Party(party), &job.owns[at], &parts[at]) {
            return false;
        }
    }
    true
}
