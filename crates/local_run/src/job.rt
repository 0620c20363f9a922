//! Runs that are asked for.

ghost use Rattle.std.specs.Prelude.{◌≡◌, length, None, IfOk};
ghost use Rattle.circuit_tables.specs.Values.{HaveWidths};
ghost use Rattle.local_run.specs.OneSeed.{own_flags, own_of, owns_of};

use circuit_tables::{InputTable, Values};
use gate_tasks::Own;
use mot_base::{NoMemory, Party, Seed, derive};
use plan_gates::Plan;
use share_types::Needs;
use std::alloc::Global;

/// A run of all parties of a plan, each with what it brings, in the order of the parties.
#[derive(Debug, Drop)]
pub struct LocalJob {
    pub plan: Plan,
    pub owns: Vec<Own>,
}

impl LocalJob {
    /// The run of a plan where each party has the seed that is derived from one seed under its number, and the
    /// values of its own inputs alone. The session is 0, and each party's part of a deal is used from the first
    /// record on.
    pub fn of_seed(
        alloc: Global,
        plan: Plan,
        seed: &Seed,
        inputs: &InputTable,
        values: &Values,
    ) -> Result<LocalJob, NoMemory>
        requires { HaveWidths None inputs.now values.now }
        ensures plan { IfOk result (λ job. job.plan ≡ plan) }
        ensures owns { IfOk result (λ job.
            job.owns.items ≡ owns_of seed.now.0 plan.parties inputs.now values.now) }
    {
        let parties = plan.parties();
        let mut owns = Vec::with_capacity(alloc, parties as usize)?;
        for party in 0..parties {
            let own = own_of(alloc, seed, inputs, values, Party(party))?;
            owns.push(own)?;
        }
        Ok(LocalJob { plan, owns })
    }
}

/// What a party brings.
fn own_of(
    alloc: Global,
    seed: &Seed,
    inputs: &InputTable,
    values: &Values,
    party: Party,
) -> Result<Own, NoMemory>
    requires { length values.now ≡ length inputs.now }
    ensures { IfOk result (λ own. own ≡ own_of seed.now.0 inputs.now values.now party.0) }
{
    let wanted = own_flags(alloc, inputs, party)?;
    let own = values.keep(alloc, &wanted)?;
    Ok(Own {
        me: party,
        seed: derive(seed, party.0),
        inputs: own,
        session: 0,
        bases: Needs {
            mult: 0,
            bit: 0,
            shared: 0,
            key: 0,
        },
    })
}

/// Which of the inputs are a party's own.
fn own_flags(alloc: Global, inputs: &InputTable, party: Party) -> Result<Vec<bool>, NoMemory>
    ensures { IfOk result (λ flags. flags.items ≡ own_flags inputs.now party.0) }
{
    let mut flags = Vec::with_capacity(alloc, inputs.len() as usize)?;
    for at in 0..inputs.len() {
        flags.push(inputs.party(at) == party)?;
    }
    Ok(flags)
}
