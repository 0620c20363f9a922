ghost use Rattle.std.specs.Prelude.{◌≡◌, ◌<◌, ◌≤◌, ◌+◌, IfOk, OnOk};
ghost use Rattle.task_pool.specs.Meanings.{AreMeanings, HasNoOutside, ends_of};

use crate::slots::Slots;
use crate::work::Work;
use mot_base::NoMemory;
use std::alloc::Global;
use std::marker::Brand;
use std::sync::ledger::{Blank, Ledger};
use turn_core::{Dag, Steps, Turns};

/// Runs all items of a graph one after another, and gives the values on the edges that end at no item, in the order of
/// the edges. No edge comes from outside.
pub fn run_turns<W: Work>(alloc: Global, dag: &Dag, work: &W) -> Result<Vec<W::Edge>, NoMemory>
    requires graph { W.graph work.now ≡ dag.now }
    requires inside { HasNoOutside dag.now }
    ensures { IfOk result (λ ends. AreMeanings (W.means work.now) (ends_of dag.now) ends.items) }
{
    run_with::<W, Brand>(alloc, dag, work, Blank::new(1))
}

/// The same with a ledger for the steps.
fn run_with<W: Work, L: Ledger>(
    alloc: Global,
    dag: &Dag,
    work: &W,
    blank: Blank,
) -> Result<Vec<W::Edge>, NoMemory>
    requires graph { W.graph work.now ≡ dag.now }
    requires inside { HasNoOutside dag.now }
    requires name { blank.name ≡ L.name }
    requires parts { blank.parts ≡ L.parts }
    requires some { 0 < L.parts }
    ensures { IfOk result (λ ends. AreMeanings (W.means work.now) (ends_of dag.now) ends.items) }
{
    let mut steps = Steps::<L>::new(blank);
    run_turns_counted(alloc, dag, work, &mut steps)
}

/// The same, and takes one step for each item.
pub fn run_turns_counted<W: Work, L: Ledger>(
    alloc: Global,
    dag: &Dag,
    work: &W,
    steps: &mut Steps<L>,
) -> Result<Vec<W::Edge>, NoMemory>
    requires graph { W.graph work.now ≡ dag.now }
    requires inside { HasNoOutside dag.now }
    ensures ends { IfOk result (λ ends. AreMeanings (W.means work.now) (ends_of dag.now) ends.items) }
    ensures steps { OnOk result (steps.new ≡ steps.old + dag.now.items) }
    ensures most { steps.new ≤ steps.old + dag.now.items }
{
    let mut slots = Slots::new(alloc, work, dag)?;
    let mut turns = Turns::new(alloc, dag)?;
    turns.drain(&mut slots, steps);
    slots.ends()
}
