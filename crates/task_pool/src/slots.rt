ghost use Rattle.std.specs.Prelude.{◌≡◌, [], ◌≢◌, ℕ, ◌<◌, ◌^◌, Some, None, false, map, length, get_or, replicate, IfOk, OnOk};
ghost use Rattle.turn_core.specs.Graph.{Graph, source, target};
ghost use Rattle.turn_core.specs.Core.{IsIn, size_of};
ghost use Rattle.task_pool.specs.Meanings.{AreMeanings, HasNoOutside, ends_of};
ghost use Rattle.task_pool.specs.Held.{AreBelow, AreDistinct, AreFull, HasMeaning, OthersStay, in_slots};

use crate::shelf::Shelf;
use crate::work::Work;
use mot_base::NoMemory;
use std::alloc::Global;
use std::marker::Model;
use turn_core::{Dag, DrainWork, TERMINAL};

/// A work with a slot for the value on each edge. A value stands in its slot from the turn of the item that gives it to
/// the turn of the item that takes it. Once memory was wanting, items are turned without being run.
#[derive(Drop)]
pub struct Slots<'w, W: Work> {
    alloc: Global,
    work: &'w W,
    dag: &'w Dag,
    slots: Shelf<W::Edge>,
    turned: Vec<bool>,
    /// room for the values on the edges that end at an item
    inputs: Vec<W::Edge>,
    wanting: bool,
}

impl<'w, W: Work> Model for Slots<'w, W> {
    ghost use Rattle.task_pool.specs.Held.{Held, IsHolding};

    ghost Value = { Held W };

    ghost view = { λ s. record {
      work = s.work.now;
      graph = s.dag.now;
      turned = s.turned.items;
      wanting = s.wanting;
    } };

    ghost invariant = { λ s.
        IsHolding (W.graph s.work.now) (W.means s.work.now) s.dag.now s.turned.items s.slots s.wanting };
}

impl<'w, W: Work> Slots<'w, W> {
    /// The work with no item turned. No edge of its graph comes from outside.
    pub fn new(alloc: Global, work: &'w W, dag: &'w Dag) -> Result<Slots<'w, W>, NoMemory>
        requires graph { W.graph work.now ≡ dag.now }
        requires inside { HasNoOutside dag.now }
        ensures work { IfOk result (λ s. s.work ≡ work.now) }
        ensures graph { IfOk result (λ s. s.graph ≡ dag.now) }
        ensures turned { IfOk result (λ s. s.turned ≡ replicate dag.now.items false) }
    {
        let slots = Shelf::new(alloc, dag.edges().len())?;
        let turned = Vec::from_elem(alloc, false, dag.items() as usize)?;
        Ok(Slots {
            alloc,
            work,
            dag,
            slots,
            turned,
            inputs: Vec::new(alloc),
            wanting: false,
        })
    }

    /// The values on the edges that end at no item, in the order of the edges, once all items were turned.
    pub fn ends(self) -> Result<Vec<W::Edge>, NoMemory>
        requires { (k : ℕ) → k < self.graph.items → IsIn self.turned k }
        ensures { IfOk result (λ ends.
            AreMeanings (W.means self.entry.work) (ends_of self.entry.graph) ends.items) }
    {
        if self.wanting {
            return Err(NoMemory);
        }
        let Slots {
            alloc,
            dag,
            mut slots,
            ..
        } = self;
        let edges = edges_at_end(alloc, dag)?;
        let mut ends = Vec::with_capacity(alloc, edges.len())?;
        take_all(&mut slots, &edges, &mut ends)?;
        Ok(ends)
    }
}

impl<'w, W: Work> DrainWork for Slots<'w, W> {
    type Made = W;

    ghost graph = { λ s. s.graph };

    ghost made = { λ s. s.work };

    ghost turned = { λ s. s.turned };

    ghost count = { λ s. size_of s.turned };

    fn turn(&mut self, item: u32) {
        self.turned[item as usize] = true;
        if self.wanting {
            return;
        }
        let ran = run_item(
            self.alloc,
            self.work,
            self.dag,
            &mut self.slots,
            &mut self.inputs,
            item,
        );
        if ran.is_err() {
            self.wanting = true;
        }
    }
}

/// Runs an item on the values in the slots of the edges that end there.
fn run_item<W: Work>(
    alloc: Global,
    work: &W,
    dag: &Dag,
    slots: &mut Shelf<W::Edge>,
    inputs: &mut Vec<W::Edge>,
    item: u32,
) -> Result<(), NoMemory>
    requires graph { W.graph work.now ≡ dag.now }
    requires is_item { item < dag.now.items }
    requires as_many { length slots.old ≡ length dag.now.edges }
    requires inputs { (e : ℕ) → e < length dag.now.edges → target dag.now e ≡ item →
        HasMeaning (W.means work.now) e (get_or slots.old e None) }
    ensures outputs { OnOk result ((e : ℕ) → e < length dag.now.edges → source dag.now e ≡ item →
        HasMeaning (W.means work.now) e (get_or slots.new e None)) }
    ensures others { OnOk result ((e : ℕ) → e < length dag.now.edges →
        source dag.now e ≢ item → target dag.now e ≢ item →
        get_or slots.new e None ≡ get_or slots.old e None) }
    ensures as_many { length slots.new ≡ length slots.old }
{
    inputs.clear();
    take_all(slots, dag.incoming(item), inputs)?;
    let outputs = work.run(alloc, item, inputs)?;
    put_all(slots, dag.outgoing(item), outputs)?;
    Ok(())
}

/// Takes the values out of the slots of some edges, in the order of these edges.
fn take_all<E: Drop>(
    slots: &mut Shelf<E>,
    edges: &[u32],
    values: &mut Vec<E>,
) -> Result<(), NoMemory>
    requires below { AreBelow (length slots.old) edges.now }
    requires distinct { AreDistinct edges.now }
    requires full { AreFull slots.old edges.now }
    requires empty { values.old.items ≡ [] }
    ensures taken { OnOk result (in_slots slots.old edges.now ≡ map Some values.new.items) }
    ensures others { OthersStay edges.now slots.old slots.new }
    ensures as_many { length slots.new ≡ length slots.old }
{
    for edge in edges {
        let Some(value) = slots.take(*edge) else {
            unreachable!();
        };
        values.push(value)?;
    }
    Ok(())
}

/// Puts values into the slots of some edges, in the order of these edges.
fn put_all<E: Drop>(slots: &mut Shelf<E>, edges: &[u32], values: Vec<E>) -> Result<(), NoMemory>
    requires below { AreBelow (length slots.old) edges.now }
    requires distinct { AreDistinct edges.now }
    requires as_many { length values.items ≡ length edges.now }
    ensures put { OnOk result (in_slots slots.new edges.now ≡ map Some values.items) }
    ensures others { OnOk result (OthersStay edges.now slots.old slots.new) }
    ensures as_many { length slots.new ≡ length slots.old }
{
    let mut at = 0;
    for value in values {
        slots.put(edges[at], value)?;
        at += 1;
    }
    Ok(())
}

/// The numbers of the edges that end at no item, in rising order.
fn edges_at_end(alloc: Global, dag: &Dag) -> Result<Vec<u32>, NoMemory>
    requires { length dag.now.edges < 2 ^ 32 }
    ensures { IfOk result (λ edges. edges.items ≡ ends_of dag.now) }
{
    let mut edges = Vec::new(alloc);
    for (number, edge) in dag.edges().iter().enumerate() {
        if edge.target != TERMINAL {
            continue;
        }
        edges.push(number as u32)?;
    }
    Ok(edges)
}
