ghost use Rattle.std.specs.Prelude.{◌≡◌, ◌⊎◌, ◌+◌, ◌<◌, ◌≤◌, ◌^◌, ℕ, List, not, length, map, get_or, true, false, IfOk, IfSome, IfNone};
ghost use Rattle.std.specs.List.{count_by};
ghost use Rattle.turn_core.specs.declared.edge.TheConstants.{OUTSIDE};
ghost use Rattle.turn_core.specs.Graph.{source, outgoing};
ghost use Rattle.turn_core.specs.Core.{Core, Event, Arrives, HandsOut, Leaves, IsIn, IsOut, with_one, left_of, May, after, after_all, at_start, Leads, IsReady, IsCore, MarksFrom, IsSettled};
ghost use Rattle.turn_core.specs.Counters.{AreMissing, IsQueue};
ghost use Rattle.turn_core.specs.Runs.{hands_out};

use crate::dag::Dag;
use crate::edge::TERMINAL;
use crate::steps::Steps;
use crate::work::DrainWork;
use mot_base::NoMemory;
use std::alloc::{AllocError, Global};
use std::marker::Model;
use std::sync::ledger::Ledger;

/// The core over a graph: which edges are marked, and which items were handed out. It takes 9 bytes for
/// each item and 1 for each edge.
#[derive(Drop)]
pub struct Turns<'d> {
    dag: &'d Dag,
    marked: Vec<bool>,
    handed: Vec<bool>,
    /// how many edges to each item are not marked
    missing: Vec<u32>,
    /// its first `len` places have the items that may be handed out, and some that were
    queue: Vec<u32>,
    len: usize,
    /// the item behind the one that was handed out last
    behind: u32,
}

impl<'d> Model for Turns<'d> {
    ghost use Rattle.turn_core.specs.Core.{Core};
    ghost use Rattle.turn_core.specs.Counters.{IsTied};

    ghost Value = { Core };

    ghost view = { λ t. record { graph = t.dag.now; marked = t.marked.items; handed = t.handed.items } };

    ghost invariant = { λ t.
        IsTied (record { graph = t.dag.now; marked = t.marked.items; handed = t.handed.items })
        t.missing.items t.queue.items t.len };
}

impl<'d> Turns<'d> {
    /// The core with no edge marked and no item handed out. It takes all the memory that the other calls
    /// need.
    pub fn new(alloc: Global, dag: &'d Dag) -> Result<Turns<'d>, NoMemory>
        ensures { IfOk result (λ turns. turns ≡ at_start dag.now) }
    {
        let marked = Vec::from_elem(alloc, false, dag.edges().len())?;
        let handed = Vec::from_elem(alloc, false, dag.items() as usize)?;
        let missing = missing_at_start(alloc, dag)?;
        let (queue, len) = ready_at_start(alloc, &missing)?;
        Ok(Turns {
            dag,
            marked,
            handed,
            missing,
            queue,
            len,
            behind: 0,
        })
    }

    /// What holds of every core: some events lead to it from the empty state.
    pub fn is_core(&self)
        ensures { IsCore self.now }
    {
        let _ = &self.dag;
    }

    /// Marks an edge that comes from outside. False where it was marked.
    pub fn arrive(&mut self, edge: u32) -> bool
        requires is_edge { edge < length self.old.graph.edges }
        requires outside { source self.old.graph edge ≡ OUTSIDE }
        ensures told { result ≡ not (get_or self.old.marked edge false) }
        ensures after { self.new ≡ after self.old (Arrives edge) }
    {
        self.mark(edge)
    }

    /// Hands out an item that has all its edges and was not handed out. Which one is free. It is the one behind the one
    /// before wherever that may be, so that a core that is drained goes over its graph in order.
    pub fn next(&mut self) -> Option<u32>
        ensures ready { IfSome result (λ item. IsReady self.old item) }
        ensures after { IfSome result (λ item. self.new ≡ after self.old (HandsOut item)) }
        ensures none { IfNone result ((item : ℕ) → IsReady self.old item → ⊥) }
        ensures same { IfNone result (self.new ≡ self.old) }
    {
        if self.is_free(self.behind) {
            let item = self.behind;
            self.hand_out(item);
            return Some(item);
        }
        let item = self.queued()?;
        self.hand_out(item);
        Some(item)
    }

    /// Marks the edges that start at an item that was handed out.
    pub fn done(&mut self, item: u32)
        requires is_item { item < self.old.graph.items }
        requires handed { IsIn self.old.handed item }
        ensures after { self.new ≡ after_all self.old (map Leaves (outgoing self.old.graph item)) }
        ensures marks { MarksFrom self.old self.new item }
    {
        let dag = self.dag;
        for edge in dag.outgoing(item) {
            self.mark(*edge);
        }
    }

    /// Hands out, turns and ends each item that is left, one after another. Gives the number of turns.
    pub fn drain<W: DrainWork, L: Ledger>(&mut self, work: &mut W, steps: &mut Steps<L>) -> u32
        requires graph { W.graph work.old ≡ self.old.graph }
        requires turned { W.turned work.old ≡ self.old.handed }
        requires settled { IsSettled self.old }
        ensures number { result ≡ left_of self.old.handed }
        ensures steps { steps.new ≡ steps.old + left_of self.old.handed }
        ensures count { W.count work.new ≡ W.count work.old + left_of self.old.handed }
        ensures once { (events : List Event) × Leads self.old events self.new ×
            ((k : ℕ) → k < self.old.graph.items → IsOut self.old.handed k →
            count_by (hands_out k) events ≡ 1) }
        ensures handed { (k : ℕ) → k < self.old.graph.items → IsIn self.new.handed k }
        ensures settled { IsSettled self.new }
        ensures turned { W.turned work.new ≡ self.new.handed }
        ensures graph { W.graph work.new ≡ W.graph work.old }
        ensures made { W.made work.new ≡ W.made work.old }
    {
        self.is_core();
        let mut turns = 0;
        loop {
            let Some(item) = self.next() else {
                return turns;
            };
            work.turn(item);
            steps.tick();
            self.done(item);
            turns += 1;
        }
    }

    /// Whether there is an item of that number that may be handed out.
    fn is_free(&self, item: u32) -> bool
        ensures { result ≡ true → IsReady self.now item }
    {
        let place = item as usize;
        if place >= self.missing.len() || self.missing[place] > 0 {
            return false;
        }
        !self.handed[place]
    }

    /// The last item of the queue that may be handed out.
    fn queued(&mut self) -> Option<u32>
        ensures ready { IfSome result (λ item. IsReady self.old item) }
        ensures none { IfNone result ((item : ℕ) → IsReady self.old item → ⊥) }
        ensures same { self.new ≡ self.old }
    {
        self.len = places_left(&self.queue, self.len, &self.handed);
        if self.len == 0 {
            return None;
        }
        Some(self.queue[self.len - 1])
    }

    /// Hands out an item that may be.
    fn hand_out(&mut self, item: u32)
        requires { IsReady self.old item }
        ensures { self.new ≡ after self.old (HandsOut item) }
    {
        self.handed[item as usize] = true;
        self.behind = item + 1;
    }

    /// Marks an edge. False where it was marked.
    fn mark(&mut self, edge: u32) -> bool
        requires { May self.old (Arrives edge) ⊎ May self.old (Leaves edge) }
        ensures told { result ≡ not (get_or self.old.marked edge false) }
        ensures after { self.new ≡ record self.old { marked = with_one self.old.marked edge } }
    {
        let place = edge as usize;
        if self.marked[place] {
            return false;
        }
        self.marked[place] = true;
        let target = self.dag.target(edge);
        if target == TERMINAL {
            return true;
        }
        let item = target as usize;
        let left = self.missing[item] - 1;
        self.missing[item] = left;
        if left > 0 {
            return true;
        }
        self.queue[self.len] = target;
        self.len += 1;
        true
    }
}

/// How many places of a queue are left without the items at its end that were handed out.
fn places_left(queue: &[u32], len: usize, handed: &[bool]) -> usize
    requires places { len ≤ length queue.now }
    requires items { (i : ℕ) → i < len → get_or queue.now i 0 < length handed.now }
    ensures fewer { result ≤ len }
    ensures dropped { (i : ℕ) → result ≤ i → i < len → IsIn handed.now (get_or queue.now i 0) }
    ensures last { (i : ℕ) → result ≡ i + 1 → IsOut handed.now (get_or queue.now i 0) }
{
    let mut left = len;
    while left > 0 && handed[queue[left - 1] as usize] {
        left -= 1;
    }
    left
}

/// How many edges end at each item.
fn missing_at_start(alloc: Global, dag: &Dag) -> Result<Vec<u32>, AllocError>
    ensures { IfOk result (λ missing. AreMissing dag.now missing.items) }
{
    let items = dag.items();
    let mut missing = Vec::with_capacity(alloc, items as usize)?;
    for item in 0..items {
        missing.push(dag.incoming(item).len() as u32)?;
    }
    Ok(missing)
}

/// The items to which no edge leads, at the first places of a queue with a place for each item, and how
/// many they are.
fn ready_at_start(alloc: Global, missing: &[u32]) -> Result<(Vec<u32>, usize), AllocError>
    requires { length missing.now < 2 ^ 32 }
    ensures { IfOk result (λ ready. IsQueue missing.now ready.0.items ready.1) }
{
    let mut queue = Vec::from_elem(alloc, 0u32, missing.len())?;
    let mut len = 0;
    for (item, count) in missing.iter().enumerate() {
        if *count > 0 {
            continue;
        }
        queue[len] = item as u32;
        len += 1;
    }
    Ok((queue, len))
}
