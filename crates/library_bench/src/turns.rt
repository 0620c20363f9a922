ghost use Rattle.std.specs.Prelude.{◌≡◌, ◌+◌, ◌-◌, ◌*◌, ◌^◌, ◌<◌, ◌≤◌, ◌==◌, false, vec_len, vec_items, IfOk};
ghost use Rattle.std.specs.List.{list_any};
ghost use Rattle.turn_core.specs.declared.edge.TheConstants.{OUTSIDE};
ghost use Rattle.turn_core.specs.Core.{size_of};
ghost use Rattle.library_bench.specs.declared.turns.TheConstants.{MAX_ITEMS};

use mot_base::NoMemory;
use std::alloc::{AllocError, Global};
use std::marker::Brand;
use std::sync::ledger::{Blank, Ledger};
use turn_core::{Dag, DagError, DrainWork, Edge, OUTSIDE, Steps, TERMINAL, Turns};

const MAX_ITEMS: u32 = 1_000_000_000;

/// Makes a graph of that many items, of `MAX_ITEMS` at most, and gives how many edges end at the last one.
pub(crate) fn make_graph(alloc: Global, items: u32) -> Result<u64, DagError> {
    let dag = graph(alloc, items.min(MAX_ITEMS))?;
    let Some(last) = dag.items().checked_sub(1) else {
        return Ok(0);
    };
    Ok(dag.incoming(last).len() as u64)
}

/// Makes the same graph, and runs it to the end by a work that only counts. Gives the number of turns.
pub(crate) fn drain_graph(alloc: Global, items: u32) -> Result<u64, DagError> {
    let dag = graph(alloc, items.min(MAX_ITEMS))?;
    if has_outside(dag.edges()) {
        return Ok(0);
    }
    match drain::<Brand>(alloc, &dag, Blank::new(1)) {
        Ok(turns) => Ok(turns),
        Err(NoMemory) => Err(DagError::NoMemory),
    }
}

/// A graph of that many items. From each item one edge leads to the next one, and one to any of those that
/// stand behind it.
fn graph(alloc: Global, items: u32) -> Result<Dag, DagError>
    requires { items ≤ MAX_ITEMS }
{
    let edges = edges(alloc, items)?;
    let dag = Dag::new(alloc, items, edges)?;
    Ok(dag)
}

fn edges(alloc: Global, items: u32) -> Result<Vec<Edge>, AllocError>
    requires { items ≤ MAX_ITEMS }
    ensures { IfOk result (λ edges. vec_len edges ≡ 2 * items) }
{
    let mut edges = Vec::with_capacity(alloc, items as usize * 2)?;
    for source in 0..items {
        let behind = items - source - 1;
        edges.push(Edge {
            source,
            target: ahead(source, behind, 0),
        })?;
        edges.push(Edge {
            source,
            target: ahead(source, behind, source.wrapping_mul(2_654_435_769)),
        })?;
    }
    Ok(edges)
}

/// An item among those that stand behind the source, or the end where there is none.
fn ahead(source: u32, behind: u32, number: u32) -> u32
    requires { source + behind < 2 ^ 32 - 1 }
{
    if behind == 0 {
        return TERMINAL;
    }
    source + 1 + number % behind
}

fn has_outside(edges: &[Edge]) -> bool
    ensures { result ≡ list_any (λ edge. edge.source == OUTSIDE) edges.now }
{
    edges.iter().any(|edge| edge.source == OUTSIDE)
}

/// A work that counts its turns.
#[derive(Drop)]
struct Counting<'d> {
    dag: &'d Dag,
    turned: Vec<bool>,
    turns: u64,
    ghost as_many: { vec_len turned ≡ dag.now.items },
}

impl<'d> DrainWork for Counting<'d> {
    type Made = ();

    ghost graph = { λ counting. counting.dag.now };

    ghost made = { λ counting. tt };

    ghost turned = { λ counting. vec_items counting.turned };

    ghost count = { λ counting. size_of (vec_items counting.turned) };

    fn turn(&mut self, item: u32) {
        self.turned[item as usize] = true;
        self.turns = self.turns.wrapping_add(1);
    }
}

/// Runs a graph to the end, and gives how many turns its work counted.
fn drain<L: Ledger>(alloc: Global, dag: &Dag, blank: Blank) -> Result<u64, NoMemory>
    requires name { blank.name ≡ L.name }
    requires parts { blank.parts ≡ L.parts }
    requires some { 0 < L.parts }
    requires inside { list_any (λ edge. edge.source == OUTSIDE) dag.now.edges ≡ false }
{
    let mut work = Counting {
        dag,
        turned: Vec::from_elem(alloc, false, dag.items() as usize)?,
        turns: 0,
    };
    let mut turns = Turns::new(alloc, dag)?;
    let mut steps = Steps::<L>::new(blank);
    turns.drain(&mut work, &mut steps);
    Ok(work.turns)
}
