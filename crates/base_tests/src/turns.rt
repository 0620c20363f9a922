//! Graphs of a few items, handed out by hand and run to the end.
ghost use Rattle.std.specs.Prelude.{◌≡◌, ◌<◌, ◌==◌, false, length, vec_len, vec_items};
ghost use Rattle.std.specs.List.{list_any};
ghost use Rattle.turn_core.specs.declared.edge.TheConstants.{OUTSIDE};
ghost use Rattle.turn_core.specs.Core.{size_of};

use mot_base::NoMemory;
use std::alloc::Global;
use std::marker::Brand;
use std::sync::ledger::{Blank, Ledger};
use turn_core::{Dag, DagError, DrainWork, Edge, OUTSIDE, Steps, TERMINAL, Turns};

// item 1 waits for item 0
static PAIR: [(u32, u32); 2] = [(0, 1), (1, TERMINAL)];

// whether item 1 is handed out behind item 0 alone
fn waits(turns: &mut Turns) -> bool {
    let Some(first) = turns.next() else {
        return false;
    };
    if turns.next().is_some() {
        return false;
    }
    turns.done(first);
    first == 0 && turns.next() == Some(1) && turns.next().is_none()
}

fn is_turned(alloc: Global, dag: &Dag) -> bool {
    match Turns::new(alloc, dag) {
        Ok(mut turns) => waits(&mut turns),
        Err(_) => false,
    }
}

#[test]
fn an_item_waits_for_the_one_before_it(rt: HostRuntime) {
    let is_waiting = match graph(rt.alloc(), 2, &PAIR) {
        Ok(dag) => is_turned(rt.alloc(), &dag),
        Err(_) => false,
    };
    assert!(rt; is_waiting);
}

// item 0 waits for an edge from outside
static FED: [(u32, u32); 2] = [(OUTSIDE, 0), (0, TERMINAL)];

// whether item 0 is handed out behind the edge alone, which comes once
fn waits_for_the_edge(turns: &mut Turns, dag: &Dag) -> bool
    requires { turns.old.graph ≡ dag.now }
{
    turns.next().is_none()
        && arrive(turns, dag, 0) == Some(true)
        && arrive(turns, dag, 0) == Some(false)
        && turns.next() == Some(0)
        && turns.next().is_none()
}

fn is_held_back(alloc: Global, dag: &Dag) -> bool {
    match Turns::new(alloc, dag) {
        Ok(mut turns) => waits_for_the_edge(&mut turns, dag),
        Err(_) => false,
    }
}

#[test]
fn an_edge_from_outside_holds_its_item_back(rt: HostRuntime) {
    let is_held_back = match graph(rt.alloc(), 1, &FED) {
        Ok(dag) => is_held_back(rt.alloc(), &dag),
        Err(_) => false,
    };
    assert!(rt; is_held_back);
}

// so many items, edges, and why they make no graph
static GRAPHS: [(u32, &[(u32, u32)], Result<(), DagError>); 9] = [
    (0, &[], Ok(())),
    (1, &[(OUTSIDE, TERMINAL)], Ok(())),
    (2, &[(0, 1), (1, TERMINAL)], Ok(())),
    (2, &[(1, 0)], Err(DagError::NotForward(0))),
    (2, &[(0, 1), (1, 1)], Err(DagError::NotForward(1))),
    (2, &[(1, 0), (0, 2)], Err(DagError::BadEnd(1))),
    (2, &[(0, 1), (2, 1)], Err(DagError::BadEnd(1))),
    (0, &[(0, TERMINAL)], Err(DagError::BadEnd(0))),
    (3, &[(3, 0), (2, 1)], Err(DagError::BadEnd(0))),
];

fn is_graph(alloc: Global, items: u32, pairs: &[(u32, u32)], wanted: Result<(), DagError>) -> bool {
    if pairs.len() >= 100 {
        return false;
    }
    match graph(alloc, items, pairs) {
        Ok(_) => wanted.is_ok(),
        Err(error) => wanted == Err(error),
    }
}

// the number of the first graph that is refused, or not, for another cause
fn wrong_graph(
    alloc: Global,
    rows: &[(u32, &[(u32, u32)], Result<(), DagError>)],
) -> Option<usize> {
    for (at, (items, pairs, wanted)) in rows.iter().enumerate() {
        if !is_graph(alloc, *items, pairs, *wanted) {
            return Some(at);
        }
    }
    None
}

#[test]
fn the_first_edge_in_the_way_is_named(rt: HostRuntime) {
    let wrong = wrong_graph(rt.alloc(), &GRAPHS);
    assert!(rt; wrong.is_none(), "graph {wrong:?}");
}

// item 0 leads to 1 and 2, these to 3, and there are two edges from 0 to 2
static DIAMOND: [(u32, u32); 6] = [(0, 2), (2, 3), (0, 1), (1, 3), (0, 2), (3, TERMINAL)];

// an item, and the numbers of the edges that start and that end there
static LISTS: [(u32, &[u32], &[u32]); 4] = [
    (0, &[0, 2, 4], &[]),
    (1, &[3], &[2]),
    (2, &[1], &[0, 4]),
    (3, &[5], &[1, 3]),
];

fn ends_with(edges: &[Edge], source: u32, target: u32) -> bool {
    match edges.last() {
        Some(edge) => edge.source == source && edge.target == target,
        None => false,
    }
}

fn has_edges(dag: &Dag, item: u32, outgoing: &[u32], incoming: &[u32]) -> bool {
    item < dag.items() && dag.outgoing(item) == outgoing && dag.incoming(item) == incoming
}

// the first item with other edges
fn wrong_item(dag: &Dag, rows: &[(u32, &[u32], &[u32])]) -> Option<u32> {
    for (item, outgoing, incoming) in rows {
        if !has_edges(dag, *item, outgoing, incoming) {
            return Some(*item);
        }
    }
    None
}

fn are_edges_of_the_diamond(dag: &Dag) -> bool {
    dag.edges().len() == 6
        && ends_with(dag.edges(), 3, TERMINAL)
        && wrong_item(dag, &LISTS).is_none()
}

#[test]
fn the_edges_of_an_item_stand_in_rising_order(rt: HostRuntime) {
    let are_listed = match graph(rt.alloc(), 4, &DIAMOND) {
        Ok(dag) => are_edges_of_the_diamond(&dag),
        Err(_) => false,
    };
    assert!(rt; are_listed);
}

fn is_order_of_the_pair(order: &[u32]) -> bool {
    order == [0, 1].as_slice()
}

fn turns_the_pair(alloc: Global, dag: &Dag) -> bool {
    match drain(alloc, dag) {
        Ok((turns, order)) => turns == 2 && is_order_of_the_pair(&order),
        Err(_) => false,
    }
}

fn is_order_of_the_diamond(order: &[u32]) -> bool {
    match order {
        [0, first, second, 3] => (*first == 1 && *second == 2) || (*first == 2 && *second == 1),
        _ => false,
    }
}

fn turns_the_diamond(alloc: Global, dag: &Dag) -> bool {
    match drain(alloc, dag) {
        Ok((turns, order)) => turns == 4 && is_order_of_the_diamond(&order),
        Err(_) => false,
    }
}

#[test]
fn each_item_is_turned_once_behind_those_that_lead_to_it(rt: HostRuntime) {
    let turns_the_pair = match graph(rt.alloc(), 2, &PAIR) {
        Ok(pair) => turns_the_pair(rt.alloc(), &pair),
        Err(_) => false,
    };
    let turns_the_diamond = match graph(rt.alloc(), 4, &DIAMOND) {
        Ok(diamond) => turns_the_diamond(rt.alloc(), &diamond),
        Err(_) => false,
    };
    assert!(rt; turns_the_pair && turns_the_diamond);
}

/// A graph of so many items and of edges from one item to another.
fn graph(alloc: Global, items: u32, pairs: &[(u32, u32)]) -> Result<Dag, DagError>
    requires { length pairs.now < 100 }
{
    let mut edges = Vec::with_capacity(alloc, pairs.len())?;
    for (source, target) in pairs {
        edges
            .push(Edge {
                source: *source,
                target: *target,
            })
            .map_err(|_| DagError::NoMemory)?;
    }
    let dag = Dag::new(alloc, items, edges)?;
    Ok(dag)
}

/// Marks an edge, where there is one of this number and it comes from outside.
fn arrive(turns: &mut Turns, dag: &Dag, number: u32) -> Option<bool>
    requires { turns.old.graph ≡ dag.now }
    ensures { turns.new.graph ≡ turns.old.graph }
{
    let edge = dag.edges().get(number as usize)?;
    if edge.source != OUTSIDE {
        return None;
    }
    Some(turns.arrive(number))
}

/// A work that notes the order in which items are turned.
#[derive(Drop)]
struct Noting<'d> {
    dag: &'d Dag,
    turned: Vec<bool>,
    order: Vec<u32>,
    ghost as_many: { vec_len turned ≡ dag.now.items },
}

impl<'d> DrainWork for Noting<'d> {
    type Made = ();

    ghost graph = { λ noting. noting.dag.now };

    ghost made = { λ noting. tt };

    ghost turned = { λ noting. vec_items noting.turned };

    ghost count = { λ noting. size_of (vec_items noting.turned) };

    fn turn(&mut self, item: u32) {
        self.turned[item as usize] = true;
        let _ = self.order.push(item);
    }
}

/// Whether an edge comes from outside.
fn has_outside(edges: &[Edge]) -> bool
    ensures { result ≡ list_any (λ edge. edge.source == OUTSIDE) edges.now }
{
    edges.iter().any(|edge| edge.source == OUTSIDE)
}

/// Runs a graph without edges from outside to the end, and gives the number of turns and the order.
fn drain(alloc: Global, dag: &Dag) -> Result<(u32, Vec<u32>), NoMemory> {
    if has_outside(dag.edges()) {
        return Ok((0, Vec::new(alloc)));
    }
    drain_counted::<Brand>(alloc, dag, Blank::new(1))
}

fn drain_counted<L: Ledger>(
    alloc: Global,
    dag: &Dag,
    blank: Blank,
) -> Result<(u32, Vec<u32>), NoMemory>
    requires name { blank.name ≡ L.name }
    requires parts { blank.parts ≡ L.parts }
    requires some { 0 < L.parts }
    requires inside { list_any (λ edge. edge.source == OUTSIDE) dag.now.edges ≡ false }
{
    let mut work = Noting {
        dag,
        turned: Vec::from_elem(alloc, false, dag.items() as usize)?,
        order: Vec::new(alloc),
    };
    let mut turns = Turns::new(alloc, dag)?;
    let mut steps = Steps::<L>::new(blank);
    let count = turns.drain(&mut work, &mut steps);
    Ok((count, work.order))
}
