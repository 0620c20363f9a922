ghost use Rattle.std.specs.Prelude.{◌≡◌, ◌↔◌, ℕ, ◌+◌, ◌<◌, ◌^◌, length, map, vec_len, Some, None, IfOk, IsErrOf};
ghost use Rattle.turn_core.specs.Graph.{Graph, IsSound, target, outgoing, incoming, has_bad_end, goes_back, first_bad_end, first_back};
ghost use Rattle.turn_core.specs.Groups.{IsGrouped};

use crate::edge::{Edge, OUTSIDE, TERMINAL};
use crate::groups::Groups;
use std::alloc::{AllocError, Global};
use std::marker::Model;
use thiserror::Error;

/// Items, numbered from 0, and edges between them, each of which leads to an item with a higher number
/// than the one where it starts. Some edges come from outside, and some end at no item. It takes 8 bytes
/// for each item, and 16 for each edge.
#[derive(Drop)]
pub struct Dag {
    items: u32,
    edges: Vec<Edge>,
    outgoing: Groups,
    incoming: Groups,
}

impl Model for Dag {
    ghost use Rattle.turn_core.specs.Graph.{Graph, IsSound, sources, targets};
    ghost use Rattle.turn_core.specs.Groups.{IsGrouped};

    ghost Value = { Graph };

    ghost view = { λ dag. record { items = dag.items; edges = dag.edges.items } };

    ghost invariant = { λ dag.
        let g : Graph = record { items = dag.items; edges = dag.edges.items } in
        IsSound g × IsGrouped g.items (sources g) dag.outgoing.starts.items dag.outgoing.list.items
        × IsGrouped g.items (targets g) dag.incoming.starts.items dag.incoming.list.items };
}

/// Why edges make no graph. The number is that of the edge.
#[derive(Clone, Copy, Debug, PartialEq, Eq, Error)]
pub enum DagError {
    /// The first edge that starts or ends at what is neither an item nor outside.
    #[error("edge {0} starts or ends at no item")]
    BadEnd(u32),
    /// The first edge between items that does not lead to a higher number.
    #[error("edge {0} does not lead forward")]
    NotForward(u32),
    #[error("out of memory")]
    NoMemory,
}

impl From<AllocError> for DagError {
    ghost from_gives = { λ _ e. e ≡ NoMemory };

    ghost use Rattle.turn_core.specs.declared.dag.DagError.TheVariants.{NoMemory};

    fn from(_error: AllocError) -> DagError {
        DagError::NoMemory
    }
}

impl Dag {
    /// The graph of so many items and these edges.
    pub fn new(alloc: Global, items: u32, edges: Vec<Edge>) -> Result<Dag, DagError>
        requires few { vec_len edges + 1 < 2 ^ 32 }
        ensures made { IfOk result (λ dag. dag ≡ record { items = items; edges = edges.items }) }
        ensures sound { IfOk result (λ dag. IsSound dag) }
        ensures bad_end { (e : ℕ) →
            IsErrOf result (DagError.BadEnd e) ↔ (first_bad_end items edges.items ≡ Some e) }
        ensures not_forward { (e : ℕ) →
            IsErrOf result (DagError.NotForward e) ↔
            ((first_bad_end items edges.items ≡ None) × (first_back items edges.items ≡ Some e)) }
    {
        if let Some(edge) = find_bad_end(items, &edges) {
            return Err(DagError::BadEnd(edge as u32));
        }
        if let Some(edge) = find_back(items, &edges) {
            return Err(DagError::NotForward(edge as u32));
        }
        let dag = Dag::of_sound(alloc, items, edges)?;
        Ok(dag)
    }

    /// The graph, where no edge stands against it.
    fn of_sound(alloc: Global, items: u32, edges: Vec<Edge>) -> Result<Dag, AllocError>
        requires few { vec_len edges + 1 < 2 ^ 32 }
        requires ends { first_bad_end items edges.items ≡ None }
        requires forward { first_back items edges.items ≡ None }
        ensures made { IfOk result (λ dag. dag ≡ record { items = items; edges = edges.items }) }
        ensures sound { IfOk result (λ dag. IsSound dag) }
    {
        let outgoing = by_source(alloc, items, &edges)?;
        let incoming = by_target(alloc, items, &edges)?;
        Ok(Dag {
            items,
            edges,
            outgoing,
            incoming,
        })
    }

    /// How many items there are.
    pub fn items(&self) -> u32
        ensures count { result ≡ self.now.items }
        ensures sound { IsSound self.now }
    {
        self.items
    }

    /// The edges, by their numbers.
    pub fn edges(&self) -> &[Edge]
        ensures { result.now ≡ self.now.edges }
    {
        &self.edges
    }

    /// Where an edge ends.
    pub(crate) fn target(&self, edge: u32) -> u32
        requires { edge < length self.now.edges }
        ensures { result ≡ target self.now edge }
    {
        self.edges[edge as usize].target
    }

    /// The numbers of the edges that start at an item, in rising order.
    pub fn outgoing(&self, item: u32) -> &[u32]
        requires { item < self.now.items }
        ensures { result.now ≡ outgoing self.now item }
    {
        self.outgoing.of(item)
    }

    /// The numbers of the edges that end at an item, in rising order.
    pub fn incoming(&self, item: u32) -> &[u32]
        requires { item < self.now.items }
        ensures { result.now ≡ incoming self.now item }
    {
        self.incoming.of(item)
    }
}

/// The first edge with a bad end.
fn find_bad_end(items: u32, edges: &[Edge]) -> Option<usize>
    ensures { result ≡ first_bad_end items edges.now }
{
    edges.iter().position(|edge| is_bad_end(items, *edge))
}

/// Whether an edge starts or ends at what is neither an item nor outside.
fn is_bad_end(items: u32, edge: Edge) -> bool
    ensures { result ≡ has_bad_end items edge }
{
    let starts = edge.source < items || edge.source == OUTSIDE;
    let ends = edge.target < items || edge.target == TERMINAL;
    !(starts && ends)
}

/// The first edge that goes back.
fn find_back(items: u32, edges: &[Edge]) -> Option<usize>
    ensures { result ≡ first_back items edges.now }
{
    edges.iter().position(|edge| is_back(items, *edge))
}

/// Whether an edge leads from an item to itself or to one before it.
fn is_back(items: u32, edge: Edge) -> bool
    ensures { result ≡ goes_back items edge }
{
    edge.source < items && edge.target < items && edge.target <= edge.source
}

/// The numbers of the edges that start at each item.
fn by_source(alloc: Global, items: u32, edges: &[Edge]) -> Result<Groups, AllocError>
    requires { length edges.now < 2 ^ 32 }
    ensures { IfOk result (λ groups.
        IsGrouped items (map (λ e. e.source) edges.now) groups.starts.items groups.list.items) }
{
    let mut sources = Vec::with_capacity(alloc, edges.len())?;
    for edge in edges {
        sources.push(edge.source)?;
    }
    Groups::new(alloc, items, &sources)
}

/// The numbers of the edges that end at each item.
fn by_target(alloc: Global, items: u32, edges: &[Edge]) -> Result<Groups, AllocError>
    requires { length edges.now < 2 ^ 32 }
    ensures { IfOk result (λ groups.
        IsGrouped items (map (λ e. e.target) edges.now) groups.starts.items groups.list.items) }
{
    let mut targets = Vec::with_capacity(alloc, edges.len())?;
    for edge in edges {
        targets.push(edge.target)?;
    }
    Groups::new(alloc, items, &targets)
}
