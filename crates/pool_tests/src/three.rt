//! Three items, of which the last adds what the others send.

use crate::sums::{Sums, Way, is_each_once, run_by};
use mot_base::OpenGate;
use std::alloc::{AllocError, Global};
use std::thread::Threads;
use turn_core::{Dag, Edge, TERMINAL};

static EDGES: [(u32, u32); 3] = [(0, 2), (1, 2), (2, TERMINAL)];

/// The edges of these pairs.
pub(crate) fn edges_of(alloc: Global, pairs: &[(u32, u32)]) -> Result<Vec<Edge>, AllocError> {
    let mut edges = Vec::new(alloc);
    for (source, target) in pairs {
        edges.push(Edge {
            source: *source,
            target: *target,
        })?;
    }
    Ok(edges)
}

/// The graph of so many items and these few edges.
pub(crate) fn graph_of(alloc: Global, items: u32, edges: Vec<Edge>) -> Option<Dag> {
    if edges.len() > 1_000_000 {
        return None;
    }
    Dag::new(alloc, items, edges).ok()
}

fn work(alloc: Global) -> Option<Sums> {
    let edges = edges_of(alloc, &EDGES).ok()?;
    let dag = graph_of(alloc, 3, edges)?;
    Some(Sums { dag })
}

/// Whether the end is 9, and each item was run once, by so many workers.
fn is_nine<R: Threads + Sync>(rt: &R, alloc: Global, way: Way, workers: u8) -> bool {
    let Some(work) = work(alloc) else {
        return false;
    };
    let Some(collected) = run_by(rt, alloc, way, &work, workers, &OpenGate) else {
        return false;
    };
    collected.ends.as_slice() == [9].as_slice()
        && collected.ran.len() == usize::from(workers)
        && is_each_once(alloc, &collected.ran, 3)
}

fn is_nine_by_all<R: Threads + Sync>(rt: &R, alloc: Global, way: Way) -> bool {
    is_nine(rt, alloc, way, 1) && is_nine(rt, alloc, way, 2) && is_nine(rt, alloc, way, 3)
}

#[test]
fn three_items_come_to_nine(rt: HostRuntime) {
    let is_right = is_nine_by_all(&rt, rt.alloc(), Way::Pool)
        && is_nine_by_all(&rt, rt.alloc(), Way::Waves);
    assert!(rt; is_right);
}
