//! Rows of items, from each of which an edge leads to the item below it and one to the item beside that.

use crate::sums::{Sums, Way, is_each_once, run_by, sum_of};
use crate::three::graph_of;
use mot_base::OpenGate;
use std::alloc::{AllocError, Global};
use std::thread::Threads;
use turn_core::{Edge, TERMINAL};

const WIDTH: u32 = 100;

const ROWS: u32 = 40;

/// What the first row sends is 4 + 5 + .. + 103, which is 5,350, and each row sends twice what came to it.
const SUM: u64 = 5_350 << 39;

fn edges(alloc: Global) -> Result<Vec<Edge>, AllocError> {
    let mut edges = Vec::new(alloc);
    for source in 0..(ROWS - 1) * WIDTH {
        let below = source + WIDTH;
        let beside = below - below % WIDTH + (below + 1) % WIDTH;
        edges.push(Edge {
            source,
            target: below,
        })?;
        edges.push(Edge {
            source,
            target: beside,
        })?;
    }
    for source in (ROWS - 1) * WIDTH..ROWS * WIDTH {
        edges.push(Edge {
            source,
            target: TERMINAL,
        })?;
    }
    Ok(edges)
}

fn work(alloc: Global) -> Option<Sums> {
    let edges = edges(alloc).ok()?;
    let dag = graph_of(alloc, ROWS * WIDTH, edges)?;
    Some(Sums { dag })
}

/// Whether the ends come to what they must, and each item was run once, by so many workers.
fn is_added<R: Threads + Sync>(rt: &R, alloc: Global, way: Way, work: &Sums, workers: u8) -> bool {
    let Some(collected) = run_by(rt, alloc, way, work, workers, &OpenGate) else {
        return false;
    };
    collected.ends.len() == WIDTH as usize
        && sum_of(collected.ends.as_slice()) == SUM
        && collected.ran.len() == usize::from(workers)
        && is_each_once(alloc, &collected.ran, ROWS * WIDTH)
}

fn is_added_by_all<R: Threads + Sync>(rt: &R, alloc: Global, way: Way) -> bool {
    let Some(work) = work(alloc) else {
        return false;
    };
    for workers in [1, 2, 7, 16] {
        if !is_added(rt, alloc, way, &work, workers) {
            return false;
        }
    }
    true
}

#[test]
fn a_pool_runs_thousands_of_items(rt: HostRuntime) {
    let is_right = is_added_by_all(&rt, rt.alloc(), Way::Pool);
    assert!(rt; is_right);
}

#[test]
fn waves_run_thousands_of_items(rt: HostRuntime) {
    let is_right = is_added_by_all(&rt, rt.alloc(), Way::Waves);
    assert!(rt; is_right);
}
