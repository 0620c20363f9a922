//! A small work over a diamond of items, and the values that it gives at its end.

ghost use Rattle.std.specs.Prelude.{◌≡◌, true};
ghost use Rattle.task_pool.specs.Meanings.{HasNoOutside};

use mot_base::NoMemory;
use std::alloc::{AllocError, Global};
use task_pool::{Work, run_turns};
use turn_core::{Dag, Edge, OUTSIDE, TERMINAL};

/// Each item sends along its edges one more than its number, and what came to it.
#[derive(Drop)]
struct Sums {
    dag: Dag,
}

impl Work for Sums {
    type Edge = u64;

    ghost graph = { λ w. w.dag };

    ghost means = { λ w e v. Unit {0} };

    fn run(&self, alloc: Global, item: u32, inputs: &mut Vec<u64>) -> Result<Vec<u64>, NoMemory> {
        let sum = sum_of(inputs.as_slice()).wrapping_add(u64::from(item) + 1);
        let outputs = Vec::from_elem(alloc, sum, self.dag.outgoing(item).len())?;
        Ok(outputs)
    }
}

/// The sum of some numbers modulo 2^64.
fn sum_of(numbers: &[u64]) -> u64 {
    let mut sum: u64 = 0;
    for number in numbers {
        sum = sum.wrapping_add(*number);
    }
    sum
}

/// Whether no edge comes from outside.
fn is_inside(dag: &Dag) -> bool
    ensures { result ≡ true → HasNoOutside dag.now }
{
    for edge in dag.edges() {
        if edge.source == OUTSIDE {
            return false;
        }
    }
    true
}

/// Item 0 leads to 1 and 2, and these to 3. What 3 and 2 send to the end is 4 + (2 + 1) + (3 + 1), and 3 + 1.
static DIAMOND: [(u32, u32); 6] = [(0, 1), (0, 2), (1, 3), (3, TERMINAL), (2, 3), (2, TERMINAL)];

/// The edges of the diamond.
fn diamond(alloc: Global) -> Result<Vec<Edge>, AllocError> {
    let mut edges = Vec::new(alloc);
    for (source, target) in &DIAMOND {
        edges.push(Edge {
            source: *source,
            target: *target,
        })?;
    }
    Ok(edges)
}

/// The graph of the diamond.
fn graph(alloc: Global) -> Option<Dag> {
    match diamond(alloc) {
        Ok(edges) => {
            if edges.len() == 6 {
                Dag::new(alloc, 4, edges).ok()
            } else {
                None
            }
        }
        Err(_) => None,
    }
}

fn gives(alloc: Global, work: &Sums, numbers: &[u64]) -> bool {
    if !is_inside(&work.dag) {
        return false;
    }
    match run_turns(alloc, &work.dag, work) {
        Ok(ends) => ends.as_slice() == numbers,
        Err(_) => false,
    }
}

#[test]
fn items_are_given_what_those_before_them_sent(rt: HostRuntime) {
    let is_given = match graph(rt.alloc()) {
        Some(dag) => gives(rt.alloc(), &Sums { dag }, &[11, 4]),
        None => false,
    };
    assert!(rt; is_given);
}
