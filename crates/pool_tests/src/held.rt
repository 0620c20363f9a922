//! A worker is held back until others have run what they must.

use crate::sums::{Sums, Way, is_each_once, run_by};
use crate::three::{edges_of, graph_of};
use mot_base::Turnstile;
use std::alloc::Global;
use std::sync::atomic::{AtomicU64, Ordering};
use std::thread;
use std::thread::Threads;
use turn_core::TERMINAL;

/// How often a held worker looks at most.
const LOOKS: u64 = 100_000_000;

/// Each of four items leads to one of four others, and these to the end.
static EDGES: [(u32, u32); 8] = [
    (0, 4),
    (1, 5),
    (2, 6),
    (3, 7),
    (4, TERMINAL),
    (5, TERMINAL),
    (6, TERMINAL),
    (7, TERMINAL),
];

/// Holds the item that enters after so many others until so many have left, and tells where that did not
/// come to pass.
#[derive(Drop)]
struct Holding {
    before: u64,
    wanted: u64,
    entered: AtomicU64,
    left: AtomicU64,
    late: AtomicU64,
}

impl Holding {
    fn new(before: u64, wanted: u64) -> Holding {
        Holding {
            before,
            wanted,
            entered: AtomicU64::new(0),
            left: AtomicU64::new(0),
            late: AtomicU64::new(0),
        }
    }

    /// Whether the item that was held went on since enough others had left, and all eight items left.
    fn is_served(&self) -> bool {
        self.late.load(Ordering::SeqCst) == 0
            && self.entered.load(Ordering::SeqCst) == 8
            && self.left.load(Ordering::SeqCst) == 8
    }
}

impl Turnstile for Holding {
    fn enter(&self, _item: u32) {
        if self.entered.fetch_add(1, Ordering::SeqCst) != self.before {
            return;
        }
        for look in 0..LOOKS {
            if self.left.load(Ordering::SeqCst) >= self.wanted {
                return;
            }
            if look % 1_000 == 999 {
                thread::yield_now();
            }
        }
        self.late.store(1, Ordering::SeqCst);
    }

    fn leave(&self, _item: u32) {
        self.left.fetch_add(1, Ordering::SeqCst);
    }
}

fn work(alloc: Global) -> Option<Sums> {
    let edges = edges_of(alloc, &EDGES).ok()?;
    let dag = graph_of(alloc, 8, edges)?;
    Some(Sums { dag })
}

/// Whether two workers run all items, while the one that enters after so many others waits until so many
/// have left.
fn is_shared<R: Threads + Sync>(rt: &R, alloc: Global, way: Way, before: u64, wanted: u64) -> bool {
    let Some(work) = work(alloc) else {
        return false;
    };
    let gate = Holding::new(before, wanted);
    let Some(collected) = run_by(rt, alloc, way, &work, 2, &gate) else {
        return false;
    };
    collected.ends.as_slice() == [4, 5, 6, 7].as_slice()
        && is_each_once(alloc, &collected.ran, 8)
        && gate.is_served()
}

// all but the held one and the one after it: the other worker runs what it made ready, and steals from
// the held worker
#[test]
fn other_items_leave_first(rt: HostRuntime) {
    let is_right = is_shared(&rt, rt.alloc(), Way::Pool, 0, 6);
    assert!(rt; is_right);
}

// of each of the two waves the two items that are dealt to the other worker
#[test]
fn other_items_of_a_wave_leave_first(rt: HostRuntime) {
    let is_right = is_shared(&rt, rt.alloc(), Way::Waves, 0, 2)
        && is_shared(&rt, rt.alloc(), Way::Waves, 4, 6);
    assert!(rt; is_right);
}
