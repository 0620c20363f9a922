//! What one party's run answers to whole streams of its peer, to links that fail, and by two workers.

ghost use Rattle.std.specs.Prelude.{◌<◌, ◌≤◌};

use crate::running::{brought_of, brought_to, is_right, run};
use crate::streams::{Answer, answer_of, cut, stream};
use frames::FrameFault;
use mot_base::{MemLinks, OpenGate, Turnstile};
use party_engine::Brought;
use std::alloc::Global;
use std::sync::atomic::{AtomicU64, Ordering};
use std::thread;
use std::thread::Threads;

/// Party 1's streams in the run of the product, by the letters of their parts, and what the run answers.
static ANSWERS: [(&str, Answer); 14] = [
    ("h332211e", Answer::Kept),
    ("hh3h2211e", Answer::Kept),
    ("h123ex4d", Answer::Kept),
    ("h123", Answer::PeerClosed),
    ("", Answer::PeerClosed),
    ("1h23e", Answer::HelloMissing),
    ("e", Answer::HelloMissing),
    ("d123e", Answer::HelloDiffers(4)),
    ("h12d3e", Answer::HelloDiffers(4)),
    ("h1x23e", Answer::RepeatDiffers(1)),
    ("h4", Answer::UnknownSlot(4)),
    ("h13e", Answer::EndEarly(2)),
    ("h1-", Answer::BadFrame(FrameFault::Length)),
    ("-h123e", Answer::BadFrame(FrameFault::Length)),
];

/// The answer to these parts in pieces of a size, where these calls of the links fail.
fn answer_to<R: Threads + Sync>(
    rt: &R,
    alloc: Global,
    brought: &Brought,
    parts: &str,
    size: usize,
    fails: Vec<u64>,
    workers: u8,
) -> Option<Answer>
    requires size { 0 < size }
    requires workers { (1 ≤ workers) × (workers ≤ 16) }
{
    let bytes = stream(alloc, parts)?;
    let pieces = cut(alloc, bytes.as_slice(), size).ok()?;
    let mut links = MemLinks::new(alloc, pieces, Vec::new(alloc), fails);
    match run(rt, alloc, brought, &mut links, workers, &OpenGate)? {
        Ok(report) if is_right(alloc, &report) => Some(Answer::Kept),
        Ok(_) => Some(Answer::Lacking),
        Err(error) => Some(answer_of(&error)),
    }
}

/// Whether the answer to a stream is this, whole and in pieces of three bytes, by one worker and by two.
fn is_answer<R: Threads + Sync>(
    rt: &R,
    alloc: Global,
    brought: &Brought,
    parts: &str,
    wanted: Answer,
) -> bool {
    let whole = answer_to(rt, alloc, brought, parts, 200, Vec::new(alloc), 1);
    let cut = answer_to(rt, alloc, brought, parts, 3, Vec::new(alloc), 2);
    whole == Some(wanted) && cut == Some(wanted)
}

/// The number of the first stream that has another answer.
fn wrong_stream<R: Threads + Sync>(
    rt: &R,
    alloc: Global,
    brought: &Brought,
    rows: &[(&str, Answer)],
) -> Option<usize> {
    for (at, (parts, wanted)) in rows.iter().enumerate() {
        if !is_answer(rt, alloc, brought, parts, *wanted) {
            return Some(at);
        }
    }
    None
}

fn are_answered<R: Threads + Sync>(rt: &R, alloc: Global) -> bool {
    let Some((plan, own, part)) = brought_of(alloc) else {
        return false;
    };
    let brought = Brought {
        plan: &plan,
        own: &own,
        part: &part,
    };
    wrong_stream(rt, alloc, &brought, &ANSWERS).is_none()
}

#[test]
fn each_stream_of_the_product_has_its_answer(rt: HostRuntime) {
    assert!(rt; are_answered(&rt, rt.alloc()));
}

/// Whether the run tells that the links failed where this call of them does.
fn is_fault<R: Threads + Sync>(rt: &R, alloc: Global, brought: &Brought, call: u64) -> bool {
    let Ok(fails) = Vec::from_slice(alloc, &[call]) else {
        return false;
    };
    answer_to(rt, alloc, brought, "h123e", 200, fails, 1) == Some(Answer::LinkFault)
}

/// How many first calls there are of which each is told where it fails.
fn calls_told<R: Threads + Sync>(rt: &R, alloc: Global, brought: &Brought) -> u64 {
    for call in 1..100 {
        if !is_fault(rt, alloc, brought, call) {
            return call - 1;
        }
    }
    100
}

fn told<R: Threads + Sync>(rt: &R, alloc: Global) -> u64 {
    let Some((plan, own, part)) = brought_of(alloc) else {
        return 0;
    };
    let brought = Brought {
        plan: &plan,
        own: &own,
        part: &part,
    };
    calls_told(rt, alloc, &brought)
}

// connect, Hello, three messages, a take, End, and the last wait
#[test]
fn each_call_of_the_links_that_fails_is_told(rt: HostRuntime) {
    assert!(rt; told(&rt, rt.alloc()) == 8);
}

/// How often a held worker looks at most.
const LOOKS: u64 = 100_000_000;

/// Holds the first item until another one has left, and tells where that did not come to pass.
#[derive(Drop)]
struct FirstHeld {
    entered: AtomicU64,
    left: AtomicU64,
    late: AtomicU64,
}

impl FirstHeld {
    fn new() -> FirstHeld {
        FirstHeld {
            entered: AtomicU64::new(0),
            left: AtomicU64::new(0),
            late: AtomicU64::new(0),
        }
    }

    /// Whether both items left, and the one that was held went on behind the other.
    fn is_served(&self) -> bool {
        self.late.load(Ordering::SeqCst) == 0 && self.left.load(Ordering::SeqCst) == 2
    }
}

impl Turnstile for FirstHeld {
    fn enter(&self, _item: u32) {
        if self.entered.fetch_add(1, Ordering::SeqCst) != 0 {
            return;
        }
        for look in 0..LOOKS {
            if self.left.load(Ordering::SeqCst) > 0 {
                return;
            }
            if look % 1_000 == 999 {
                thread::yield_now();
            }
        }
        self.late.store(1, Ordering::SeqCst);
    }

    fn leave(&self, _item: u32) {
        self.left.fetch_add(1, Ordering::SeqCst);
    }
}

/// Whether two workers run the two inputs of party 0, of which the first that is entered waits for the other.
fn is_left_by_another<R: Threads + Sync>(rt: &R, alloc: Global) -> bool {
    let text = b"mixed 1\nparties 2\nx = input 0 A\ny = input 0 A\n";
    let Some((plan, own, part)) = brought_to(alloc, text, b"x = 6\ny = 7\n") else {
        return false;
    };
    let brought = Brought {
        plan: &plan,
        own: &own,
        part: &part,
    };
    is_held_and_served(rt, alloc, &brought)
}

fn is_held_and_served<R: Threads + Sync>(rt: &R, alloc: Global, brought: &Brought) -> bool {
    let Some(bytes) = stream(alloc, "he") else {
        return false;
    };
    let Ok(pieces) = cut(alloc, bytes.as_slice(), 200) else {
        return false;
    };
    let mut links = MemLinks::new(alloc, pieces, Vec::new(alloc), Vec::new(alloc));
    let gate = FirstHeld::new();
    match run(rt, alloc, brought, &mut links, 2, &gate) {
        Some(Ok(_)) => gate.is_served(),
        _ => false,
    }
}

#[test]
fn another_stage_leaves_first(rt: HostRuntime) {
    assert!(rt; is_left_by_another(&rt, rt.alloc()));
}
