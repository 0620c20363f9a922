//! What one party's run of a product reports and sends, whatever the cuts of its peer's bytes.

ghost use Rattle.std.specs.Prelude.{◌≡◌, ◌<◌, ◌≤◌, length, true};
ghost use Rattle.mot_base.specs.Limits.{most_file_bytes};
ghost use Rattle.party_engine.specs.Run.{IsAsked};

use crate::streams::cut;
use circuit_values::read_values;
use dealer_files::{DealerPart, read_dealer};
use gate_plan::{Plan, lower_mixed};
use gate_tasks::{Own, serves_party};
use mixed_circuit::{Mixed, read_mixed};
use mot_base::{MAX_FILE_LENGTH, MemLinks, OpenGate, Party, Seed, Turnstile, derive};
use party_engine::{Brought, PartyError, PartyReport, run_party};
use share_types::Needs;
use std::alloc::Global;
use std::thread::Threads;

static PRODUCT: &[u8] =
    b"mixed 1\nparties 2\nx = input 0 A\ny = input 1 A\nz = mul x y\noutput z all\n";

/// The part of party 0 in the deal of the seed of zeros.
static PART: &str =
    "4d4f54440102007aab31b445921b8a4001d84b79475c5afe724516bdc123490000000100000000000000000000000099d2379c2e8378051c2add9a53828a361b8763727dc0cd49";

/// What party 0 sends party 1: Hello, its messages, End.
static SENT: &str =
    "0000002d01010200017aab31b445921b8a2fb898545a394b970cfbbe7745fb61bc67e0ef07d0426e4e5f27f4cdb7bb7bb40000000e020000000000a052138367b5973400000016020000000200c5dbb4e069c6f0cd30741d53df25567e0000000e020000000300255183ed892bfb190000000103";

/// What party 1 sends party 0.
static HEARD: &str =
    "0000002d01010201007aab31b445921b8a2fb898545a394b970cfbbe7745fb61bc67e0ef07d0426e4e5f27f4cdb7bb7bb40000000e0200000001004c9efaee32a7e0b40000001602000000020014d14cc3e5bf377f9433ae578d3898ca0000000e020000000300daae7c1276d405110000000103";

/// The digest of the messages of party 0.
static DIGEST: &str = "ede9e85c2353da49bd07e838a89e63c5813eac7435feece4b976d5b741518e21";

/// SHA-256 of the text of the product.
static CIRCUIT: [u8; 32] = [
    0x2f, 0xb8, 0x98, 0x54, 0x5a, 0x39, 0x4b, 0x97, 0x0c, 0xfb, 0xbe, 0x77, 0x45, 0xfb, 0x61, 0xbc,
    0x67, 0xe0, 0xef, 0x07, 0xd0, 0x42, 0x6e, 0x4e, 0x5f, 0x27, 0xf4, 0xcd, 0xb7, 0xbb, 0x7b, 0xb4,
];

/// Whether a party may run a plan.
fn may_run(brought: &Brought) -> bool
    ensures { result ≡ true → IsAsked brought.now }
{
    if brought.plan.has_keys() || brought.own.me.0 >= brought.plan.parties() {
        return false;
    }
    serves_party(brought.plan, brought.own.me, brought.own, brought.part)
}

/// What party 0 brings, with these values of its inputs.
fn own_of(alloc: Global, circuit: &Mixed, values: &[u8]) -> Option<Own>
    requires { length values.now ≤ most_file_bytes }
{
    let inputs = circuit.inputs(alloc).ok()?;
    let values = read_values(alloc, values, &inputs, Some(Party(0))).ok()?;
    Some(Own {
        me: Party(0),
        seed: derive(&Seed([0; 32]), 0),
        inputs: values,
        session: 0,
        bases: Needs::none(),
    })
}

/// The bytes of a text in hexadecimal digits.
fn bytes_of(alloc: Global, text: &str) -> Option<Vec<u8>> {
    hex::decode(alloc, text).ok()
}

/// The run of party 0 over links, of which each stage passes a gate.
pub(crate) fn run<G: Turnstile + Sync, R: Threads + Sync>(
    rt: &R,
    alloc: Global,
    brought: &Brought,
    links: &mut MemLinks,
    workers: u8,
    gate: &G,
) -> Option<Result<PartyReport, PartyError>>
    requires { (1 ≤ workers) × (workers ≤ 16) }
{
    if !may_run(brought) {
        return None;
    }
    let circuit = CIRCUIT;
    Some(run_party(rt, alloc, brought, &circuit, 0, links, workers, gate))
}

/// Whether a report tells 42 and has the digest of the messages.
pub(crate) fn is_right(alloc: Global, report: &PartyReport) -> bool {
    let Some(digest) = bytes_of(alloc, DIGEST) else {
        return false;
    };
    match report.told.as_slice() {
        [told] => told.word == 42 && report.digest.as_slice() == digest.as_slice(),
        _ => false,
    }
}

/// Whether the run reports the product and sends its messages where the peer's bytes come in pieces of a size.
fn is_run_in_pieces<R: Threads + Sync>(
    rt: &R,
    alloc: Global,
    brought: &Brought,
    size: usize,
    workers: u8,
) -> bool
    requires size { 0 < size }
    requires workers { (1 ≤ workers) × (workers ≤ 16) }
{
    let (Some(heard), Some(sent)) = (bytes_of(alloc, HEARD), bytes_of(alloc, SENT)) else {
        return false;
    };
    let Ok(pieces) = cut(alloc, &heard, size) else {
        return false;
    };
    let mut links = MemLinks::new(alloc, pieces, Vec::new(alloc), Vec::new(alloc));
    match run(rt, alloc, brought, &mut links, workers, &OpenGate) {
        Some(Ok(report)) => is_right(alloc, &report) && links.sent(Party(1)) == sent.as_slice(),
        _ => false,
    }
}

/// Whether the run does so for each size of pieces and one worker, and two.
fn is_run_however_cut<R: Threads + Sync>(rt: &R, alloc: Global, brought: &Brought) -> bool {
    for size in 1..117 {
        if !is_run_in_pieces(rt, alloc, brought, size, 1)
            || !is_run_in_pieces(rt, alloc, brought, size, 2)
        {
            return false;
        }
    }
    true
}

/// Whether the run tells that the peer closed too early where only so many first bytes of it come.
fn is_closed_early<R: Threads + Sync>(
    rt: &R,
    alloc: Global,
    brought: &Brought,
    first: usize,
) -> bool {
    let Some(mut heard) = bytes_of(alloc, HEARD) else {
        return false;
    };
    heard.truncate(first);
    let Ok(pieces) = cut(alloc, &heard, 7) else {
        return false;
    };
    let Ok(closing) = Vec::from_slice(alloc, &[Party(1)]) else {
        return false;
    };
    let mut links = MemLinks::new(alloc, pieces, closing, Vec::new(alloc));
    match run(rt, alloc, brought, &mut links, 1, &OpenGate) {
        Some(Err(PartyError::PeerClosed { peer })) => peer == Party(1),
        _ => false,
    }
}

/// Whether it does so for each number of bytes below the whole stream's.
fn is_closed_early_anywhere<R: Threads + Sync>(rt: &R, alloc: Global, brought: &Brought) -> bool {
    for first in 0..116 {
        if !is_closed_early(rt, alloc, brought, first) {
            return false;
        }
    }
    true
}

/// What party 0 brings to the product.
pub(crate) fn brought_of(alloc: Global) -> Option<(Plan, Own, DealerPart)> {
    brought_to(alloc, PRODUCT, b"x = 6\n")
}

/// What party 0 brings to a circuit, with these values of its inputs.
pub(crate) fn brought_to(
    alloc: Global,
    text: &[u8],
    values: &[u8],
) -> Option<(Plan, Own, DealerPart)> {
    if text.len() > MAX_FILE_LENGTH || values.len() > MAX_FILE_LENGTH {
        return None;
    }
    let circuit = read_mixed(alloc, text).ok()?;
    let plan = lower_mixed(alloc, &circuit).ok()?;
    let own = own_of(alloc, &circuit, values)?;
    let part = part_of(alloc)?;
    Some((plan, own, part))
}

/// The part of party 0.
fn part_of(alloc: Global) -> Option<DealerPart> {
    let bytes = bytes_of(alloc, PART)?;
    read_dealer(alloc, bytes.as_slice()).ok()
}

fn is_run<R: Threads + Sync>(rt: &R, alloc: Global) -> bool {
    let Some((plan, own, part)) = brought_of(alloc) else {
        return false;
    };
    let brought = Brought {
        plan: &plan,
        own: &own,
        part: &part,
    };
    is_run_however_cut(rt, alloc, &brought)
}

fn is_closed<R: Threads + Sync>(rt: &R, alloc: Global) -> bool {
    let Some((plan, own, part)) = brought_of(alloc) else {
        return false;
    };
    let brought = Brought {
        plan: &plan,
        own: &own,
        part: &part,
    };
    is_closed_early_anywhere(rt, alloc, &brought)
}

#[test]
fn the_product_is_told_however_the_bytes_are_cut(rt: HostRuntime) {
    assert!(rt; is_run(&rt, rt.alloc()));
}

#[test]
fn a_peer_that_closes_early_is_named(rt: HostRuntime) {
    assert!(rt; is_closed(&rt, rt.alloc()));
}
