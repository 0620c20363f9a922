//! What the engine reports of circuits whose outputs and digests are known.

ghost use Rattle.std.specs.Prelude.{◌≤◌};
ghost use Rattle.local_run.specs.Job.{IsJob};

use crate::jobs::{ALONE, Circuit, Parts, Place, ready};
use dealer_files::DealerPart;
use hex::FromHex;
use local_engine::{LocalJob, PartyReport, local_pool, local_turns};
use mot_base::OpenGate;
use std::alloc::Global;
use std::thread::Threads;

/// A run of two parties: what both are told, and the digest of each.
struct Row {
    circuit: Circuit,
    values: &'static [u8],
    parts: Parts,
    place: Place,
    told: u64,
    digests: [&'static str; 2],
}

/// The product of two words.
const PRODUCT: &[u8] =
    b"mixed 1\nparties 2\nx = input 0 A\ny = input 1 A\nz = mul x y\noutput z all\n";

/// Two products, one of the other.
const TWO_PRODUCTS: &[u8] =
    b"mixed 1\nparties 2\nx = input 0 A\ny = input 1 A\np = mul x y\nz = mul p y\noutput z all\n";

/// The AND of two vectors of four bits.
const AND: &[u8] =
    b"mixed 1\nparties 2\nx = input 0 B 4\ny = input 1 B 4\nz = and x y\noutput z all\n";

/// The AND of two bits, in Bristol Fashion.
const AND_OF_BITS: &[u8] = b"1 3\n2 1 1\n1 1\n\n2 1 0 1 2 AND\n";

static ROWS: [Row; 9] = [
    Row {
        circuit: Circuit::Mixed(PRODUCT),
        values: b"x = 6\ny = 7\n",
        parts: Parts::Drawn(1, 0),
        place: ALONE,
        told: 42,
        digests: [
            "ede9e85c2353da49bd07e838a89e63c5813eac7435feece4b976d5b741518e21",
            "8aa423722ced7bffdeeed890dd4ab8dde54f3387d8eebb01a5251717f2ab94be",
        ],
    },
    // the second one of two runs of the product with one deal
    Row {
        circuit: Circuit::Mixed(PRODUCT),
        values: b"x = 6\ny = 7\n",
        parts: Parts::Drawn(2, 0),
        place: Place {
            session: 1,
            mult: 1,
        },
        told: 42,
        digests: [
            "f2e4d64259affa323c3d88c146590f69148bc4b287a4adc97497eda9f311aa06",
            "fa07819de70de18641f1562443b571acae1129b4cfa4a37c7d26408d4beb8782",
        ],
    },
    // the first two of several runs with one deal
    Row {
        circuit: Circuit::Mixed(TWO_PRODUCTS),
        values: b"x = 2\ny = 3\n",
        parts: Parts::Drawn(5, 0),
        place: ALONE,
        told: 18,
        digests: [
            "dd2086309805d4b19f29207dbdfd8b78c8de171f5edb6aa516584c5f05a1d9f0",
            "cbb4c7a1ccfda3341a31e80cf2ff3d2c37abe2a2bb4fc68e52c7128a1d1b3133",
        ],
    },
    Row {
        circuit: Circuit::Mixed(TWO_PRODUCTS),
        values: b"x = 2\ny = 3\n",
        parts: Parts::Drawn(5, 0),
        place: Place {
            session: 1,
            mult: 2,
        },
        told: 18,
        digests: [
            "cccaa4451bbf90226a110cf0ea3b073a3c89e99756270e9e3e9f9a96d33200b1",
            "ce4cc25ea0298e93d924147c6158eed0eb4ca6f08425ce2535aa47a5ed20342a",
        ],
    },
    // with bit triples that no dealer drew
    Row {
        circuit: Circuit::Mixed(AND),
        values: b"x = 12\ny = 10\n",
        parts: Parts::Files(
            "4d4f54440102007aab31b445921b8a4001d84b79475c5afe724516bdc123490000000000000004000000000000000002060704",
            "4d4f54440102017aab31b445921b8a2732711a278f257d9eba5eac117b148f0000000000000004000000000000000003010005",
        ),
        place: ALONE,
        told: 8,
        digests: [
            "8e1730a17d17e9d2374fae364c493a2e7503fe5dbeaf36e5fc2bad16774fa1c4",
            "88b9c5a43d5608b51c76a01ad30cb536d2ebf159d5f689bfa2e584cbb27a8c44",
        ],
    },
    Row {
        circuit: Circuit::Bristol(AND_OF_BITS),
        values: b"in0 = 0x0\nin1 = 0x0\n",
        parts: Parts::Drawn(0, 1),
        place: ALONE,
        told: 0,
        digests: [
            "6e7a8ffc26dfa4d7f2f3c4a8bc6459c278fc44394a63d0f0b3a29d4274126629",
            "b3d78f67722da013dc35c87fc7a760310a69e30740d56b0e01c570594bbd1e2f",
        ],
    },
    Row {
        circuit: Circuit::Bristol(AND_OF_BITS),
        values: b"in0 = 0x0\nin1 = 0x1\n",
        parts: Parts::Drawn(0, 1),
        place: ALONE,
        told: 0,
        digests: [
            "6e7a8ffc26dfa4d7f2f3c4a8bc6459c278fc44394a63d0f0b3a29d4274126629",
            "98c961e4d06da3dbb802df0a97379593daded0cdf9aa87c6d25a59c944a92805",
        ],
    },
    Row {
        circuit: Circuit::Bristol(AND_OF_BITS),
        values: b"in0 = 0x1\nin1 = 0x0\n",
        parts: Parts::Drawn(0, 1),
        place: ALONE,
        told: 0,
        digests: [
            "be04c3131109a92d618602b4133185a093e4ec929f77ff17829a7b1c7eba3fa6",
            "b3d78f67722da013dc35c87fc7a760310a69e30740d56b0e01c570594bbd1e2f",
        ],
    },
    Row {
        circuit: Circuit::Bristol(AND_OF_BITS),
        values: b"in0 = 0x1\nin1 = 0x1\n",
        parts: Parts::Drawn(0, 1),
        place: ALONE,
        told: 1,
        digests: [
            "9aa5de1b778aa6aba1515e3fcd7e584397b72e93408d1523bd8065caa91fa795",
            "98c961e4d06da3dbb802df0a97379593daded0cdf9aa87c6d25a59c944a92805",
        ],
    },
];

/// Whether a digest is that of a text in hexadecimal digits.
fn is_digest(digest: &[u8; 32], text: &str) -> bool {
    match <[u8; 32] as FromHex>::from_hex(text) {
        Ok(wanted) => *digest == wanted,
        Err(_) => false,
    }
}

/// Whether a report tells one vector with that number, and has that digest.
fn tells(report: &PartyReport, told: u64, digest: &str) -> bool {
    match report.told.as_slice() {
        [bits] => bits.word == told && is_digest(&report.digest, digest),
        _ => false,
    }
}

/// Whether there are two reports, as a row says.
fn are_reports(reports: &[PartyReport], row: &Row) -> bool {
    match reports {
        [first, second] => {
            tells(first, row.told, row.digests[0]) && tells(second, row.told, row.digests[1])
        }
        _ => false,
    }
}

/// Whether a run reports what a row says.
fn is_run(alloc: Global, job: &LocalJob, parts: &[DealerPart], row: &Row) -> bool
    requires { IsJob job.now.plan job.now.owns.items parts.now }
{
    match local_turns(alloc, job, parts) {
        Ok(reports) => are_reports(&reports, row),
        Err(_) => false,
    }
}

fn is_row(alloc: Global, row: &Row) -> bool {
    match ready(alloc, &row.circuit, row.values, &row.parts, row.place) {
        Some((job, parts)) => is_run(alloc, &job, &parts, row),
        None => false,
    }
}

/// The number of the first row of which something else is reported.
fn wrong_row(alloc: Global, rows: &[Row]) -> Option<usize> {
    for (at, row) in rows.iter().enumerate() {
        if !is_row(alloc, row) {
            return Some(at);
        }
    }
    None
}

/// Whether the pool of so many workers reports what a row says.
fn is_pool_run<R: Threads + Sync>(
    rt: &R,
    alloc: Global,
    job: &LocalJob,
    parts: &[DealerPart],
    workers: u8,
    row: &Row,
) -> bool
    requires job { IsJob job.now.plan job.now.owns.items parts.now }
    requires workers { (1 ≤ workers) × (workers ≤ 16) }
{
    match local_pool(rt, alloc, job, parts, workers, &OpenGate) {
        Ok(reports) => are_reports(&reports, row),
        Err(_) => false,
    }
}

fn is_pool_row<R: Threads + Sync>(rt: &R, alloc: Global, workers: u8, row: &Row) -> bool
    requires { (1 ≤ workers) × (workers ≤ 16) }
{
    match ready(alloc, &row.circuit, row.values, &row.parts, row.place) {
        Some((job, parts)) => is_pool_run(rt, alloc, &job, &parts, workers, row),
        None => false,
    }
}

/// The number of the first row of which the pool of so many workers reports something else.
fn wrong_pool_row<R: Threads + Sync>(
    rt: &R,
    alloc: Global,
    workers: u8,
    rows: &[Row],
) -> Option<usize>
    requires { (1 ≤ workers) × (workers ≤ 16) }
{
    for (at, row) in rows.iter().enumerate() {
        if !is_pool_row(rt, alloc, workers, row) {
            return Some(at);
        }
    }
    None
}

#[test]
fn all_parties_together_have_these_outputs_and_digests(rt: HostRuntime) {
    let wrong = wrong_row(rt.alloc(), &ROWS);
    assert!(rt; wrong.is_none(), "row {wrong:?}");
}

#[test]
fn no_number_of_workers_changes_a_report(rt: HostRuntime) {
    let wrong = [
        wrong_pool_row(&rt, rt.alloc(), 1, &ROWS),
        wrong_pool_row(&rt, rt.alloc(), 2, &ROWS),
        wrong_pool_row(&rt, rt.alloc(), 7, &ROWS),
        wrong_pool_row(&rt, rt.alloc(), 16, &ROWS),
    ];
    assert!(rt; wrong == [None; 4], "rows {wrong:?}");
}
