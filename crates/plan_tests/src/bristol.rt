//! The plans of circuits in Bristol Fashion, and how many gates they have.
ghost use Rattle.std.specs.Prelude.{◌≤◌, length};
ghost use Rattle.mot_base.specs.Limits.{least_parties, most_parties};

use bristol_reader::{Bristol, read_bristol};
use circuit_values::Receiver;
use gate_plan::{GateKind, Plan, PlanError, lower_bristol, lowered_bristol_gates};
use mot_base::{MAX_FILE_LENGTH, Party};
use share_types::{Bits, Needs, Sharing};
use std::alloc::Global;

/// A gate of single bits.
enum Gate {
    /// An input, its bit, and the party that gives it.
    In(u32, u32, u8),
    Const(u64),
    Xor(u32, u32),
    /// An operand, and the constant.
    XorConst(u32, u64),
    And(u32, u32),
    /// To all.
    Out(u32),
}

fn is_bit(bits: Bits, word: u64) -> bool {
    bits.word == word && bits.width == 1
}

fn is_const(kind: GateKind, word: u64) -> bool {
    match kind {
        GateKind::ConstB { c } => is_bit(c, word),
        _ => false,
    }
}

fn is_xor_const(kind: GateKind, operand: u32, word: u64) -> bool {
    match kind {
        GateKind::XorConstB { x, c } => x == operand && is_bit(c, word),
        _ => false,
    }
}

fn is_input(kind: GateKind, input: u32, at: u32, party: u8) -> bool {
    let of_one_bit = GateKind::InB {
        party: Party(party),
        k: input,
        at,
        width: 1,
    };
    kind == of_one_bit
}

fn is_of(kind: GateKind, gate: &Gate) -> bool {
    match gate {
        Gate::In(input, at, party) => is_input(kind, *input, *at, *party),
        Gate::Const(word) => is_const(kind, *word),
        Gate::Xor(x, y) => kind == GateKind::XorB { x: *x, y: *y },
        Gate::XorConst(x, word) => is_xor_const(kind, *x, *word),
        Gate::And(x, y) => kind == GateKind::AndB { x: *x, y: *y },
        Gate::Out(x) => is_output(kind, *x),
    }
}

fn is_output(kind: GateKind, x: u32) -> bool {
    let to = Receiver::All;
    kind == GateKind::OutB { x, to }
}

fn is_gate(plan: &Plan, at: usize, gate: &Gate) -> bool {
    at < plan.gates() as usize && is_of(plan.gate(at as u32), gate)
}

/// Whether a plan has these gates and no others.
fn has_gates(plan: &Plan, gates: &[Gate]) -> bool {
    for (at, gate) in gates.iter().enumerate() {
        if !is_gate(plan, at, gate) {
            return false;
        }
    }
    plan.gates() as usize == gates.len()
}

/// Whether a plan needs so many bit triples and nothing else.
fn needs_bits(plan: &Plan, bit: u32) -> bool {
    plan.needs()
        == Needs {
            mult: 0,
            bit,
            shared: 0,
            key: 0,
        }
}

/// Circuits with a number of parties, the gates of their plan, and how many bit triples these need.
static PLANS: [(&[u8], u8, &[Gate], u32); 6] = [
    (
        b"1 3\n2 1 1\n1 1\n\n2 1 0 1 2 AND\n",
        2,
        &[
            Gate::In(0, 0, 0),
            Gate::In(1, 0, 1),
            Gate::And(0, 1),
            Gate::Out(2),
        ],
        1,
    ),
    (
        b"4 9\n1 4\n1 3\n\n1 1 1 4 EQ\n1 1 0 5 EQW\n4 2 2 3 4 5 6 7 MAND\n2 1 6 7 8 XOR\n",
        2,
        &[
            Gate::In(0, 0, 0),
            Gate::In(0, 1, 0),
            Gate::In(0, 2, 0),
            Gate::In(0, 3, 0),
            Gate::Const(1),
            Gate::And(2, 4),
            Gate::And(3, 0),
            Gate::Xor(5, 6),
            Gate::Out(5),
            Gate::Out(6),
            Gate::Out(7),
        ],
        2,
    ),
    (
        b"3 10\n4 2 1 1 3\n2 1 2\n1 1 1 7 INV\n1 1 7 8 EQW\n2 1 8 2 9 AND\n",
        3,
        &[
            Gate::In(0, 0, 0),
            Gate::In(0, 1, 0),
            Gate::In(1, 0, 1),
            Gate::In(2, 0, 2),
            Gate::In(3, 0, 0),
            Gate::In(3, 1, 0),
            Gate::In(3, 2, 0),
            Gate::XorConst(1, 1),
            Gate::And(7, 2),
            Gate::Out(7),
            Gate::Out(7),
            Gate::Out(8),
        ],
        1,
    ),
    (
        b"1 9\n1 6\n1 3\n6 3 0 1 2 3 4 5 8 7 6 MAND\n",
        8,
        &[
            Gate::In(0, 0, 0),
            Gate::In(0, 1, 0),
            Gate::In(0, 2, 0),
            Gate::In(0, 3, 0),
            Gate::In(0, 4, 0),
            Gate::In(0, 5, 0),
            Gate::And(0, 3),
            Gate::And(1, 4),
            Gate::And(2, 5),
            Gate::Out(8),
            Gate::Out(7),
            Gate::Out(6),
        ],
        3,
    ),
    (
        b"3 6\n1 1\n1 2\n1 1 0 2 EQ\n1 1 2 4 EQW\n1 1 4 5 EQW\n",
        2,
        &[
            Gate::In(0, 0, 0),
            Gate::Const(0),
            Gate::Out(1),
            Gate::Out(1),
        ],
        0,
    ),
    (b"0 0\n0\n0\n", 2, &[], 0),
];

fn circuit_of(alloc: Global, text: &[u8]) -> Option<Bristol> {
    if text.len() > MAX_FILE_LENGTH {
        return None;
    }
    match read_bristol(alloc, text) {
        Ok(circuit) => Some(circuit),
        Err(_) => None,
    }
}

fn has_plan(alloc: Global, circuit: &Bristol, parties: u8, gates: &[Gate], bit: u32) -> bool
    requires some { least_parties ≤ parties }
    requires most { parties ≤ most_parties }
{
    match lower_bristol(alloc, circuit, parties, Sharing::B) {
        Ok(plan) => has_gates(&plan, gates) && needs_bits(&plan, bit),
        Err(_) => false,
    }
}

fn is_planned(alloc: Global, text: &[u8], parties: u8, gates: &[Gate], bit: u32) -> bool {
    if parties < 2 || parties > 8 {
        return false;
    }
    match circuit_of(alloc, text) {
        Some(circuit) => has_plan(alloc, &circuit, parties, gates, bit),
        None => false,
    }
}

/// The number of the first circuit with another plan.
fn wrong_plan(alloc: Global, rows: &[(&[u8], u8, &[Gate], u32)]) -> Option<usize> {
    for (at, (text, parties, gates, bit)) in rows.iter().enumerate() {
        if !is_planned(alloc, text, *parties, gates, *bit) {
            return Some(at);
        }
    }
    None
}

#[test]
fn circuits_have_these_gates(rt: HostRuntime) {
    let wrong = wrong_plan(rt.alloc(), &PLANS);
    assert!(rt; wrong.is_none(), "circuit {wrong:?}");
}

/// Circuits, and how many gates they have by XOR and as keys.
static COUNTS: [(&[u8], u64, u64); 9] = [
    (b"1 3\n2 1 1\n1 1\n2 1 0 1 2 AND\n", 4, 9),
    (b"1 3\n2 1 1\n1 1\n2 1 0 1 2 XOR\n", 4, 8),
    (b"1 3\n2 1 1\n1 1\n2 1 0 1 2 MAND\n", 4, 9),
    (b"1 2\n1 1\n1 1\n1 1 0 1 INV\n", 3, 5),
    (b"1 2\n1 1\n1 1\n1 1 0 1 EQ\n", 3, 6),
    (b"1 2\n1 1\n1 1\n1 1 0 1 EQW\n", 2, 4),
    (
        b"4 9\n1 4\n1 3\n\n1 1 1 4 EQ\n1 1 0 5 EQW\n4 2 2 3 4 5 6 7 MAND\n2 1 6 7 8 XOR\n",
        11,
        24,
    ),
    (
        b"3 10\n4 2 1 1 3\n2 1 2\n1 1 1 7 INV\n1 1 7 8 EQW\n2 1 8 2 9 AND\n",
        12,
        24,
    ),
    (b"0 1\n1 1\n0\n", 1, 2),
];

/// Whether a circuit has so many gates by XOR and as keys.
fn has_counts(alloc: Global, circuit: &Bristol, bits: u64, keys: u64) -> bool {
    lowered_bristol_gates(circuit, Sharing::B) == bits
        && lowered_bristol_gates(circuit, Sharing::Y) == keys
        && is_lowered_to(alloc, circuit, keys)
}

/// Whether a circuit is lowered to so many gates of keys.
fn is_lowered_to(alloc: Global, circuit: &Bristol, keys: u64) -> bool {
    match lower_bristol(alloc, circuit, 2, Sharing::Y) {
        Ok(plan) => u64::from(plan.gates()) == keys,
        Err(_) => false,
    }
}

fn is_counted(alloc: Global, text: &[u8], bits: u64, keys: u64) -> bool {
    match circuit_of(alloc, text) {
        Some(circuit) => has_counts(alloc, &circuit, bits, keys),
        None => false,
    }
}

/// The number of the first circuit with other numbers of gates.
fn wrong_count(alloc: Global, rows: &[(&[u8], u64, u64)]) -> Option<usize> {
    for (at, (text, bits, keys)) in rows.iter().enumerate() {
        if !is_counted(alloc, text, *bits, *keys) {
            return Some(at);
        }
    }
    None
}

#[test]
fn circuits_have_so_many_gates(rt: HostRuntime) {
    let wrong = wrong_count(rt.alloc(), &COUNTS);
    assert!(rt; wrong.is_none(), "circuit {wrong:?}");
}

/// Whether a circuit has too many gates by XOR, and how many as keys.
fn has_too_many(alloc: Global, circuit: &Bristol) -> bool {
    let lowered = lower_bristol(alloc, circuit, 2, Sharing::B);
    let is_refused = matches!(lowered, Err(PlanError::TooManyGates { gates: 4_194_306 }));
    is_refused && lowered_bristol_gates(circuit, Sharing::Y) == 8_388_612
}

#[test]
fn a_circuit_with_too_many_gates_is_refused_with_their_number(rt: HostRuntime) {
    let is_refused = match circuit_of(rt.alloc(), b"0 2097153\n1 2097153\n1 2097153\n") {
        Some(circuit) => has_too_many(rt.alloc(), &circuit),
        None => false,
    };
    assert!(rt; is_refused);
}
