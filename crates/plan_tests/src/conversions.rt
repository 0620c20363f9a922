//! The plans of circuits with conversions, and their messages.

use circuit_values::Receiver;
use gate_plan::{GateKind, Plan, lower_mixed};
use mixed_circuit::read_mixed;
use mot_base::{MAX_FILE_LENGTH, Party};
use share_types::Needs;
use std::alloc::Global;

fn plan_of(alloc: Global, text: &[u8]) -> Option<Plan> {
    if text.len() > MAX_FILE_LENGTH {
        return None;
    }
    match read_mixed(alloc, text) {
        Ok(circuit) => lower_mixed(alloc, &circuit).ok(),
        Err(_) => None,
    }
}

/// Circuits, and how many gates, multiplication triples, bit triples, shared bits and key records each needs.
static NEEDS: [(&[u8], [u32; 5]); 18] = [
    (
        b"mixed 1\nparties 3\na = input 0 A\nb = input 1 A\nc = input 2 A\nd = sub a b\ny = a2y d\nlt = slice y 63 1\ns1 = add a b\ns = add s1 c\noutput lt 0\noutput lt 1\noutput s 2\n",
        [2165, 0, 126, 0, 444],
    ),
    (
        b"mixed 1\nparties 2\nx = input 0 B 3\ny = b2y x\noutput y all\n",
        [9, 0, 0, 0, 6],
    ),
    (
        b"mixed 1\nparties 3\nx = input 0 B 3\ny = b2y x\noutput y all\n",
        [13, 0, 0, 0, 9],
    ),
    (
        b"mixed 1\nparties 8\nx = input 0 B 3\ny = b2y x\noutput y all\n",
        [33, 0, 0, 0, 24],
    ),
    (
        b"mixed 1\nparties 2\nx = input 1 Y 4\nb = y2b x\na = b2a b\noutput a all\n",
        [5, 0, 0, 4, 4],
    ),
    (
        b"mixed 1\nparties 8\nx = input 1 Y 4\nb = y2b x\na = b2a b\noutput a all\n",
        [5, 0, 0, 4, 4],
    ),
    (
        b"mixed 1\nparties 2\nx = input 1 Y 4\na = y2a x\noutput a 0\n",
        [5, 0, 0, 4, 4],
    ),
    (
        b"mixed 1\nparties 3\nx = input 1 Y 4\na = y2a x\noutput a 0\n",
        [5, 0, 0, 4, 4],
    ),
    (
        b"mixed 1\nparties 2\nx = input 0 A\ny = input 1 A\ns = add x y\nt = a2y s\noutput t all\n",
        [1082, 0, 63, 0, 254],
    ),
    (
        b"mixed 1\nparties 3\nx = input 0 A\ny = input 1 A\ns = add x y\nt = a2y s\noutput t all\n",
        [2157, 0, 126, 0, 444],
    ),
    (
        b"mixed 1\nparties 8\nx = input 0 A\ny = input 1 A\ns = add x y\nt = a2y s\noutput t all\n",
        [7532, 0, 441, 0, 1394],
    ),
    (
        b"mixed 1\nparties 2\nx = input 0 A\ny = input 1 A\np = mul x y\nb = a2b p\nh = slice b 60 4\noutput h all\n",
        [1083, 1, 63, 0, 254],
    ),
    (
        b"mixed 1\nparties 3\nx = input 0 A\ny = input 1 A\np = mul x y\nb = a2b p\nh = slice b 60 4\noutput h all\n",
        [2158, 1, 126, 0, 444],
    ),
    (
        b"mixed 1\nparties 8\nx = input 0 A\ny = input 1 A\np = mul x y\nb = a2b p\nh = slice b 60 4\noutput h all\n",
        [7533, 1, 441, 0, 1394],
    ),
    (
        b"mixed 1\nparties 3\nx = input 0 A\ny = input 1 A\np = mul x y\nu = a2y p\nv = y2b u\nw = b2a v\noutput w all\n",
        [2158, 1, 126, 64, 444],
    ),
    (
        b"mixed 1\nparties 2\nx = input 0 B 1\na = b2a x\noutput a all\n",
        [3, 0, 0, 1, 0],
    ),
    (
        b"mixed 1\nparties 2\nx = input 0 B 64\na = b2a x\noutput a all\n",
        [3, 0, 0, 64, 0],
    ),
    (
        b"mixed 1\nparties 2\nx = input 0 B 1\ny = input 0 B 64\na = b2a x\nb = b2a y\noutput a all\noutput b all\n",
        [6, 0, 0, 65, 0],
    ),
];

fn has_needs(plan: &Plan, needs: &[u32; 5]) -> bool {
    let [gates, mult, bit, shared, key] = *needs;
    let all = Needs {
        mult,
        bit,
        shared,
        key,
    };
    plan.gates() == gates && plan.needs() == all && plan.has_keys() && plan.has_conversions()
}

/// The number of the first circuit that needs something else.
fn wrong_needs(alloc: Global, rows: &[(&[u8], [u32; 5])]) -> Option<usize> {
    for (at, (text, needs)) in rows.iter().enumerate() {
        let is_right = match plan_of(alloc, text) {
            Some(plan) => has_needs(&plan, needs),
            None => false,
        };
        if !is_right {
            return Some(at);
        }
    }
    None
}

#[test]
fn circuits_with_conversions_need_so_much(rt: HostRuntime) {
    let wrong = wrong_needs(rt.alloc(), &NEEDS);
    assert!(rt; wrong.is_none(), "circuit {wrong:?}");
}

/// A vector that becomes a wire among two parties.
static TO_KEYS: &[u8] = b"mixed 1\nparties 2\nx = input 0 B 3\ny = b2y x\noutput y all\n";

fn is_gate(plan: &Plan, gate: u32, kind: GateKind) -> bool {
    gate < plan.gates() && plan.gate(gate) == kind
}

/// Whether a mask and the entry of a party's share of gate 0 stand there.
fn is_entry(plan: &Plan, m: u32, party: u8) -> bool {
    let (party, x, width) = (Party(party), 0, 3);
    is_gate(plan, m, GateKind::KeyMask { width })
        && is_gate(
            plan,
            m.saturating_add(1),
            GateKind::ShareBOnline { party, x, m },
        )
}

fn joins_and_tells(plan: &Plan) -> bool {
    let to = Receiver::All;
    is_gate(plan, 5, GateKind::XorMask { u: 1, v: 3 })
        && is_gate(plan, 6, GateKind::XorOnline { u: 2, v: 4 })
        && is_gate(plan, 7, GateKind::YToB { m: 5, o: 6 })
        && is_gate(plan, 8, GateKind::OutB { x: 7, to })
}

fn is_plan_to_keys(plan: &Plan) -> bool {
    plan.gates() == 9 && is_entry(plan, 1, 0) && is_entry(plan, 3, 1) && joins_and_tells(plan)
}

#[test]
fn a_vector_that_becomes_a_wire_among_two_has_nine_gates(rt: HostRuntime) {
    let is_planned = match plan_of(rt.alloc(), TO_KEYS) {
        Some(plan) => is_plan_to_keys(&plan),
        None => false,
    };
    assert!(rt; is_planned);
}

static OF_WORDS: &[u8] = b"mixed 1\nparties 3\nx = input 0 A\ny = a2y x\n";

static OF_VECTORS: &[u8] = b"mixed 1\nparties 3\nx = input 0 B 12\ny = b2y x\n";

static TO_WORDS: &[u8] = b"mixed 1\nparties 3\nx = input 0 B 12\ny = b2a x\n";

fn text_of(number: u8) -> &'static [u8] {
    match number {
        0 => OF_WORDS,
        1 => OF_VECTORS,
        _ => TO_WORDS,
    }
}

/// Of a circuit by its number a gate, a round, a sender and a receiver, and the length of what is sent.
static MESSAGES: [(u8, u32, u8, u8, u8, Option<u32>); 18] = [
    (0, 2, 0, 1, 0, Some(8)),
    (0, 2, 0, 1, 2, None),
    (0, 2, 1, 0, 2, Some(8)),
    (0, 2, 1, 1, 2, None),
    (0, 2, 2, 2, 1, Some(1024)),
    (0, 2, 3, 0, 1, None),
    (0, 6, 0, 0, 2, Some(8)),
    (0, 6, 1, 2, 0, Some(8)),
    (1, 4, 0, 0, 1, Some(2)),
    (1, 4, 0, 2, 0, None),
    (1, 4, 1, 1, 0, Some(2)),
    (1, 4, 2, 0, 2, Some(192)),
    (1, 3, 0, 0, 1, None),
    (1, 7, 0, 0, 1, None),
    (2, 1, 0, 0, 1, Some(2)),
    (2, 1, 0, 2, 0, Some(2)),
    (2, 1, 0, 0, 0, None),
    (2, 1, 1, 0, 1, None),
];

fn has_length(plan: &Plan, gate: u32, round: u8, from: u8, to: u8, length: Option<u32>) -> bool {
    gate < plan.gates() && plan.slot(Party(from), Party(to), gate, round) == length
}

/// The number of the first message of another length.
fn wrong_message(alloc: Global, rows: &[(u8, u32, u8, u8, u8, Option<u32>)]) -> Option<usize> {
    for (at, (circuit, gate, round, from, to, length)) in rows.iter().enumerate() {
        let is_right = match plan_of(alloc, text_of(*circuit)) {
            Some(plan) => has_length(&plan, *gate, *round, *from, *to, *length),
            None => false,
        };
        if !is_right {
            return Some(at);
        }
    }
    None
}

#[test]
fn messages_of_conversions_have_these_lengths(rt: HostRuntime) {
    let wrong = wrong_message(rt.alloc(), &MESSAGES);
    assert!(rt; wrong.is_none(), "message {wrong:?}");
}
