//! The plans of some circuits, and how many gates others have.
use circuit_values::Receiver;
use gate_plan::{GateKind, Plan, Shape, SlotSpec, lower_mixed, lowered_gates};
use mixed_circuit::{Mixed, read_mixed};
use mot_base::{MAX_FILE_LENGTH, Party};
use share_types::{Bits, Needs};
use std::alloc::{AllocError, Global};

static PRODUCT: &[u8] =
    b"mixed 1\nparties 2\nx = input 0 A\ny = input 1 A\nz = mul x y\noutput z all\n";

/// A circuit of three parties with an operation of each kind on vectors.
static VECTORS: &[u8] = b"mixed 1
parties 3
x = input 2 B 12
y = input 0 B 12
a = and x y
b = xor a x
n = not b
s = slice n 3 5
c = const B 4 9
j = join s c
output j 1
output a all
";

/// A circuit from its text.
fn circuit_of(alloc: Global, text: &[u8]) -> Option<Mixed> {
    if text.len() > MAX_FILE_LENGTH {
        return None;
    }
    match read_mixed(alloc, text) {
        Ok(circuit) => Some(circuit),
        Err(_) => None,
    }
}

/// The plan of a circuit.
fn plan_of(alloc: Global, text: &[u8]) -> Option<Plan> {
    match circuit_of(alloc, text) {
        Some(circuit) => lower_mixed(alloc, &circuit).ok(),
        None => None,
    }
}

/// So many multiplication triples and bit triples.
fn needs(mult: u32, bit: u32) -> Needs {
    Needs {
        mult,
        bit,
        shared: 0,
        key: 0,
    }
}

/// A slot of words in round 0.
fn words(from: u8, gate: u32, len: u32) -> SlotSpec {
    SlotSpec {
        from: Party(from),
        gate,
        round: 0,
        len,
        shape: Shape::Words,
    }
}

/// A slot of vectors in round 0.
fn vectors(from: u8, gate: u32, len: u32, count: u8, width: u8) -> SlotSpec {
    SlotSpec {
        from: Party(from),
        gate,
        round: 0,
        len,
        shape: Shape::Vectors { count, width },
    }
}

fn is_gate(plan: &Plan, gate: u32, kind: GateKind) -> bool {
    gate < plan.gates() && plan.gate(gate) == kind
}

fn is_input_of_words(plan: &Plan, gate: u32, party: u8, k: u32) -> bool {
    let party = Party(party);
    is_gate(plan, gate, GateKind::InA { party, k })
}

/// Whether these are all messages to a party.
fn are_slots(alloc: Global, plan: &Plan, party: u8, slots: &[SlotSpec]) -> bool {
    match plan.slots_to(alloc, Party(party)) {
        Ok(seen) => seen.as_slice() == slots,
        Err(_) => false,
    }
}

fn has_gates_of_the_product(plan: &Plan) -> bool {
    let to = Receiver::All;
    plan.gates() == 4
        && is_input_of_words(plan, 0, 0, 0)
        && is_input_of_words(plan, 1, 1, 1)
        && is_gate(plan, 2, GateKind::MulA { x: 0, y: 1 })
        && is_gate(plan, 3, GateKind::OutA { x: 2, to })
}

fn has_needs_of_the_product(plan: &Plan) -> bool {
    plan.gates() == 4
        && plan.needs() == needs(1, 0)
        && plan.offset(2) == needs(0, 0)
        && plan.offset(3) == needs(1, 0)
}

fn is_plan_of_the_product(alloc: Global, plan: &Plan) -> bool {
    let slots = [words(1, 1, 8), words(1, 2, 16), words(1, 3, 8)];
    has_gates_of_the_product(plan)
        && has_needs_of_the_product(plan)
        && are_slots(alloc, plan, 0, &slots)
}

#[test]
fn the_product_has_four_gates_and_three_messages_to_party_0(rt: HostRuntime) {
    let is_planned = match plan_of(rt.alloc(), PRODUCT) {
        Some(plan) => is_plan_of_the_product(rt.alloc(), &plan),
        None => false,
    };
    assert!(rt; is_planned);
}

/// Whether a gate is an input of twelve bits.
fn is_input_of_bits(plan: &Plan, gate: u32, party: u8, k: u32) -> bool {
    let kind = GateKind::InB {
        party: Party(party),
        k,
        at: 0,
        width: 12,
    };
    is_gate(plan, gate, kind)
}

fn is_xor_const(plan: &Plan, gate: u32, x: u32, word: u64, width: u8) -> bool {
    match Bits::new(word, width) {
        Some(c) => is_gate(plan, gate, GateKind::XorConstB { x, c }),
        None => false,
    }
}

fn is_const(plan: &Plan, gate: u32, word: u64, width: u8) -> bool {
    match Bits::new(word, width) {
        Some(c) => is_gate(plan, gate, GateKind::ConstB { c }),
        None => false,
    }
}

fn is_slice(plan: &Plan, gate: u32, x: u32, at: u8, width: u8) -> bool {
    is_gate(plan, gate, GateKind::SliceB { x, at, width })
}

fn is_output_of_bits(plan: &Plan, gate: u32, x: u32, to: Receiver) -> bool {
    is_gate(plan, gate, GateKind::OutB { x, to })
}

fn has_first_gates_of_the_vectors(plan: &Plan) -> bool {
    is_input_of_bits(plan, 0, 2, 0)
        && is_input_of_bits(plan, 1, 0, 1)
        && is_gate(plan, 2, GateKind::AndB { x: 0, y: 1 })
        && is_gate(plan, 3, GateKind::XorB { x: 2, y: 0 })
        && is_xor_const(plan, 4, 3, 4095, 12)
}

fn has_other_gates_of_the_vectors(plan: &Plan) -> bool {
    is_slice(plan, 5, 4, 3, 5)
        && is_const(plan, 6, 9, 4)
        && is_gate(plan, 7, GateKind::JoinB { x: 5, y: 6 })
        && is_output_of_bits(plan, 8, 7, Receiver::One(Party(1)))
        && is_output_of_bits(plan, 9, 2, Receiver::All)
}

fn are_slots_of_the_vectors(alloc: Global, plan: &Plan) -> bool {
    let slots = [
        vectors(0, 1, 2, 1, 12),
        vectors(0, 2, 4, 2, 12),
        vectors(0, 8, 2, 1, 9),
        vectors(0, 9, 2, 1, 12),
        vectors(2, 0, 2, 1, 12),
        vectors(2, 2, 4, 2, 12),
        vectors(2, 8, 2, 1, 9),
        vectors(2, 9, 2, 1, 12),
    ];
    are_slots(alloc, plan, 1, &slots)
}

fn is_plan_of_the_vectors(alloc: Global, plan: &Plan) -> bool {
    plan.gates() == 10
        && plan.needs() == needs(0, 12)
        && plan.width(7) == 9
        && has_first_gates_of_the_vectors(plan)
        && has_other_gates_of_the_vectors(plan)
        && are_slots_of_the_vectors(alloc, plan)
}

#[test]
fn vectors_have_these_gates_and_messages(rt: HostRuntime) {
    let is_planned = match plan_of(rt.alloc(), VECTORS) {
        Some(plan) => is_plan_of_the_vectors(rt.alloc(), &plan),
        None => false,
    };
    assert!(rt; is_planned);
}

/// The owner of an input hears nothing, and who is not told an output hears nothing of it.
fn has_stages(plan: &Plan) -> bool {
    plan.gates() == 10
        && plan.stages(Party(2), 0) == 1
        && plan.stages(Party(0), 0) == 2
        && plan.stages(Party(0), 2) == 2
        && plan.stages(Party(0), 3) == 1
        && plan.stages(Party(0), 8) == 1
        && plan.stages(Party(1), 8) == 2
}

fn awaits_rounds(plan: &Plan) -> bool {
    plan.gates() == 10
        && plan.awaits(Party(1), 8, 0).is_none()
        && plan.awaits(Party(1), 8, 1) == Some(0)
        && plan.awaits(Party(1), 8, 2).is_none()
        && plan.awaits(Party(0), 8, 1).is_none()
}

fn has_messages(plan: &Plan) -> bool {
    plan.gates() == 10
        && plan.slot(Party(0), Party(1), 2, 0) == Some(4)
        && plan.slot(Party(0), Party(1), 2, 1).is_none()
        && plan.slot(Party(1), Party(1), 2, 0).is_none()
        && plan.slot(Party(0), Party(3), 2, 0).is_none()
}

fn tells_outputs(plan: &Plan) -> bool {
    plan.outputs_of(Party(0)) == 1 && plan.outputs_of(Party(1)) == 2
}

#[test]
fn stages_wait_for_the_rounds_in_which_a_party_receives(rt: HostRuntime) {
    let is_planned = match plan_of(rt.alloc(), VECTORS) {
        Some(plan) => {
            has_stages(&plan) && awaits_rounds(&plan) && has_messages(&plan) && tells_outputs(&plan)
        }
        None => false,
    };
    assert!(rt; is_planned);
}

/// Circuits, and the number of their gates.
static COUNTS: [(&[u8], u64); 11] = [
    (b"mixed 1\nparties 2\n", 0),
    (b"mixed 1\nparties 2\nx = input 0 A\noutput x all\n", 2),
    (b"mixed 1\nparties 2\nx = input 0 A\ny = a2y x\n", 1078),
    (b"mixed 1\nparties 3\nx = input 0 A\ny = a2b x\n", 2154),
    (b"mixed 1\nparties 8\nx = input 0 A\ny = a2y x\n", 7528),
    (b"mixed 1\nparties 3\nx = input 0 B 7\ny = b2y x\n", 11),
    (b"mixed 1\nparties 3\nx = input 0 Y 7\ny = y2b x\n", 3),
    (b"mixed 1\nparties 3\nx = input 0 B 7\ny = b2a x\n", 2),
    (
        b"mixed 1\nparties 3\nx = input 0 Y 7\ny = y2a x\noutput x all\n",
        6,
    ),
    (
        b"mixed 1\nparties 3\nx = input 0 Y 7\ny = not x\nz = and x y\n",
        6,
    ),
    (
        b"mixed 1\nparties 3\nx = const Y 7 1\ny = xor x x\nz = slice x 1 2\nw = join x z\n",
        8,
    ),
];

/// Whether a circuit is lowered to so many gates.
fn is_lowered_to(alloc: Global, circuit: &Mixed, gates: u64) -> bool {
    match lower_mixed(alloc, circuit) {
        Ok(plan) => u64::from(plan.gates()) == gates,
        Err(_) => false,
    }
}

fn is_counted(alloc: Global, text: &[u8], gates: u64) -> bool {
    match circuit_of(alloc, text) {
        Some(circuit) => {
            lowered_gates(&circuit) == gates && is_lowered_to(alloc, &circuit, gates)
        }
        None => false,
    }
}

/// The number of the first circuit with another number of gates.
fn wrong_count(alloc: Global, rows: &[(&[u8], u64)]) -> Option<usize> {
    for (at, (text, gates)) in rows.iter().enumerate() {
        if !is_counted(alloc, text, *gates) {
            return Some(at);
        }
    }
    None
}

#[test]
fn circuits_have_so_many_gates(rt: HostRuntime) {
    let wrong = wrong_count(rt.alloc(), &COUNTS);
    assert!(rt; wrong.is_none(), "circuit {wrong:?}");
}

fn push_conversion(alloc: Global, text: &mut String, number: u32) -> Result<(), AllocError> {
    let line = format!(in alloc; "y{number} = a2y x\n")?;
    text.push_str(line.as_str())
}

/// A circuit of eight parties with so many conversions of one input to keys.
fn with_conversions(alloc: Global, count: u32) -> Result<String, AllocError> {
    let mut text = String::from_str(alloc, "mixed 1\nparties 8\nx = input 0 A\n")?;
    for number in 0..count {
        push_conversion(alloc, &mut text, number)?;
    }
    Ok(text)
}

fn has_gates(alloc: Global, text: &[u8], gates: u64) -> bool {
    match circuit_of(alloc, text) {
        Some(circuit) => lowered_gates(&circuit) == gates,
        None => false,
    }
}

fn have_gates(alloc: Global, conversions: u32, gates: u64) -> bool {
    match with_conversions(alloc, conversions) {
        Ok(text) => has_gates(alloc, text.as_bytes(), gates),
        Err(_) => false,
    }
}

#[test]
fn gates_are_counted_beyond_the_limit(rt: HostRuntime) {
    assert!(&rt; have_gates(rt.alloc(), 557, 4_192_540) && have_gates(rt.alloc(), 558, 4_200_067));
}
