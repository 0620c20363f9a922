//! The plans of circuits whose values are shared as keys, and their messages.
ghost use Rattle.std.specs.Prelude.{◌≤◌};
ghost use Rattle.mot_base.specs.Limits.{least_parties, most_parties};

use bristol_reader::{Bristol, read_bristol};
use circuit_values::Receiver;
use gate_plan::{GateKind, Plan, lower_bristol, lower_mixed};
use mixed_circuit::{Mixed, read_mixed};
use mot_base::{MAX_FILE_LENGTH, Party};
use share_types::{Bits, Needs, Sharing};
use std::alloc::Global;

/// A wire that is flipped and told.
static FLIP: &[u8] = b"mixed 1\nparties 2\nx = input 0 Y 1\nn = not x\noutput n all\n";

static AND_OF_TWO: &[u8] =
    b"mixed 1\nparties 2\nx = input 0 Y 1\ny = input 1 Y 1\nz = and x y\noutput z all\n";

static AND_OF_THREE: &[u8] =
    b"mixed 1\nparties 3\nx = input 0 Y 1\ny = input 1 Y 1\nz = and x y\noutput z all\n";

static AND_OF_EIGHT: &[u8] =
    b"mixed 1\nparties 8\nx = input 0 Y 9\ny = input 1 Y 9\nz = and x y\noutput z all\n";

/// A circuit of three parties with each other operation on keys.
static OTHERS: &[u8] = b"mixed 1
parties 3
x = input 2 Y 12
c = const Y 4 9
d = xor x x
s = slice d 3 5
j = join s c
b = y2b j
output b 1
";

static AND_IN_BRISTOL: &[u8] = b"1 3\n2 1 1\n1 1\n\n2 1 0 1 2 AND\n";

fn mixed_of(alloc: Global, text: &[u8]) -> Option<Mixed> {
    if text.len() > MAX_FILE_LENGTH {
        return None;
    }
    read_mixed(alloc, text).ok()
}

fn plan_of(alloc: Global, text: &[u8]) -> Option<Plan> {
    match mixed_of(alloc, text) {
        Some(circuit) => lower_mixed(alloc, &circuit).ok(),
        None => None,
    }
}

fn bristol_of(alloc: Global, text: &[u8]) -> Option<Bristol> {
    if text.len() > MAX_FILE_LENGTH {
        return None;
    }
    read_bristol(alloc, text).ok()
}

/// So many bit triples and key records.
fn needs(bit: u32, key: u32) -> Needs {
    Needs {
        mult: 0,
        bit,
        shared: 0,
        key,
    }
}

fn is_gate(plan: &Plan, gate: u32, kind: GateKind) -> bool {
    gate < plan.gates() && plan.gate(gate) == kind
}

/// Whether a mask and an entry of a party stand there.
fn is_entry(plan: &Plan, m: u32, party: u8, k: u32, width: u8) -> bool {
    let party = Party(party);
    let at = 0;
    is_gate(plan, m, GateKind::KeyMask { width })
        && is_gate(
            plan,
            m.saturating_add(1),
            GateKind::InOnline { party, k, at, m },
        )
}

fn is_told(plan: &Plan, gate: u32, m: u32, o: u32) -> bool {
    let to = Receiver::All;
    is_gate(plan, gate, GateKind::YToB { m, o })
        && is_gate(plan, gate.saturating_add(1), GateKind::OutB { x: gate, to })
}

fn is_flip(plan: &Plan, gate: u32, u: u32) -> bool {
    match Bits::new(1, 1) {
        Some(c) => is_gate(plan, gate, GateKind::FlipMask { u, c }),
        None => false,
    }
}

/// The masked bits of a flipped wire are those of the wire.
fn is_plan_of_the_flip(plan: &Plan) -> bool {
    plan.gates() == 5
        && plan.needs() == needs(0, 1)
        && is_entry(plan, 0, 0, 0, 1)
        && is_flip(plan, 2, 0)
        && is_told(plan, 3, 2, 1)
}

#[test]
fn a_flipped_wire_has_five_gates_and_one_key_record(rt: HostRuntime) {
    let is_planned = match plan_of(rt.alloc(), FLIP) {
        Some(plan) => is_plan_of_the_flip(&plan),
        None => false,
    };
    assert!(rt; is_planned);
}

fn is_table(plan: &Plan, m: u32, width: u8) -> bool {
    let t = m.saturating_add(1);
    is_gate(plan, m, GateKind::KeyMask { width })
        && is_gate(plan, t, GateKind::Garble { u: 0, v: 2, m })
        && is_gate(plan, t.saturating_add(1), GateKind::EvalY { t, u: 1, v: 3 })
}

fn has_gates_of_the_and(plan: &Plan, width: u8) -> bool {
    plan.gates() == 9
        && is_entry(plan, 0, 0, 0, width)
        && is_entry(plan, 2, 1, 1, width)
        && is_table(plan, 4, width)
        && is_told(plan, 7, 4, 6)
}

fn needs_of_the_and(plan: &Plan) -> bool {
    plan.gates() == 9
        && plan.needs() == needs(9, 36)
        && plan.offset(5) == needs(0, 27)
        && plan.offset(6) == needs(9, 36)
}

fn is_plan_of_the_and(plan: &Plan) -> bool {
    has_gates_of_the_and(plan, 9) && needs_of_the_and(plan)
}

#[test]
fn an_and_of_keys_has_nine_gates(rt: HostRuntime) {
    let is_planned = match plan_of(rt.alloc(), AND_OF_EIGHT) {
        Some(plan) => is_plan_of_the_and(&plan),
        None => false,
    };
    assert!(rt; is_planned);
}

fn has_plan_in_bristol(alloc: Global, circuit: &Bristol, parties: u8) -> bool
    requires some { least_parties ≤ parties }
    requires most { parties ≤ most_parties }
{
    match lower_bristol(alloc, circuit, parties, Sharing::Y) {
        Ok(plan) => has_gates_of_the_and(&plan, 1) && plan.needs() == needs(1, 4),
        Err(_) => false,
    }
}

#[test]
fn an_and_in_bristol_fashion_has_the_gates_of_an_and_of_one_bit(rt: HostRuntime) {
    let is_planned = match bristol_of(rt.alloc(), AND_IN_BRISTOL) {
        Some(circuit) => has_plan_in_bristol(rt.alloc(), &circuit, 2),
        None => false,
    };
    assert!(rt; is_planned);
}

fn is_const(plan: &Plan, gate: u32) -> bool {
    match Bits::new(9, 4) {
        Some(c) => {
            is_gate(plan, gate, GateKind::ConstMask { c })
                && is_gate(
                    plan,
                    gate.saturating_add(1),
                    GateKind::ZeroOnline { width: 4 },
                )
        }
        None => false,
    }
}

fn is_slice(plan: &Plan, gate: u32, u: u32) -> bool {
    let (at, width) = (3, 5);
    let online = u.saturating_add(1);
    is_gate(plan, gate, GateKind::SliceMask { u, at, width })
        && is_gate(
            plan,
            gate.saturating_add(1),
            GateKind::SliceOnline {
                u: online,
                at,
                width,
            },
        )
}

fn has_first_of_the_others(plan: &Plan) -> bool {
    is_entry(plan, 0, 2, 0, 12)
        && is_const(plan, 2)
        && is_gate(plan, 4, GateKind::XorMask { u: 0, v: 0 })
        && is_gate(plan, 5, GateKind::XorOnline { u: 1, v: 1 })
        && is_slice(plan, 6, 4)
}

fn has_last_of_the_others(plan: &Plan) -> bool {
    let to = Receiver::One(Party(1));
    is_gate(plan, 8, GateKind::JoinMask { u: 6, v: 2 })
        && is_gate(plan, 9, GateKind::JoinOnline { u: 7, v: 3 })
        && is_gate(plan, 10, GateKind::YToB { m: 8, o: 9 })
        && is_gate(plan, 11, GateKind::OutB { x: 10, to })
}

fn is_plan_of_the_others(plan: &Plan) -> bool {
    plan.gates() == 12
        && plan.needs() == needs(0, 12)
        && plan.width(10) == 9
        && plan.has_keys()
        && has_first_of_the_others(plan)
        && has_last_of_the_others(plan)
}

#[test]
fn other_operations_on_keys_have_a_mask_and_masked_bits(rt: HostRuntime) {
    let is_planned = match plan_of(rt.alloc(), OTHERS) {
        Some(plan) => is_plan_of_the_others(&plan),
        None => false,
    };
    assert!(rt; is_planned);
}

/// Of the AND among so many parties a gate, a round, a sender and a receiver, and the length of what is sent.
static MESSAGES: [(u8, u32, u8, u8, u8, Option<u32>); 24] = [
    (2, 5, 0, 0, 1, Some(2)),
    (2, 5, 1, 1, 0, Some(1)),
    (2, 5, 2, 0, 1, Some(128)),
    (2, 5, 3, 0, 1, None),
    (2, 5, 2, 0, 0, None),
    (2, 3, 0, 0, 1, Some(1)),
    (2, 3, 0, 1, 0, None),
    (2, 3, 1, 1, 0, Some(1)),
    (2, 3, 2, 1, 0, Some(16)),
    (3, 5, 0, 1, 2, Some(2)),
    (3, 5, 1, 2, 0, Some(1)),
    (3, 5, 2, 2, 1, Some(192)),
    (3, 1, 0, 2, 0, Some(1)),
    (3, 1, 0, 2, 1, None),
    (3, 1, 1, 0, 2, Some(1)),
    (3, 1, 1, 1, 2, None),
    (3, 1, 2, 1, 2, Some(16)),
    (3, 7, 0, 0, 1, None),
    (8, 5, 0, 7, 6, Some(4)),
    (8, 5, 1, 6, 7, Some(2)),
    (8, 5, 2, 0, 7, Some(4608)),
    (8, 1, 1, 0, 7, Some(2)),
    (8, 1, 2, 7, 3, Some(144)),
    (8, 4, 0, 0, 1, None),
];

fn has_length(plan: &Plan, gate: u32, round: u8, from: u8, to: u8, length: Option<u32>) -> bool {
    gate < plan.gates() && plan.slot(Party(from), Party(to), gate, round) == length
}

/// The plan of the AND among so many parties: two, three or eight.
fn plan_among(alloc: Global, parties: u8) -> Option<Plan> {
    let text = match parties {
        2 => AND_OF_TWO,
        3 => AND_OF_THREE,
        _ => AND_OF_EIGHT,
    };
    plan_of(alloc, text)
}

/// The number of the first message of another length.
fn wrong_message(alloc: Global, rows: &[(u8, u32, u8, u8, u8, Option<u32>)]) -> Option<usize> {
    for (at, (parties, gate, round, from, to, length)) in rows.iter().enumerate() {
        let is_right = match plan_among(alloc, *parties) {
            Some(plan) => has_length(&plan, *gate, *round, *from, *to, *length),
            None => false,
        };
        if !is_right {
            return Some(at);
        }
    }
    None
}

#[test]
fn messages_of_a_garbled_and_have_these_lengths(rt: HostRuntime) {
    let wrong = wrong_message(rt.alloc(), &MESSAGES);
    assert!(rt; wrong.is_none(), "message {wrong:?}");
}

/// Of the AND among three parties a party and a gate, how many stages that has there, and the rounds for which they wait.
static STAGES: [(u8, u32, u8, [Option<u8>; 3]); 6] = [
    (0, 1, 3, [Some(0), Some(2), None]),
    (1, 1, 3, [Some(1), Some(2), None]),
    (2, 3, 3, [Some(1), Some(2), None]),
    (2, 5, 4, [Some(0), Some(1), Some(2)]),
    (0, 4, 1, [None, None, None]),
    (1, 8, 2, [Some(0), None, None]),
];

fn waits(plan: &Plan, party: u8, gate: u32, rounds: &[Option<u8>; 3]) -> bool {
    let [first, second, third] = *rounds;
    let party = Party(party);
    gate < plan.gates()
        && plan.awaits(party, gate, 1) == first
        && plan.awaits(party, gate, 2) == second
        && plan.awaits(party, gate, 3) == third
}

fn has_stages(plan: &Plan, party: u8, gate: u32, stages: u8) -> bool {
    gate < plan.gates() && plan.stages(Party(party), gate) == stages
}

/// The number of the first row with other stages.
fn wrong_stages(plan: &Plan, rows: &[(u8, u32, u8, [Option<u8>; 3])]) -> Option<usize> {
    for (at, (party, gate, stages, rounds)) in rows.iter().enumerate() {
        if !has_stages(plan, *party, *gate, *stages) || !waits(plan, *party, *gate, rounds) {
            return Some(at);
        }
    }
    None
}

/// The owner of an entry sends masked bits and keys in the stage that waits for the shares of the mask, and the others
/// their keys in the stage that waits for the masked bits.
fn sends_entries(plan: &Plan) -> bool {
    plan.gates() == 9
        && plan.sent_in(Party(1), 1, 0) == 0
        && plan.sent_in(Party(0), 1, 1) == 1
        && plan.sent_in(Party(0), 1, 2) == 1
        && plan.sent_in(Party(2), 1, 2) == 1
        && plan.sent_in(Party(2), 5, 2) == 2
}

fn are_stages(plan: &Plan) -> bool {
    let rows = STAGES;
    wrong_stages(plan, &rows).is_none() && sends_entries(plan)
}

#[test]
fn stages_of_an_entry_differ_by_party(rt: HostRuntime) {
    let is_staged = match plan_of(rt.alloc(), AND_OF_THREE) {
        Some(plan) => are_stages(&plan),
        None => false,
    };
    assert!(rt; is_staged);
}
