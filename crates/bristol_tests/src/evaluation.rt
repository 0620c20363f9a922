//! What circuits compute, and their tables.
ghost use Rattle.std.specs.Prelude.{◌≤◌, length};
ghost use Rattle.mot_base.specs.Limits.{most_file_bytes};

use bristol_reader::{Bristol, BristolKind, plain_bristol, read_bristol, write_bristol};
use circuit_values::{InputTable, OutputTable, Outputs, Receiver, read_values};
use mot_base::{MAX_FILE_LENGTH, Party};
use std::alloc::Global;

/// Whether a text shows some bits, the last one first.
fn are_shown(bits: &[bool], text: &str) -> bool {
    for (bit, digit) in bits.iter().rev().zip(text.bytes()) {
        if digit != if *bit { b'1' } else { b'0' } {
            return false;
        }
    }
    bits.len() == text.len()
}

/// Whether a text shows an output value with its name.
fn is_shown(outputs: &Outputs, at: u32, text: &str) -> bool {
    match text.split_once('=') {
        Some((name, bits)) => {
            at < outputs.len() && outputs.name(at) == name && are_shown(outputs.bits(at), bits)
        }
        None => false,
    }
}

/// Whether a text shows the output values, each with its name and its bits.
fn are_outputs(outputs: &Outputs, text: &str) -> bool {
    let mut words = text.split_whitespace();
    for at in 0..outputs.len() {
        match words.next() {
            Some(word) if is_shown(outputs, at, word) => {}
            _ => return false,
        }
    }
    words.next().is_none()
}

/// Whether a circuit computes these outputs from the text of the values of its inputs.
fn computes(alloc: Global, circuit: &Bristol, values: &[u8], text: &str) -> bool
    requires { length values.now ≤ most_file_bytes }
{
    let Ok(inputs) = circuit.inputs(alloc, 2) else {
        return false;
    };
    let Ok(values) = read_values(alloc, values, &inputs, None) else {
        return false;
    };
    match plain_bristol(alloc, circuit, &values) {
        Ok(outputs) => are_outputs(&outputs, text),
        Err(_) => false,
    }
}

/// The same of the text of a circuit.
fn is_computed(alloc: Global, circuit: &[u8], values: &[u8], text: &str) -> bool {
    if circuit.len() > MAX_FILE_LENGTH || values.len() > MAX_FILE_LENGTH {
        return false;
    }
    match read_bristol(alloc, circuit) {
        Ok(circuit) => computes(alloc, &circuit, values, text),
        Err(_) => false,
    }
}

/// The number of the first circuit that computes something else.
fn wrong_circuit(alloc: Global, rows: &[(&[u8], &[u8], &str)]) -> Option<usize> {
    for (at, (circuit, values, text)) in rows.iter().enumerate() {
        if !is_computed(alloc, circuit, values, text) {
            return Some(at);
        }
    }
    None
}

/// Circuits of one gate, with the values of their inputs, and their outputs.
static OF_ONE_GATE: [(&[u8], &[u8], &str); 20] = [
    (
        b"1 3\n2 1 1\n1 1\n\n2 1 0 1 2 AND\n",
        b"in0 = 0\nin1 = 0\n",
        "out0=0",
    ),
    (
        b"1 3\n2 1 1\n1 1\n2 1 0 1 2 XOR\n",
        b"in0 = 0\nin1 = 0\n",
        "out0=0",
    ),
    (
        b"1 3\n2 1 1\n1 1\n2 1 0 1 2 MAND\n",
        b"in0 = 0\nin1 = 0\n",
        "out0=0",
    ),
    (
        b"1 3\n2 1 1\n1 1\n\n2 1 0 1 2 AND\n",
        b"in0 = 0\nin1 = 1\n",
        "out0=0",
    ),
    (
        b"1 3\n2 1 1\n1 1\n2 1 0 1 2 XOR\n",
        b"in0 = 0\nin1 = 1\n",
        "out0=1",
    ),
    (
        b"1 3\n2 1 1\n1 1\n2 1 0 1 2 MAND\n",
        b"in0 = 0\nin1 = 1\n",
        "out0=0",
    ),
    (b"1 2\n1 1\n1 1\n1 1 0 1 INV\n", b"in0 = 0\n", "out0=1"),
    (b"1 2\n1 1\n1 1\n1 1 0 1 EQW\n", b"in0 = 0\n", "out0=0"),
    (b"1 2\n1 1\n1 1\n1 1 0 1 EQ\n", b"in0 = 0\n", "out0=0"),
    (b"1 2\n1 1\n1 1\n1 1 1 1 EQ\n", b"in0 = 0\n", "out0=1"),
    (
        b"1 3\n2 1 1\n1 1\n\n2 1 0 1 2 AND\n",
        b"in0 = 1\nin1 = 0\n",
        "out0=0",
    ),
    (
        b"1 3\n2 1 1\n1 1\n2 1 0 1 2 XOR\n",
        b"in0 = 1\nin1 = 0\n",
        "out0=1",
    ),
    (
        b"1 3\n2 1 1\n1 1\n2 1 0 1 2 MAND\n",
        b"in0 = 1\nin1 = 0\n",
        "out0=0",
    ),
    (
        b"1 3\n2 1 1\n1 1\n\n2 1 0 1 2 AND\n",
        b"in0 = 1\nin1 = 1\n",
        "out0=1",
    ),
    (
        b"1 3\n2 1 1\n1 1\n2 1 0 1 2 XOR\n",
        b"in0 = 1\nin1 = 1\n",
        "out0=0",
    ),
    (
        b"1 3\n2 1 1\n1 1\n2 1 0 1 2 MAND\n",
        b"in0 = 1\nin1 = 1\n",
        "out0=1",
    ),
    (b"1 2\n1 1\n1 1\n1 1 0 1 INV\n", b"in0 = 1\n", "out0=0"),
    (b"1 2\n1 1\n1 1\n1 1 0 1 EQW\n", b"in0 = 1\n", "out0=1"),
    (b"1 2\n1 1\n1 1\n1 1 0 1 EQ\n", b"in0 = 1\n", "out0=0"),
    (b"1 2\n1 1\n1 1\n1 1 1 1 EQ\n", b"in0 = 1\n", "out0=1"),
];

#[test]
fn gates_compute_these_outputs(rt: HostRuntime) {
    let wrong = wrong_circuit(rt.alloc(), &OF_ONE_GATE);
    assert!(rt; wrong.is_none(), "circuit {wrong:?}");
}

/// The same of several gates and outputs, in several writings.
static CIRCUITS: [(&[u8], &[u8], &str); 11] = [
    (
        b"4 9\n1 4\n1 3\n\n1 1 1 4 EQ\n1 1 0 5 EQW\n4 2 2 3 4 5 6 7 MAND\n2 1 6 7 8 XOR\n",
        b"in0 = 0x9\n",
        "out0=110",
    ),
    (
        b"4 9\n1 4\n1 3\n\n1 1 1 4 EQ\n1 1 0 5 EQW\n4 2 2 3 4 5 6 7 MAND\n2 1 6 7 8 XOR\n",
        b"in0 = 0xd\n",
        "out0=011",
    ),
    (
        b"\r\n4\t 9\r\n\r\n1 4\r\n1 3\n\t\n1 1 1 4 EQ\r\n\n1 1 0 5 EQW\t\n 4 2  2 3 4 5 6 7 MAND\n\n2 1 6 7 8 XOR",
        b"in0 = 0x9\n",
        "out0=110",
    ),
    (
        b"\r\n4\t 9\r\n\r\n1 4\r\n1 3\n\t\n1 1 1 4 EQ\r\n\n1 1 0 5 EQW\t\n 4 2  2 3 4 5 6 7 MAND\n\n2 1 6 7 8 XOR",
        b"in0 = 0xd\n",
        "out0=011",
    ),
    (
        b"0 3\n2 1 2\n2 2 1\n",
        b"in0 = 1\nin1 = 2\n",
        "out0=01 out1=1",
    ),
    (b"0 5\n1 5\n2 1 2\n", b"in0 = 0x14\n", "out0=1 out1=10"),
    (
        b"1 9\n1 6\n1 3\n6 3 0 1 2 3 4 5 6 7 8 MAND\n",
        b"in0 = 0x37\n",
        "out0=110",
    ),
    (
        b"1 9\n1 6\n1 3\n6 3 0 1 2 3 4 5 8 7 6 MAND\n",
        b"in0 = 0x1b\n",
        "out0=110",
    ),
    (
        b"2 4\n2 1 1\n2 1 1\n2 1 0 1 2 XOR\n2 1 0 1 3 AND\n",
        b"in0 = 1\nin1 = 1\n",
        "out0=0 out1=1",
    ),
    (b"0 1\n1 1\n0\n", b"in0 = 1\n", ""),
    (b"1 1\n0\n1 1\n1 1 1 0 EQ\n", b"", "out0=1"),
];

#[test]
fn circuits_compute_these_outputs(rt: HostRuntime) {
    let wrong = wrong_circuit(rt.alloc(), &CIRCUITS);
    assert!(rt; wrong.is_none(), "circuit {wrong:?}");
}

/// A circuit of every kind of gate.
static KINDS: &[u8] =
    b"6 11\n3 1 2 1\n2 1 3\n2 1 0 1 4 XOR\n2 1 4 2 5 AND\n1 1 5 6 INV\n1 1 1 7 EQ\n1 1 0 8 EQW\n4 2 0 1 2 3 9 10 MAND\n";

/// The gates of `KINDS`, each with its kind, its inputs, and its outputs.
static GATES: [(BristolKind, &[u32], &[u32]); 6] = [
    (BristolKind::Xor, &[0, 1], &[4]),
    (BristolKind::And, &[4, 2], &[5]),
    (BristolKind::Inv, &[5], &[6]),
    (BristolKind::Eq, &[1], &[7]),
    (BristolKind::Eqw, &[0], &[8]),
    (BristolKind::Mand, &[0, 1, 2, 3], &[9, 10]),
];

fn circuit_of(alloc: Global, text: &[u8]) -> Option<Bristol> {
    if text.len() > MAX_FILE_LENGTH {
        return None;
    }
    match read_bristol(alloc, text) {
        Ok(circuit) => Some(circuit),
        Err(_) => None,
    }
}

fn is_gate(circuit: &Bristol, at: usize, kind: BristolKind, ins: &[u32], outs: &[u32]) -> bool {
    if at >= circuit.len() as usize {
        return false;
    }
    let at = at as u32;
    circuit.kind(at) == kind && circuit.ins(at) == ins && circuit.outs(at) == outs
}

/// Whether a circuit has these gates and no others.
fn has_gates(circuit: &Bristol, gates: &[(BristolKind, &[u32], &[u32])]) -> bool {
    for (at, (kind, ins, outs)) in gates.iter().enumerate() {
        if !is_gate(circuit, at, *kind, ins, outs) {
            return false;
        }
    }
    circuit.len() as usize == gates.len()
}

#[test]
fn getters_tell_a_circuit(rt: HostRuntime) {
    let is_told = match circuit_of(rt.alloc(), KINDS) {
        Some(circuit) => circuit.wires() == 11 && has_gates(&circuit, &GATES),
        None => false,
    };
    assert!(rt; is_told);
}

fn is_input(table: &InputTable, at: u32, name: &str, party: u8, width: u32) -> bool {
    at < table.len()
        && table.name(at) == name
        && table.party(at) == Party(party)
        && table.width(at) == width
}

fn is_output(table: &OutputTable, at: u32, name: &str, width: u32) -> bool {
    at < table.len()
        && table.name(at) == name
        && table.receiver(at) == Receiver::All
        && table.width(at) == width
}

/// Whether the inputs are those of `KINDS`.
fn are_inputs(table: &InputTable) -> bool {
    table.len() == 3
        && is_input(table, 0, "in0", 0, 1)
        && is_input(table, 1, "in1", 1, 2)
        && is_input(table, 2, "in2", 0, 1)
}

/// Whether a circuit has the tables of `KINDS` for two parties.
fn has_tables(alloc: Global, circuit: &Bristol) -> bool {
    let (Ok(inputs), Ok(outputs)) = (circuit.inputs(alloc, 2), circuit.outputs(alloc)) else {
        return false;
    };
    are_inputs(&inputs)
        && outputs.len() == 2
        && is_output(&outputs, 0, "out0", 1)
        && is_output(&outputs, 1, "out1", 3)
}

#[test]
fn tables_tell_a_circuit(rt: HostRuntime) {
    let is_told = match circuit_of(rt.alloc(), KINDS) {
        Some(circuit) => has_tables(rt.alloc(), &circuit),
        None => false,
    };
    assert!(rt; is_told);
}

/// A text of `KINDS` with other blanks and with zeros in front.
static SPREAD: &[u8] =
    b"\n6\t011\r\n\n 3 1 2  1\n2 1 03\n\n2 1 0 1 4 XOR\n2 1 4 2 5 AND\n01 1 5 6 INV\n1 1 1 7 EQ\r\n1 1 0 8 EQW\n4 2 0 1 2 3 9 10 MAND";

fn is_written(alloc: Global, circuit: &Bristol, text: &[u8]) -> bool {
    match write_bristol(alloc, circuit) {
        Ok(written) => written.as_slice() == text,
        Err(_) => false,
    }
}

#[test]
fn a_circuit_is_written_canonically(rt: HostRuntime) {
    let is_canonical = match circuit_of(rt.alloc(), SPREAD) {
        Some(circuit) => is_written(rt.alloc(), &circuit, KINDS),
        None => false,
    };
    assert!(rt; is_canonical);
}
