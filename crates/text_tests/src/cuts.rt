//! Told bits that are cut into outputs.

use circuit_values::{OutputTable, Outputs, Receiver};
use mot_base::Party;
use share_types::Bits;
use std::alloc::Global;

/// A table of four outputs, to party 0, to all, to party 1 and to party 0, of which the last is wider than a
/// word.
fn table(alloc: Global) -> Option<OutputTable> {
    let mut outputs = OutputTable::new(alloc);
    let are_pushed = outputs.push("p", Receiver::One(Party(0)), 3).is_ok()
        && outputs.push("q", Receiver::All, 5).is_ok()
        && outputs.push("r", Receiver::One(Party(1)), 2).is_ok()
        && outputs.push("s", Receiver::One(Party(0)), 66).is_ok();
    if are_pushed { Some(outputs) } else { None }
}

/// Vectors of these numbers and widths.
fn vectors(alloc: Global, told: &[(u64, u8)]) -> Option<Vec<Bits>> {
    let mut vectors = Vec::new(alloc);
    for (word, width) in told {
        let vector = Bits::new(*word, *width)?;
        vectors.push(vector).ok()?;
    }
    Some(vectors)
}

/// Whether a text shows some bits, the least first.
fn are_shown(bits: &[bool], text: &str) -> bool {
    for (bit, digit) in bits.iter().zip(text.bytes()) {
        if digit != if *bit { b'1' } else { b'0' } {
            return false;
        }
    }
    bits.len() == text.len()
}

/// Whether an output has this name, this receiver and these bits.
fn is_output(outputs: &Outputs, at: usize, name: &str, to: Receiver, bits: &str) -> bool {
    if at >= outputs.len() as usize {
        return false;
    }
    let at = at as u32;
    outputs.name(at) == name && outputs.receiver(at) == to && are_shown(outputs.bits(at), bits)
}

/// Whether these are the outputs, each with its name, its receiver and its bits.
fn are_outputs(outputs: &Outputs, rows: &[(&str, Receiver, &str)]) -> bool {
    for (at, (name, to, bits)) in rows.iter().enumerate() {
        if !is_output(outputs, at, name, *to, bits) {
            return false;
        }
    }
    outputs.len() as usize == rows.len()
}

/// Whether the vectors are cut into these outputs.
fn are_cut_into(
    alloc: Global,
    table: &OutputTable,
    party: Option<Party>,
    vectors: &[Bits],
    rows: &[(&str, Receiver, &str)],
) -> bool {
    if !Outputs::can_cut(table, party, vectors) {
        return false;
    }
    match Outputs::cut(alloc, table, party, vectors) {
        Ok(outputs) => are_outputs(&outputs, rows),
        Err(_) => false,
    }
}

/// Whether the vectors are cut into these outputs, or cannot be cut where there are none.
fn are_cut(
    alloc: Global,
    table: &OutputTable,
    party: Option<Party>,
    vectors: &[Bits],
    rows: Option<&[(&str, Receiver, &str)]>,
) -> bool {
    match rows {
        Some(rows) => are_cut_into(alloc, table, party, vectors, rows),
        None => !Outputs::can_cut(table, party, vectors),
    }
}

/// What a party is told, if it is one, and the outputs with their bits, the least first.
struct Cut {
    party: Option<Party>,
    told: &'static [(u64, u8)],
    outputs: Option<&'static [(&'static str, Receiver, &'static str)]>,
}

static CUTS: [Cut; 9] = [
    Cut {
        party: Some(Party(0)),
        told: &[(5, 3), (9, 5), (0x8000000000000001, 64), (2, 2)],
        outputs: Some(&[
            ("p", Receiver::One(Party(0)), "101"),
            ("q", Receiver::All, "10010"),
            (
                "s",
                Receiver::One(Party(0)),
                "100000000000000000000000000000000000000000000000000000000000000101",
            ),
        ]),
    },
    Cut {
        party: Some(Party(1)),
        told: &[(9, 5), (2, 2)],
        outputs: Some(&[
            ("q", Receiver::All, "10010"),
            ("r", Receiver::One(Party(1)), "01"),
        ]),
    },
    Cut {
        party: Some(Party(1)),
        told: &[(41, 7)],
        outputs: Some(&[
            ("q", Receiver::All, "10010"),
            ("r", Receiver::One(Party(1)), "10"),
        ]),
    },
    Cut {
        party: Some(Party(1)),
        told: &[(1, 1), (0, 1), (0, 1), (1, 1), (0, 1), (0, 1), (1, 1)],
        outputs: Some(&[
            ("q", Receiver::All, "10010"),
            ("r", Receiver::One(Party(1)), "01"),
        ]),
    },
    Cut {
        party: Some(Party(2)),
        told: &[(31, 5)],
        outputs: Some(&[("q", Receiver::All, "11111")]),
    },
    Cut {
        party: None,
        told: &[(590, 10), (3, 64), (3, 2)],
        outputs: Some(&[
            ("p", Receiver::One(Party(0)), "011"),
            ("q", Receiver::All, "10010"),
            ("r", Receiver::One(Party(1)), "01"),
            (
                "s",
                Receiver::One(Party(0)),
                "110000000000000000000000000000000000000000000000000000000000000011",
            ),
        ]),
    },
    Cut {
        party: Some(Party(2)),
        told: &[],
        outputs: None,
    },
    Cut {
        party: Some(Party(2)),
        told: &[(9, 4)],
        outputs: None,
    },
    Cut {
        party: Some(Party(2)),
        told: &[(9, 5), (1, 1)],
        outputs: None,
    },
];

/// Whether the outputs of `table` are cut as a row says.
fn is_cut(alloc: Global, row: &Cut) -> bool {
    match (table(alloc), vectors(alloc, row.told)) {
        (Some(table), Some(vectors)) => { are_cut(alloc, &table, row.party, &vectors, row.outputs) }
        _ => false,
    }
}

/// The number of the first row that is cut otherwise.
fn wrong_cut(alloc: Global, rows: &[Cut]) -> Option<usize> {
    for (at, row) in rows.iter().enumerate() {
        if !is_cut(alloc, row) {
            return Some(at);
        }
    }
    None
}

#[test]
fn told_bits_are_cut_into_these_outputs(rt: HostRuntime) {
    let wrong = wrong_cut(rt.alloc(), &CUTS);
    assert!(rt; wrong.is_none(), "row {wrong:?}");
}
