//! Texts at the edges of the language, and the first line that shows a cause.
ghost use Rattle.std.specs.Prelude.{◌≤◌, length};
ghost use Rattle.mot_base.specs.Limits.{most_file_bytes};

use bristol_reader::{BristolCause, BristolError, read_bristol};
use mot_base::MAX_FILE_LENGTH;
use std::alloc::Global;

/// Whether a text reads with so many gates, or else has this cause in that line first.
fn is_read(alloc: Global, text: &[u8], number: u32, cause: Option<BristolCause>) -> bool
    requires { length text.now ≤ most_file_bytes }
{
    match read_bristol(alloc, text) {
        Ok(circuit) => cause.is_none() && circuit.len() == number,
        Err(BristolError::At { line, cause: first }) => line == number && cause == Some(first),
        Err(BristolError::NoMemory) => false,
    }
}

/// The number of the first text of which something else comes.
fn wrong_text(alloc: Global, rows: &[(&[u8], u32, Option<BristolCause>)]) -> Option<usize> {
    for (at, (text, number, cause)) in rows.iter().enumerate() {
        if text.len() > MAX_FILE_LENGTH || !is_read(alloc, text, *number, *cause) {
            return Some(at);
        }
    }
    None
}

// In each table: a text, and the first line that shows a cause with that cause, or the number of
// gates of a text that reads.

/// A text that reads, and each cause.
static CAUSES: [(&[u8], u32, Option<BristolCause>); 15] = [
    (b"1 3\n2 1 1\n1 1\n2 1 0 1 2 AND\n", 1, None),
    (b"1 3\n2 1 1\n1 1\n2 1 0 1 2 AND", 1, None),
    (
        b"1 3\n2 1 1\n1 1\n2 1 0 1 2 AND\xc8\n",
        4,
        Some(BristolCause::NotText),
    ),
    (
        b"1 3 9\n2 1 1\n1 1\n2 1 0 1 2 AND\n",
        1,
        Some(BristolCause::Header),
    ),
    (
        b"1 3\n2 1 0\n1 1\n2 1 0 1 2 AND\n",
        2,
        Some(BristolCause::Header),
    ),
    (
        b"1048577 3\n2 1 1\n1 1\n2 1 0 1 2 AND\n",
        1,
        Some(BristolCause::TooMany),
    ),
    (
        b"1 3\n2 2 2\n1 1\n2 1 0 1 2 AND\n",
        2,
        Some(BristolCause::Counts),
    ),
    (
        b"2 3\n2 1 1\n1 1\n2 1 0 1 2 AND\n",
        4,
        Some(BristolCause::Counts),
    ),
    (
        b"1 3\n2 1 1\n1 1\n2 1 0 1 2 AND\n2 1 0 1 2 AND\n",
        5,
        Some(BristolCause::Leftover),
    ),
    (
        b"1 3\n2 1 1\n1 1\n2 1 0 1 2 NAND\n",
        4,
        Some(BristolCause::GateName),
    ),
    (
        b"1 3\n2 1 1\n1 1\n2 1 0 2 AND\n",
        4,
        Some(BristolCause::Arity),
    ),
    (
        b"1 3\n2 1 1\n1 1\n2 1 0 3 2 AND\n",
        4,
        Some(BristolCause::WireRange),
    ),
    (
        b"1 3\n2 1 1\n1 1\n2 1 0 2 2 AND\n",
        4,
        Some(BristolCause::UsedBeforeSet),
    ),
    (
        b"1 3\n2 1 1\n1 1\n2 1 0 1 1 AND\n",
        4,
        Some(BristolCause::SetTwice),
    ),
    (b"0 3\n2 1 1\n1 1\n", 3, Some(BristolCause::OutputUnset)),
];

#[test]
fn a_text_reads_or_has_one_of_these_causes(rt: HostRuntime) {
    let wrong = wrong_text(rt.alloc(), &CAUSES);
    assert!(rt; wrong.is_none(), "text {wrong:?}");
}

/// Texts that end early or late, where the first line with a cause counts.
static LINES: [(&[u8], u32, Option<BristolCause>); 24] = [
    (b"", 1, Some(BristolCause::Header)),
    (b"\n", 1, Some(BristolCause::Header)),
    (b"\n\n\n", 3, Some(BristolCause::Header)),
    (b"1 3\n", 1, Some(BristolCause::Header)),
    (b"1 3\n2 1 1\n", 2, Some(BristolCause::Header)),
    (b"1 3\n2 1 1\n\n \t\n", 4, Some(BristolCause::Header)),
    (b"1048577 3", 1, Some(BristolCause::Header)),
    (b"1048577 3\n", 1, Some(BristolCause::Header)),
    (b"1048577 3\n\n", 1, Some(BristolCause::TooMany)),
    (b"1 3\n2 2 2", 2, Some(BristolCause::Header)),
    (b"1 3\n2 2 2\n\n", 2, Some(BristolCause::Counts)),
    (b"1 3\n2 1 1\n1 1\n", 3, Some(BristolCause::Counts)),
    (b"1 3\n2 1 1\n1 1\n\n\n", 5, Some(BristolCause::Counts)),
    (b"1 3\n2 1 1\n1 4", 3, Some(BristolCause::Counts)),
    (
        b"2 3\n2 1 1\n1 1\n2 1 0 1 2 NAND\n",
        4,
        Some(BristolCause::Counts),
    ),
    (
        b"2 3\n2 1 1\n1 1\n2 1 0 1 2 NAND\n\n",
        4,
        Some(BristolCause::GateName),
    ),
    (
        b"2 3\n2 1 1\n1 1\n2 1 0 1 2 AND\n\n",
        5,
        Some(BristolCause::Counts),
    ),
    (
        b"2 3\n2 1 1\n1 1\n2 1 0 1 2 AND\x7f\n",
        4,
        Some(BristolCause::NotText),
    ),
    (b"3 3\n2 1 1\n1 1\nx\ny\n", 4, Some(BristolCause::GateName)),
    (
        b"1 4\n2 1 1\n1 1\n2 1 0 1 2 AND\n",
        4,
        Some(BristolCause::OutputUnset),
    ),
    (
        b"1 4\n2 1 1\n1 1\n2 1 0 1 2 AND\n\n\r\n",
        6,
        Some(BristolCause::OutputUnset),
    ),
    (
        b"1 4\n2 1 1\n1 1\n2 1 0 1 4 AND\n",
        4,
        Some(BristolCause::WireRange),
    ),
    (b"0 2\n2 1 1\n1 1\nx\n", 4, Some(BristolCause::Leftover)),
    (b"0 3\n2 1 1\n1 1\nx\n", 4, Some(BristolCause::Leftover)),
];

#[test]
fn the_first_line_with_a_cause_is_named(rt: HostRuntime) {
    let wrong = wrong_text(rt.alloc(), &LINES);
    assert!(rt; wrong.is_none(), "text {wrong:?}");
}

/// What the first three lines say, and how a line is written.
static HEADS: [(&[u8], u32, Option<BristolCause>); 29] = [
    (b"0 0\n0\n0\n", 0, None),
    (b"0 2\n2 1 1\n1 1\n", 0, None),
    (b"0 2\n2 1 1\n2 1 1\n", 0, None),
    (b"1 1\n0\n1 1\n1 1 1 0 EQ\n", 1, None),
    (b"1 2\n1 1\n0\n1 1 0 1 INV\n", 1, None),
    (b"01 003\n002 01 1\n1 0001\n02 01 00 01 02 AND\n", 1, None),
    (
        b"1 3\n2 1 1\n1 0\n2 1 0 1 2 AND\n",
        3,
        Some(BristolCause::Header),
    ),
    (
        b"1 3\n3 1 1\n1 1\n2 1 0 1 2 AND\n",
        2,
        Some(BristolCause::Header),
    ),
    (
        b"1 3\n2 1 1 1\n1 1\n2 1 0 1 2 AND\n",
        2,
        Some(BristolCause::Header),
    ),
    (
        b"1\n2 1 1\n1 1\n2 1 0 1 2 AND\n",
        1,
        Some(BristolCause::Header),
    ),
    (
        b"0x1 3\n2 1 1\n1 1\n2 1 0 1 2 AND\n",
        1,
        Some(BristolCause::Header),
    ),
    (
        b"+1 3\n2 1 1\n1 1\n2 1 0 1 2 AND\n",
        1,
        Some(BristolCause::Header),
    ),
    (
        b"1 -3\n2 1 1\n1 1\n2 1 0 1 2 AND\n",
        1,
        Some(BristolCause::Header),
    ),
    (
        b"1 3 # c\n2 1 1\n1 1\n2 1 0 1 2 AND\n",
        1,
        Some(BristolCause::Header),
    ),
    (
        b"# c\n1 3\n2 1 1\n1 1\n2 1 0 1 2 AND\n",
        1,
        Some(BristolCause::Header),
    ),
    (
        b"1 3\n2 1 1\n1 1 #\n2 1 0 1 2 AND\n",
        3,
        Some(BristolCause::Header),
    ),
    (
        b"1 4194305\n2 1 1\n1 1\n2 1 0 1 2 AND\n",
        1,
        Some(BristolCause::TooMany),
    ),
    (b"0 4194304\n0\n0\n", 0, None),
    (b"1048576 0\n0\n0\n", 3, Some(BristolCause::Counts)),
    (
        b"18446744073709551617 3\n2 1 1\n1 1\n",
        1,
        Some(BristolCause::TooMany),
    ),
    (
        b"1 340282366920938463463374607431768211459\n2 1 1\n1 1\n",
        1,
        Some(BristolCause::TooMany),
    ),
    (
        b"1 3\n2 1 18446744073709551617\n1 1\n2 1 0 1 2 AND\n",
        2,
        Some(BristolCause::Counts),
    ),
    (
        b"1 3\n2 18446744073709551615 18446744073709551615\n1 1\n",
        2,
        Some(BristolCause::Counts),
    ),
    (
        b"1 3\n18446744073709551618 1 1\n1 1\n2 1 0 1 2 AND\n",
        2,
        Some(BristolCause::Header),
    ),
    (b"1 3\n1 3\n1 4\n", 3, Some(BristolCause::Counts)),
    (
        b"1 3\n1 4\n1 3\n1 1 0 1 EQW\n",
        2,
        Some(BristolCause::Counts),
    ),
    (
        b"\t1\t3\r\n\r\n 2  1 1 \r\n\r\n\n1 1\n\n2 1 0 1 2 AND\r\n\r\n",
        1,
        None,
    ),
    (
        b"1\x0b3\n2 1 1\n1 1\n2 1 0 1 2 AND\n",
        1,
        Some(BristolCause::NotText),
    ),
    (
        b"1 3\n2 1 1\n\n\x00\n1 1\n2 1 0 1 2 AND\n",
        4,
        Some(BristolCause::NotText),
    ),
];

#[test]
fn the_first_three_lines_say_how_many_there_are(rt: HostRuntime) {
    let wrong = wrong_text(rt.alloc(), &HEADS);
    assert!(rt; wrong.is_none(), "text {wrong:?}");
}

/// Kinds of gates, and their names.
static GATES: [(&[u8], u32, Option<BristolCause>); 25] = [
    (b"1 3\n2 1 1\n1 1\n2 1 0 1 2 XOR\n", 1, None),
    (b"1 3\n2 1 1\n1 1\n2 1 0 1 2 AND\n", 1, None),
    (b"1 3\n2 1 1\n1 1\n2 1 0 1 2 MAND\n", 1, None),
    (b"1 3\n2 1 1\n1 1\n1 1 1 2 INV\n", 1, None),
    (b"1 3\n2 1 1\n1 1\n1 1 1 2 EQW\n", 1, None),
    (b"1 3\n2 1 1\n1 1\n1 1 1 2 EQ\n", 1, None),
    (b"1 3\n2 1 1\n1 1\n1 1 0 2 EQ\n", 1, None),
    (
        b"1 3\n2 1 1\n1 1\n1 1 2 2 EQ\n",
        4,
        Some(BristolCause::WireRange),
    ),
    (
        b"1 3\n2 1 1\n1 1\n1 1 2 2 EQW\n",
        4,
        Some(BristolCause::UsedBeforeSet),
    ),
    (
        b"1 3\n2 1 1\n1 1\n1 1 18446744073709551617 2 EQ\n",
        4,
        Some(BristolCause::WireRange),
    ),
    (b"1 3\n2 1 1\n1 1\nAND\n", 4, Some(BristolCause::Arity)),
    (b"1 3\n2 1 1\n1 1\n2 AND\n", 4, Some(BristolCause::Arity)),
    (b"1 3\n2 1 1\n1 1\n2 1 AND\n", 4, Some(BristolCause::Arity)),
    (
        b"1 3\n2 1 1\n1 1\n2 1 0 1 2 2 AND\n",
        4,
        Some(BristolCause::Arity),
    ),
    (
        b"1 3\n2 1 1\n1 1\n1 1 0 2 AND\n",
        4,
        Some(BristolCause::Arity),
    ),
    (
        b"1 3\n2 1 1\n1 1\n2 1 a 1 2 AND\n",
        4,
        Some(BristolCause::Arity),
    ),
    (
        b"1 3\n2 1 1\n1 1\n2 1 0 1 0x2 AND\n",
        4,
        Some(BristolCause::Arity),
    ),
    (
        b"1 3\n2 1 1\n1 1\n2 1 0 1 2 AND AND\n",
        4,
        Some(BristolCause::Arity),
    ),
    (
        b"1 3\n2 1 1\n1 1\n2 1 0 1 AND 2\n",
        4,
        Some(BristolCause::GateName),
    ),
    (
        b"1 3\n2 1 1\n1 1\n2 1 0 1 2 and\n",
        4,
        Some(BristolCause::GateName),
    ),
    (
        b"1 3\n2 1 1\n1 1\n2 1 0 1 2 ANDD\n",
        4,
        Some(BristolCause::GateName),
    ),
    (
        b"1 3\n2 1 1\n1 1\n2 1 0 1 2\n",
        4,
        Some(BristolCause::GateName),
    ),
    (
        b"1 3\n2 1 1\n1 1\n2 1 0 1 2 AND # c\n",
        4,
        Some(BristolCause::GateName),
    ),
    (
        b"1 3\n2 1 1\n1 1\n2 1 0 1 2 NOT\n",
        4,
        Some(BristolCause::GateName),
    ),
    (
        b"1 3\n2 1 1\n1 1\n2 1 9 9 9 OR\n",
        4,
        Some(BristolCause::GateName),
    ),
];

#[test]
fn gates_have_these_names(rt: HostRuntime) {
    let wrong = wrong_text(rt.alloc(), &GATES);
    assert!(rt; wrong.is_none(), "text {wrong:?}");
}

/// How many wires a gate has, and which.
static WIRES: [(&[u8], u32, Option<BristolCause>); 24] = [
    (
        b"1 3\n2 1 1\n1 1\n2 2 9 9 9 AND\n",
        4,
        Some(BristolCause::Arity),
    ),
    (
        b"1 3\n2 1 1\n1 1\n1 1 0 2 XOR\n",
        4,
        Some(BristolCause::Arity),
    ),
    (
        b"1 3\n2 1 1\n1 1\n2 1 0 1 2 INV\n",
        4,
        Some(BristolCause::Arity),
    ),
    (
        b"1 3\n2 1 1\n1 1\n1 2 0 2 2 EQW\n",
        4,
        Some(BristolCause::Arity),
    ),
    (b"1 3\n2 1 1\n1 1\n0 0 MAND\n", 4, Some(BristolCause::Arity)),
    (
        b"1 3\n2 1 1\n1 1\n3 1 0 1 0 2 MAND\n",
        4,
        Some(BristolCause::Arity),
    ),
    (
        b"1 3\n2 1 1\n1 1\n2 2 0 1 2 2 MAND\n",
        4,
        Some(BristolCause::Arity),
    ),
    (
        b"1 3\n2 1 1\n1 1\n1 1 0 2 MAND\n",
        4,
        Some(BristolCause::Arity),
    ),
    (
        b"1 3\n2 1 1\n1 1\n18446744073709551618 1 0 1 2 AND\n",
        4,
        Some(BristolCause::Arity),
    ),
    (
        b"1 3\n2 1 1\n1 1\n2 18446744073709551617 0 1 2 AND\n",
        4,
        Some(BristolCause::Arity),
    ),
    (
        b"1 3\n2 1 1\n1 1\n2 1 0 18446744073709551616 2 AND\n",
        4,
        Some(BristolCause::WireRange),
    ),
    (
        b"1 3\n2 1 1\n1 1\n2 1 0 1 18446744073709551618 AND\n",
        4,
        Some(BristolCause::WireRange),
    ),
    (
        b"1 3\n2 1 1\n1 1\n2 1 0 1 3 AND\n",
        4,
        Some(BristolCause::WireRange),
    ),
    (
        b"1 3\n2 1 1\n1 1\n2 1 3 2 1 AND\n",
        4,
        Some(BristolCause::WireRange),
    ),
    (
        b"1 3\n2 1 1\n1 1\n2 1 2 0 1 AND\n",
        4,
        Some(BristolCause::UsedBeforeSet),
    ),
    (
        b"1 3\n2 1 1\n1 1\n2 1 0 1 0 AND\n",
        4,
        Some(BristolCause::SetTwice),
    ),
    (
        b"1 6\n1 4\n1 2\n4 2 0 1 2 3 4 4 MAND\n",
        4,
        Some(BristolCause::SetTwice),
    ),
    (
        b"1 6\n1 4\n1 2\n4 2 0 1 2 4 4 5 MAND\n",
        4,
        Some(BristolCause::UsedBeforeSet),
    ),
    (b"1 6\n1 4\n1 2\n4 2 0 0 0 0 5 4 MAND\n", 1, None),
    (
        b"2 4\n2 1 1\n1 1\n2 1 0 1 2 AND\n2 1 0 1 2 XOR\n",
        5,
        Some(BristolCause::SetTwice),
    ),
    (
        b"2 4\n2 1 1\n1 1\n\n2 1 0 3 2 AND\n2 1 0 1 3 XOR\n",
        5,
        Some(BristolCause::UsedBeforeSet),
    ),
    (
        b"2 4\n2 1 1\n1 1\n\n2 1 0 1 3 AND\n2 1 0 3 2 XOR\n",
        2,
        None,
    ),
    (b"1 4\n2 1 1\n1 1\n2 1 0 1 3 AND\n", 1, None),
    (
        b"4 9\n1 4\n1 3\n\n1 1 1 4 EQ\n1 1 0 5 EQW\n4 2 2 3 4 5 6 7 MAND\n2 1 6 7 8 XOR\n",
        4,
        None,
    ),
];

#[test]
fn gates_have_wires_that_are_there_and_set(rt: HostRuntime) {
    let wrong = wrong_text(rt.alloc(), &WIRES);
    assert!(rt; wrong.is_none(), "text {wrong:?}");
}
