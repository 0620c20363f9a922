//! Texts of values for tables of inputs.
ghost use Rattle.std.specs.Prelude.{◌≡◌, ◌≤◌, ◌∷◌, [], IfOk, length, map};
ghost use Rattle.mot_base.specs.Limits.{most_file_bytes};
ghost use Rattle.circuit_tables.specs.Table.{AreNamedApart};

use circuit_values::{InputTable, ValuesCause, ValuesError, read_values};
use mot_base::{MAX_FILE_LENGTH, NoMemory, Party};
use std::alloc::Global;
use std::test::Fail;

/// A table of a word `x`, a vector `y` of four bits, and a vector `z` of a hundred bits.
fn table(alloc: Global) -> Result<InputTable, NoMemory>
    ensures apart { IfOk result (λ inputs. AreNamedApart inputs) }
    ensures widths { IfOk result (λ inputs. map (λ i. i.width) inputs ≡ 64 ∷ 4 ∷ 100 ∷ []) }
{
    let mut inputs = InputTable::new(alloc);
    inputs.push("x", Party(0), 64)?;
    inputs.push("y", Party(1), 4)?;
    inputs.push("z", Party(0), 100)?;
    Ok(inputs)
}

/// Whether a text reads, or else has this cause in that line first.
fn is_read(
    alloc: Global,
    inputs: &InputTable,
    text: &[u8],
    owner: Option<Party>,
    fault: Option<(u32, ValuesCause)>,
) -> bool
    requires text { length text.now ≤ most_file_bytes }
    requires inputs { AreNamedApart inputs.now }
{
    match read_values(alloc, text, inputs, owner) {
        Ok(_) => fault.is_none(),
        Err(ValuesError::At { line, cause }) => fault == Some((line, cause)),
        Err(ValuesError::NoMemory) => false,
    }
}

/// The number of the first text of which something else comes.
fn wrong_text(
    alloc: Global,
    rows: &[(&[u8], Option<Party>, Option<(u32, ValuesCause)>)],
) -> Option<usize> {
    let Ok(inputs) = table(alloc) else {
        return Some(0);
    };
    for (at, (text, owner, fault)) in rows.iter().enumerate() {
        if text.len() > MAX_FILE_LENGTH || !is_read(alloc, &inputs, text, *owner, *fault) {
            return Some(at);
        }
    }
    None
}

/// The words of `x` and `y`, and the low and the high word of `z`.
fn words_of(alloc: Global, text: &[u8]) -> Result<(u64, u64, u64, u64), Fail>
    requires { length text.now ≤ most_file_bytes }
{
    let inputs = table(alloc)?;
    let values = read_values(alloc, text, &inputs, None)?;
    let x = values.bits(0, 0, 64);
    let y = values.bits(1, 0, 4);
    let low = values.bits(2, 0, 64);
    let high = values.bits(2, 64, 36);
    Ok((x.word, y.word, low.word, high.word))
}

// In each table: a text for the inputs of `table`, the party whose inputs are asked for if it is one, and the first
// line that shows a cause with that cause, if one does.

/// Texts that read, lack a value, or have one that is too wide.
static NUMBERS: [(&[u8], Option<Party>, Option<(u32, ValuesCause)>); 21] = [
    (b"x = 6\ny = 7\nz = 8\n", None, None),
    (b"z = 8\ny = 7\nx = 6", None, None),
    (
        b"x = 6\n\n# c\ny = 0x7 # seven\r\n\tz\t=\t0x00008",
        None,
        None,
    ),
    (
        b"x = 18446744073709551615\ny = 15\nz = 0xfffffffffffffffffffffffff",
        None,
        None,
    ),
    (
        b"x = 0xFFFFFFFFFFFFFFFF\ny = 0xF\nz = 0x8000000000000000000000000",
        None,
        None,
    ),
    (
        b"x = 0x0000000000000000000000000000000001\ny = 00000000000000000000000000000000000001\nz = 0",
        None,
        None,
    ),
    (
        b"x = 0xfedcba9876543210\ny = 0xA\nz = 18446744073709551615",
        None,
        None,
    ),
    (
        b"x = 0xabcdefABCDEF\ny = 8\nz = 0x0123456789abcdef01234567",
        None,
        None,
    ),
    (b"", None, Some((1, ValuesCause::Missing))),
    (b"\n", None, Some((1, ValuesCause::Missing))),
    (b"x = 6\n", None, Some((1, ValuesCause::Missing))),
    (
        b"x = 6\nx = 6\ny = 7\n",
        None,
        Some((2, ValuesCause::Twice)),
    ),
    (b"x = 6\ny = 7\n", None, Some((2, ValuesCause::Missing))),
    (b"x = 6\ny = 7\n\n\n", None, Some((4, ValuesCause::Missing))),
    (b"# x = 6\n", None, Some((1, ValuesCause::Missing))),
    (
        b"x = 6\ny = 16\nz = 8",
        None,
        Some((2, ValuesCause::TooWide)),
    ),
    (
        b"x = 18446744073709551616\ny = 7\nz = 8",
        None,
        Some((1, ValuesCause::TooWide)),
    ),
    (
        b"x = 0x10000000000000000\ny = 7\nz = 8",
        None,
        Some((1, ValuesCause::TooWide)),
    ),
    (
        b"x = 6\ny = 7\nz = 18446744073709551616",
        None,
        Some((3, ValuesCause::TooWide)),
    ),
    (
        b"x = 6\ny = 7\nz = 0x10000000000000000000000000",
        None,
        Some((3, ValuesCause::TooWide)),
    ),
    (b"y = 0x10\n", None, Some((1, ValuesCause::TooWide))),
];

#[test]
fn values_stand_once_and_fit(rt: HostRuntime) {
    let wrong = wrong_text(rt.alloc(), &NUMBERS);
    assert!(rt; wrong.is_none(), "text {wrong:?}");
}

/// Lines whose words say no value.
static WORDS_OF_LINES: [(&[u8], Option<Party>, Option<(u32, ValuesCause)>); 21] = [
    (b"x 6", None, Some((1, ValuesCause::Word))),
    (b"x = 6 7", None, Some((1, ValuesCause::Word))),
    (b"x == 6", None, Some((1, ValuesCause::Word))),
    (b"x =6", None, Some((1, ValuesCause::Word))),
    (b"x= 6", None, Some((1, ValuesCause::Word))),
    (b"= 6", None, Some((1, ValuesCause::Word))),
    (b"x =", None, Some((1, ValuesCause::Word))),
    (b"x = 0x", None, Some((1, ValuesCause::Word))),
    (b"x = 0X1", None, Some((1, ValuesCause::Word))),
    (b"x = 0xg", None, Some((1, ValuesCause::Word))),
    (b"x = 6a", None, Some((1, ValuesCause::Word))),
    (b"x = -1", None, Some((1, ValuesCause::Word))),
    (b"x = +1", None, Some((1, ValuesCause::Word))),
    (b"x = 1_0", None, Some((1, ValuesCause::Word))),
    (b"x = 0b1", None, Some((1, ValuesCause::Word))),
    (b"x = 1 # = 2", None, Some((1, ValuesCause::Missing))),
    (b"x # = 6", None, Some((1, ValuesCause::Word))),
    (b"x = 6\xc3\xa9", None, Some((1, ValuesCause::Word))),
    (b"x = 6 # \xc3\xa9", None, Some((1, ValuesCause::Word))),
    (b"x = 6 \x7f", None, Some((1, ValuesCause::Word))),
    (b"x = 6\x0b", None, Some((1, ValuesCause::Word))),
];

#[test]
fn lines_of_other_words_are_named(rt: HostRuntime) {
    let wrong = wrong_text(rt.alloc(), &WORDS_OF_LINES);
    assert!(rt; wrong.is_none(), "text {wrong:?}");
}

/// Names that are unknown or stand twice.
static NAMES: [(&[u8], Option<Party>, Option<(u32, ValuesCause)>); 16] = [
    (b"q = 6", None, Some((1, ValuesCause::NameUnknown))),
    (b"X = 6", None, Some((1, ValuesCause::NameUnknown))),
    (b"x1 = 6", None, Some((1, ValuesCause::NameUnknown))),
    (b"1 = 6", None, Some((1, ValuesCause::NameUnknown))),
    (b"all = 6", None, Some((1, ValuesCause::NameUnknown))),
    (
        b"q = 99999999999999999999999",
        None,
        Some((1, ValuesCause::NameUnknown)),
    ),
    (b"q = 0x", None, Some((1, ValuesCause::Word))),
    (b"x = 6\nq = 7", None, Some((2, ValuesCause::NameUnknown))),
    (b"x = 6\nx = 0x", None, Some((2, ValuesCause::Word))),
    (
        b"x = 6\nx = 18446744073709551616",
        None,
        Some((2, ValuesCause::Twice)),
    ),
    (
        b"x = 6\nq = 18446744073709551616",
        None,
        Some((2, ValuesCause::NameUnknown)),
    ),
    (b"y = 16\ny = 16", None, Some((1, ValuesCause::TooWide))),
    (b"y = 3\ny = 16", None, Some((2, ValuesCause::Twice))),
    (b"x = 6\n\n\nx = 6", None, Some((4, ValuesCause::Twice))),
    (
        b"x = 6\ny = 7\nz = 8\nq = 9",
        None,
        Some((4, ValuesCause::NameUnknown)),
    ),
    (
        b"x = 6\ny = 7\nz = 8\nz = 8",
        None,
        Some((4, ValuesCause::Twice)),
    ),
];

#[test]
fn names_are_known_and_stand_once(rt: HostRuntime) {
    let wrong = wrong_text(rt.alloc(), &NAMES);
    assert!(rt; wrong.is_none(), "text {wrong:?}");
}

/// Texts of one party.
static OF_PARTIES: [(&[u8], Option<Party>, Option<(u32, ValuesCause)>); 14] = [
    (b"x = 6\nz = 8\n", Some(Party(0)), None),
    (
        b"x = 6\ny = 7\nz = 8\n",
        Some(Party(0)),
        Some((2, ValuesCause::NameUnknown)),
    ),
    (b"z = 8", Some(Party(0)), Some((1, ValuesCause::Missing))),
    (b"", Some(Party(0)), Some((1, ValuesCause::Missing))),
    (
        b"x = 6\nz = 8\nx = 6",
        Some(Party(0)),
        Some((3, ValuesCause::Twice)),
    ),
    (b"y = 7\n", Some(Party(1)), None),
    (
        b"x = 6\ny = 7",
        Some(Party(1)),
        Some((1, ValuesCause::NameUnknown)),
    ),
    (b"", Some(Party(1)), Some((1, ValuesCause::Missing))),
    (
        b"y = 7\ny = 7",
        Some(Party(1)),
        Some((2, ValuesCause::Twice)),
    ),
    (b"y = 16", Some(Party(1)), Some((1, ValuesCause::TooWide))),
    (b"", Some(Party(2)), None),
    (b"\n# c\n", Some(Party(2)), None),
    (
        b"x = 6",
        Some(Party(2)),
        Some((1, ValuesCause::NameUnknown)),
    ),
    (b"x", Some(Party(2)), Some((1, ValuesCause::Word))),
];

#[test]
fn a_party_gives_its_own_values(rt: HostRuntime) {
    let wrong = wrong_text(rt.alloc(), &OF_PARTIES);
    assert!(rt; wrong.is_none(), "text {wrong:?}");
}

/// Texts for all inputs, and the words of `x` and `y`, and the low and the high word of `z`.
static WORDS: [(&[u8], u64, u64, u64, u64); 8] = [
    (b"x = 6\ny = 7\nz = 8\n", 0x6, 0x7, 0x8, 0x0),
    (b"z = 8\ny = 7\nx = 6", 0x6, 0x7, 0x8, 0x0),
    (
        b"x = 6\n\n# c\ny = 0x7 # seven\r\n\tz\t=\t0x00008",
        0x6,
        0x7,
        0x8,
        0x0,
    ),
    (
        b"x = 18446744073709551615\ny = 15\nz = 0xfffffffffffffffffffffffff",
        0xffffffffffffffff,
        0xf,
        0xffffffffffffffff,
        0xfffffffff,
    ),
    (
        b"x = 0xFFFFFFFFFFFFFFFF\ny = 0xF\nz = 0x8000000000000000000000000",
        0xffffffffffffffff,
        0xf,
        0x0,
        0x800000000,
    ),
    (
        b"x = 0x0000000000000000000000000000000001\ny = 00000000000000000000000000000000000001\nz = 0",
        0x1,
        0x1,
        0x0,
        0x0,
    ),
    (
        b"x = 0xfedcba9876543210\ny = 0xA\nz = 18446744073709551615",
        0xfedcba9876543210,
        0xa,
        0xffffffffffffffff,
        0x0,
    ),
    (
        b"x = 0xabcdefABCDEF\ny = 8\nz = 0x0123456789abcdef01234567",
        0xabcdefabcdef,
        0x8,
        0x89abcdef01234567,
        0x1234567,
    ),
];

fn are_words(alloc: Global, text: &[u8], words: (u64, u64, u64, u64)) -> Result<bool, Fail> {
    Ok(text.len() <= MAX_FILE_LENGTH && words_of(alloc, text)? == words)
}

/// The number of the first text with other words.
fn wrong_words(alloc: Global, rows: &[(&[u8], u64, u64, u64, u64)]) -> Result<Option<usize>, Fail> {
    for (at, (text, x, y, low, high)) in rows.iter().enumerate() {
        if !are_words(alloc, text, (*x, *y, *low, *high))? {
            return Ok(Some(at));
        }
    }
    Ok(None)
}

#[test]
fn literals_give_these_bits(rt: HostRuntime) -> Result<(), Fail> {
    let wrong = wrong_words(rt.alloc(), &WORDS)?;
    assert!(rt; wrong.is_none(), "text {wrong:?}");
    Ok(())
}
