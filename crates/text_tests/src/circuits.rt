//! Texts of circuits, and what they read as.
ghost use Rattle.std.specs.Prelude.{◌≤◌, length};
ghost use Rattle.mot_base.specs.Limits.{most_file_bytes};

use mixed_circuit::{
    CircuitCause, CircuitError, Form, InputTable, Mixed, OutputTable, Receiver, read_mixed,
};
use mot_base::{MAX_FILE_LENGTH, MAX_STATEMENTS, Party};
use share_types::WireType;
use std::alloc::{AllocError, Global};

/// The number of statements that a text says, or the first line that shows a cause, with that cause.
fn outcome(alloc: Global, text: &[u8]) -> Option<(u32, Option<CircuitCause>)>
    requires { length text.now ≤ most_file_bytes }
{
    match read_mixed(alloc, text) {
        Ok(circuit) => Some((circuit.len(), None)),
        Err(CircuitError::At { line, cause }) => Some((line, Some(cause))),
        Err(CircuitError::NoMemory) => None,
    }
}

/// Whether this comes of a text.
fn is_read(alloc: Global, text: &[u8], number: u32, cause: Option<CircuitCause>) -> bool {
    text.len() <= MAX_FILE_LENGTH && outcome(alloc, text) == Some((number, cause))
}

/// The number of the first text of which something else comes.
fn wrong_text(alloc: Global, rows: &[(&[u8], u32, Option<CircuitCause>)]) -> Option<usize> {
    for (at, (text, number, cause)) in rows.iter().enumerate() {
        if !is_read(alloc, text, *number, *cause) {
            return Some(at);
        }
    }
    None
}

// In both tables: a text, and the first line that shows a cause with that cause, or the number of
// statements that a text says.

/// The first two lines.
static HEADERS: [(&[u8], u32, Option<CircuitCause>); 32] = [
    (b"", 1, Some(CircuitCause::Header)),
    (b"\n", 1, Some(CircuitCause::Header)),
    (b"\n\n\n", 3, Some(CircuitCause::Header)),
    (b"# only a comment\n", 1, Some(CircuitCause::Header)),
    (b"mixed 1", 1, Some(CircuitCause::Header)),
    (b"mixed 1\n", 1, Some(CircuitCause::Header)),
    (b"mixed 01\nparties 2\n", 1, Some(CircuitCause::Header)),
    (b"mixed 0x1\nparties 2\n", 1, Some(CircuitCause::Header)),
    (b"mixed 2\nparties 2\n", 1, Some(CircuitCause::Header)),
    (b"Mixed 1\nparties 2\n", 1, Some(CircuitCause::Header)),
    (b"mixed 1 1\nparties 2\n", 1, Some(CircuitCause::Header)),
    (b"mixed\nparties 2\n", 1, Some(CircuitCause::Header)),
    (b"parties 2\nmixed 1\n", 1, Some(CircuitCause::Header)),
    (b"mixed 1\nparties 1\n", 2, Some(CircuitCause::Header)),
    (b"mixed 1\nparties 9\n", 2, Some(CircuitCause::Header)),
    (b"mixed 1\nparties 0\n", 2, Some(CircuitCause::Header)),
    (b"mixed 1\nparties two\n", 2, Some(CircuitCause::Header)),
    (b"mixed 1\nparties 2 2\n", 2, Some(CircuitCause::Header)),
    (b"mixed 1\nparties\n", 2, Some(CircuitCause::Header)),
    (b"mixed 1\nparties 0x8\n", 0, None),
    (b"mixed 1\nparties 0008\n", 0, None),
    (b"mixed 1\nparties 2", 0, None),
    (b"\n# c\n\tmixed\t1\r\n\n parties 2 # two\r\n", 0, None),
    (b"mixed 1\n\n\nx = add y z\n", 4, Some(CircuitCause::Header)),
    (
        b"mixed 1\nparties 2\nparties 2\n",
        3,
        Some(CircuitCause::Word),
    ),
    (
        b"mixed 1\nmixed 1\nparties 2\n",
        2,
        Some(CircuitCause::Header),
    ),
    (
        b"mixed 1\nparties 18446744073709551618\n",
        2,
        Some(CircuitCause::Header),
    ),
    (
        b"mixed 1\n# \xc3\xa9\nparties 2\n",
        2,
        Some(CircuitCause::NotText),
    ),
    (b"\xc3\xa9\n", 1, Some(CircuitCause::NotText)),
    (b"mixed 2 # \x7f\n", 1, Some(CircuitCause::NotText)),
    (b"mixed 1 # parties 2\n\n\n", 3, Some(CircuitCause::Header)),
    (b"1048577 3", 1, Some(CircuitCause::Header)),
];

#[test]
fn the_first_two_lines_say_the_language_and_the_parties(rt: HostRuntime) {
    let wrong = wrong_text(rt.alloc(), &HEADERS);
    assert!(rt; wrong.is_none(), "text {wrong:?}");
}

/// Statements, and lines that say none.
static STATEMENTS: [(&[u8], u32, Option<CircuitCause>); 19] = [
    (
        b"mixed 1\nparties 3\noutput x all\n",
        3,
        Some(CircuitCause::NameUnknown),
    ),
    (b"mixed 1\nparties 3\n", 0, None),
    (
        b"mixed 1\nparties 3\n\n\n\nz = add x y\n",
        6,
        Some(CircuitCause::NameUnknown),
    ),
    (
        b"mixed 1\nparties 3\nx = input 0 A\n\n# c\n\noutput x 3",
        7,
        Some(CircuitCause::BadParty),
    ),
    (
        b"mixed 1\nparties 3\nx = input 0 A\r\noutput x all\r\n",
        2,
        None,
    ),
    (
        b"mixed 1\nparties 3\nx = input 0 A\noutput x all\n\n\n",
        2,
        None,
    ),
    (
        b"\n\nmixed 1\nparties 3\n\nx = input 9 A\n",
        6,
        Some(CircuitCause::BadParty),
    ),
    (
        b"mixed 1\nparties 3\nx = input 0 A\ny = input 1 A\nz = mul x y\noutput z all\n",
        4,
        None,
    ),
    (b"mixed 1\nparties 8\nx = input 7 A\noutput x 7\n", 2, None),
    (
        b"mixed 1\nparties 8\nx = input 8 A\n",
        3,
        Some(CircuitCause::BadParty),
    ),
    (
        b"mixed 1\nparties 2\nx = input 2 A\n",
        3,
        Some(CircuitCause::BadParty),
    ),
    (
        b"mixed 1\nparties 3\nx = input 0 A\nx = input 0 A\ny = input q A\n",
        4,
        Some(CircuitCause::NameTwice),
    ),
    (
        b"mixed 1\nparties 3\nx = input 0 A\ny = add x\nx = input 0 A\n",
        4,
        Some(CircuitCause::Word),
    ),
    (
        b"mixed 1\nparties 3\nx = input 0 A #\x01\n",
        3,
        Some(CircuitCause::NotText),
    ),
    (
        b"mixed 1\nparties 3\nx = input 0 A\x0b\n",
        3,
        Some(CircuitCause::NotText),
    ),
    (
        b"mixed 1\nparties 3\nx\xc2\xa0= input 0 A\n",
        3,
        Some(CircuitCause::NotText),
    ),
    (
        b"mixed 1\nparties 3\nx = input 0 A \x7f\n",
        3,
        Some(CircuitCause::NotText),
    ),
    (
        b"mixed 1\nparties 3\na = input 0 A\nb = input 1 A\nu = input 0 B 4\nv = input 1 B 4\nw = input 2 B 3\ng = input 0 Y 4\nh = input 1 Y 4\nk = input 2 Y 60\nf = input 0 B 64\naaaaaaaaaaaaaaaaaaaaaaaaaaaaaaaaaaaaaaaaaaaaaaaaaaaaaaaaaaaaaaaa = add a b\noutput aaaaaaaaaaaaaaaaaaaaaaaaaaaaaaaaaaaaaaaaaaaaaaaaaaaaaaaaaaaaaaaa all\n",
        11,
        None,
    ),
    (
        b"mixed 1\nparties 3\na = input 0 A\nb = input 1 A\nu = input 0 B 4\nv = input 1 B 4\nw = input 2 B 3\ng = input 0 Y 4\nh = input 1 Y 4\nk = input 2 Y 60\nf = input 0 B 64\noutput a all\noutput a all\n",
        11,
        None,
    ),
];

#[test]
fn the_first_statement_with_a_cause_is_named(rt: HostRuntime) {
    let wrong = wrong_text(rt.alloc(), &STATEMENTS);
    assert!(rt; wrong.is_none(), "text {wrong:?}");
}

/// The statements before each of `LINES`.
static FRONT: &[u8] =
    b"mixed 1\nparties 3\na = input 0 A\nb = input 1 A\nu = input 0 B 4\nv = input 1 B 4\nw = input 2 B 3\ng = input 0 Y 4\nh = input 1 Y 4\nk = input 2 Y 60\nf = input 0 B 64\n";

/// Lines behind `FRONT`, and before each the number of statements or of the line and the cause, if there is one.
static LINES: &str = "\
10 reads: z = input 0 A\n\
10 reads: z = input 2 A\n\
10 reads: z = input 0x2 A\n\
10 reads: z = input 00 B 1\n\
10 reads: z = input 0 B 64\n\
10 reads: z = input 0 Y 1\n\
10 reads: z = input 0 Y 64\n\
10 reads: z = input 1 B 0x40\n\
10 reads: z = const A 0\n\
10 reads: z = const A 18446744073709551615\n\
10 reads: z = const A 0xFFFFFFFFFFFFFFFF\n\
10 reads: z = const A 0xffffffffffffffff\n\
10 reads: z = const A 00000000000000000000000000000000000007\n\
10 reads: z = const B 1 1\n\
10 reads: z = const B 64 18446744073709551615\n\
10 reads: z = const Y 4 15\n\
10 reads: z = const Y 4 0xf\n\
10 reads: z = add a b\n\
10 reads: z = sub a a\n\
10 reads: z = mul b a\n\
10 reads: z = add_const a 0\n\
10 reads: z = mul_const a 18446744073709551615\n\
10 reads: z = xor u v\n\
10 reads: z = and u v\n\
10 reads: z = xor g h\n\
10 reads: z = and g g\n\
10 reads: z = not u\n\
10 reads: z = not g\n\
10 reads: z = slice u 0 4\n\
10 reads: z = slice u 3 1\n\
10 reads: z = slice g 0 1\n\
10 reads: z = slice f 63 1\n\
10 reads: z = slice f 0 64\n\
10 reads: z = join u w\n\
10 reads: z = join w u\n\
10 reads: z = join g k\n\
10 reads: z = a2y a\n\
10 reads: z = a2b a\n\
10 reads: z = b2y u\n\
10 reads: z = y2b g\n\
10 reads: z = b2a w\n\
10 reads: z = y2a k\n\
10 reads: output a all\n\
10 reads: output u 0\n\
10 reads: output g 2\n\
10 reads: output f all\n\
10 reads: output a 0x1\n\
10 reads: _ = add a b\n\
10 reads: A = add a b\n\
10 reads: input = add a b\n\
10 reads: all = add a b\n\
10 reads: output = add a b\n\
10 reads: z1_ = add a b\n\
10 reads: Z = add a b # z\n\
10 reads: \tz\r=  add\ta b\t\n\
9 reads:  \n\
9 reads: # z = add q q\n\
12 Word: aaaaaaaaaaaaaaaaaaaaaaaaaaaaaaaaaaaaaaaaaaaaaaaaaaaaaaaaaaaaaaaaa = add a b\n\
12 Word: z = add aaaaaaaaaaaaaaaaaaaaaaaaaaaaaaaaaaaaaaaaaaaaaaaaaaaaaaaaaaaaaaaaa a\n\
12 Word: z\n\
12 Word: z =\n\
12 Word: z = add\n\
12 Word: z = add a\n\
12 Word: z = add a b u\n\
12 Word: = add a b\n\
12 Word: z add a b\n\
12 Word: z = = a b\n\
12 Word: z = ADD a b\n\
12 Word: z = adds a b\n\
12 Word: 1z = add a b\n\
12 Word: z- = add a b\n\
12 Word: z = add 1 b\n\
12 Word: z = add a 1b\n\
12 Word: z = add a b-\n\
12 Word: z = input A\n\
12 Word: z = input 0\n\
12 Word: z = input 0 C\n\
12 Word: z = input 0 a\n\
12 Word: z = input 0 A 64\n\
12 Word: z = input 0 B\n\
12 Word: z = input 0 Y\n\
12 Word: z = input 0 B 4 4\n\
12 Word: z = const A\n\
12 Word: z = const B 4\n\
12 Word: z = const Y 3\n\
12 Word: z = const C 4 4\n\
12 Word: z = const A 4 4\n\
12 Word: z = add_const a\n\
12 Word: z = mul_const a 1 2\n\
12 Word: z = slice u 0\n\
12 Word: z = slice u\n\
12 Word: z = slice u 0 1 2\n\
12 Word: z = join u\n\
12 Word: z = not u v\n\
12 Word: z = not\n\
12 Word: z = a2y\n\
12 Word: z = a2y a b\n\
12 Word: z = a2a a\n\
12 Word: z = b2b u\n\
12 Word: z = y2y g\n\
12 Word: output a\n\
12 Word: output\n\
12 Word: output a all all\n\
12 Word: output all\n\
12 Word: output 1 all\n\
12 Word: Output a all\n\
12 Word: z=add a b\n\
12 Word: z = output a all\n\
12 Word: input 0 A\n\
12 Word: z = xor u\n\
12 Word: z # = add a b\n\
12 Word: z = add a # b\n\
12 Word: z = slice u # 0 1\n\
12 Word: a = b\n\
12 BadNumber: z = input x A\n\
12 BadNumber: z = input -1 A\n\
12 BadNumber: z = input +1 A\n\
12 BadNumber: z = input 0x A\n\
12 BadNumber: z = input 0X1 A\n\
12 BadNumber: z = input 1a A\n\
12 BadNumber: z = input 0xg A\n\
12 BadNumber: z = input 18446744073709551616 A\n\
12 BadNumber: z = input 0 B 0\n\
12 BadNumber: z = input 0 B 65\n\
12 BadNumber: z = input 0 Y 0\n\
12 BadNumber: z = input 0 Y 65\n\
12 BadNumber: z = input 0 B x\n\
12 BadNumber: z = input x B 65\n\
12 BadNumber: z = const A 18446744073709551616\n\
12 BadNumber: z = const A 0x10000000000000000\n\
12 BadNumber: z = const A -1\n\
12 BadNumber: z = const A x\n\
12 BadNumber: z = const B 4 16\n\
12 BadNumber: z = const B 1 2\n\
12 BadNumber: z = const B 0 0\n\
12 BadNumber: z = const B 65 0\n\
12 BadNumber: z = const Y 64 18446744073709551616\n\
12 BadNumber: z = const Y 63 9223372036854775808\n\
12 BadNumber: z = add_const a 18446744073709551616\n\
12 BadNumber: z = add_const a x\n\
12 BadNumber: z = mul_const a 0x\n\
12 BadNumber: z = slice u 64 1\n\
12 BadNumber: z = slice u 0 0\n\
12 BadNumber: z = slice u 0 65\n\
12 BadNumber: z = slice u x 1\n\
12 BadNumber: z = slice u 1 x\n\
12 BadNumber: output a foo\n\
12 BadNumber: output a All\n\
12 BadNumber: output a 18446744073709551616\n\
12 BadNumber: output a 0xG\n\
12 BadParty: z = input 3 A\n\
12 BadParty: z = input 18446744073709551615 A\n\
12 BadParty: z = input 3 B 4\n\
12 BadParty: z = input 0x3 Y 4\n\
12 BadParty: output a 3\n\
12 BadParty: output a 8\n\
12 BadParty: z = input 9 B 64\n\
12 NameTwice: a = add a b\n\
12 NameTwice: u = xor u v\n\
12 NameTwice: a = input 0 A\n\
12 NameUnknown: z = add a q\n\
12 NameUnknown: z = add q a\n\
12 NameUnknown: z = add q r\n\
12 NameUnknown: z = add z a\n\
12 NameUnknown: z = not q\n\
12 NameUnknown: output q all\n\
12 NameUnknown: z = slice q 0 1\n\
12 NameUnknown: z = a2y q\n\
12 NameUnknown: z = add_const q 1\n\
12 WrongSharing: z = add a u\n\
12 WrongSharing: z = add u a\n\
12 WrongSharing: z = add u v\n\
12 WrongSharing: z = mul g h\n\
12 WrongSharing: z = sub a g\n\
12 WrongSharing: z = add_const u 1\n\
12 WrongSharing: z = mul_const g 1\n\
12 WrongSharing: z = xor a b\n\
12 WrongSharing: z = xor u g\n\
12 WrongSharing: z = and g v\n\
12 WrongSharing: z = xor a u\n\
12 WrongSharing: z = not a\n\
12 WrongSharing: z = slice a 0 1\n\
12 WrongSharing: z = join a b\n\
12 WrongSharing: z = join u g\n\
12 WrongSharing: z = a2y u\n\
12 WrongSharing: z = a2b g\n\
12 WrongSharing: z = b2y a\n\
12 WrongSharing: z = b2y g\n\
12 WrongSharing: z = y2b u\n\
12 WrongSharing: z = y2b a\n\
12 WrongSharing: z = b2a a\n\
12 WrongSharing: z = b2a g\n\
12 WrongSharing: z = y2a u\n\
12 WrongSharing: z = y2a a\n\
12 WrongWidth: z = xor u w\n\
12 WrongWidth: z = and w u\n\
12 WrongWidth: z = xor g k\n\
12 WrongWidth: z = slice u 0 5\n\
12 WrongWidth: z = slice u 4 1\n\
12 WrongWidth: z = slice u 1 4\n\
12 WrongWidth: z = slice u 63 64\n\
12 WrongWidth: z = join f w\n\
12 WrongWidth: z = join k k\n\
12 WrongWidth: z = slice f 1 64\n\
12 WrongWidth: z = slice g 63 1\n\
12 WrongWidth: z = join f f\n\
12 Word: z- = input x A\n\
12 Word: 1 = add_const a x\n\
12 Word: z = input x B 4 4\n\
12 BadNumber: z = input 9 B 65\n\
12 BadNumber: z = input 9 Y 0\n\
12 BadParty: output q 3\n\
12 BadNumber: output q foo\n\
12 Word: output 1 foo\n\
12 BadParty: a = input 3 A\n\
12 BadParty: a = input 3 B 4\n\
12 NameTwice: a = add q a\n\
12 NameTwice: a = xor a b\n\
12 NameTwice: a = xor u w\n\
12 NameTwice: a = slice u 0 5\n\
12 NameUnknown: z = add q u\n\
12 NameUnknown: z = add u q\n\
12 NameUnknown: z = xor q w\n\
12 NameUnknown: z = slice q 0 64\n\
12 WrongSharing: z = xor a g\n\
12 WrongSharing: z = join a f\n\
12 BadNumber: z = slice a 0 65\n\
12 WrongSharing: z = slice a 60 10\n\
12 BadNumber: a = const B 4 16\n\
12 BadNumber: a = slice u 64 1\n\
12 BadParty: output q 9\n\
12 BadNumber: z = const B 65 x\n\
12 BadNumber: z = slice q 64 1\n\
12 BadNumber: z = add_const q x\n\
12 BadNumber: z = add_const u x\n\
12 NameTwice: a = not a\n\
12 NameUnknown: z = y2b q\n\
12 NotText: z = input 3 A \u{e9}\n\
12 NotText: z- # \u{e9}\n\
12 NotText: z = add a # \u{80}\n\
12 BadNumber: a = add_const a x\n\
12 BadNumber: z = slice a x 1\n\
12 BadNumber: output q 18446744073709551616\n\
";

/// Two texts, one behind the other.
fn joined(alloc: Global, front: &[u8], more: &[u8]) -> Result<Vec<u8>, AllocError> {
    let mut text = Vec::from_slice(alloc, front)?;
    text.extend_from_slice(more)?;
    Ok(text)
}

/// How `LINES` name what comes of a line.
fn name_of(cause: Option<CircuitCause>) -> &'static str {
    let Some(cause) = cause else {
        return "reads";
    };
    match cause {
        CircuitCause::NotText => "NotText",
        CircuitCause::Header => "Header",
        CircuitCause::Word => "Word",
        CircuitCause::BadNumber => "BadNumber",
        CircuitCause::BadParty => "BadParty",
        CircuitCause::NameTwice => "NameTwice",
        CircuitCause::NameUnknown => "NameUnknown",
        CircuitCause::WrongSharing => "WrongSharing",
        CircuitCause::WrongWidth => "WrongWidth",
        CircuitCause::TooMany => "TooMany",
    }
}

/// Whether a number and the name of a cause, with a blank between them, tell what comes of a text.
fn is_told(alloc: Global, text: &[u8], wanted: &str) -> bool {
    if text.len() > MAX_FILE_LENGTH {
        return false;
    }
    match (outcome(alloc, text), wanted.split_once(' ')) {
        (Some((number, cause)), Some((line, name))) => {
            line.parse::<u32>() == Ok(number) && name == name_of(cause)
        }
        _ => false,
    }
}

/// Whether a row of `LINES` tells what comes of its line.
fn is_row(alloc: Global, row: &str) -> bool {
    let Some((wanted, line)) = row.split_once(": ") else {
        return false;
    };
    match joined(alloc, FRONT, line.as_bytes()) {
        Ok(text) => is_told(alloc, &text, wanted),
        Err(_) => false,
    }
}

/// The number of the first row of which something else comes.
fn wrong_row(alloc: Global, rows: &str) -> Option<usize> {
    for (at, row) in rows.lines().enumerate() {
        if !is_row(alloc, row) {
            return Some(at);
        }
    }
    None
}

#[test]
fn lines_behind_some_values_read_or_have_these_first_faults(rt: HostRuntime) {
    assert!(&rt; LINES.lines().count() == 243);
    let wrong = wrong_row(rt.alloc(), LINES);
    assert!(rt; wrong.is_none(), "row {wrong:?}");
}

/// A text with every form of statement.
static EVERY_FORM: &[u8] =
    b"mixed 1\nparties 3\na = input 2 A\nu = input 0 B 8\ng = input 1 Y 8\nca = const A 5\ncb = const B 8 0xff\ncy = const Y 8 1\ns = add a ca\nd = sub ca a\nm = mul s d\nac = add_const m 9\nmc = mul_const ac 10\nxb = xor u cb\nxy = xor g cy\nnb = and xb u\nny = and xy g\nob = not nb\noy = not ny\nlb = slice ob 5 3\nly = slice oy 1 2\njb = join lb u\njy = join ly g\nay = a2y mc\nab = a2b mc\nby = b2y jb\nyb = y2b jy\nba = b2a jb\nya = y2a jy\noutput ba all\noutput ly 1\n";

/// The name, the sharing and the form of each of its statements.
static FORMS: [(&str, Option<WireType>, &str); 29] = [
    ("a", Some(WireType::A), "InputA { party: Party(2) }"),
    (
        "u",
        Some(WireType::B(8)),
        "InputB { party: Party(0), width: 8 }",
    ),
    (
        "g",
        Some(WireType::Y(8)),
        "InputY { party: Party(1), width: 8 }",
    ),
    ("ca", Some(WireType::A), "ConstA { c: 5 }"),
    (
        "cb",
        Some(WireType::B(8)),
        "ConstB { c: Bits { word: 255, width: 8 } }",
    ),
    (
        "cy",
        Some(WireType::Y(8)),
        "ConstY { c: Bits { word: 1, width: 8 } }",
    ),
    ("s", Some(WireType::A), "AddA { x: 0, y: 3 }"),
    ("d", Some(WireType::A), "SubA { x: 3, y: 0 }"),
    ("m", Some(WireType::A), "MulA { x: 6, y: 7 }"),
    ("ac", Some(WireType::A), "AddConstA { x: 8, c: 9 }"),
    ("mc", Some(WireType::A), "MulConstA { x: 9, c: 10 }"),
    ("xb", Some(WireType::B(8)), "XorB { x: 1, y: 4 }"),
    ("xy", Some(WireType::Y(8)), "XorY { x: 2, y: 5 }"),
    ("nb", Some(WireType::B(8)), "AndB { x: 11, y: 1 }"),
    ("ny", Some(WireType::Y(8)), "AndY { x: 12, y: 2 }"),
    ("ob", Some(WireType::B(8)), "NotB { x: 13 }"),
    ("oy", Some(WireType::Y(8)), "NotY { x: 14 }"),
    (
        "lb",
        Some(WireType::B(3)),
        "SliceB { x: 15, at: 5, width: 3 }",
    ),
    (
        "ly",
        Some(WireType::Y(2)),
        "SliceY { x: 16, at: 1, width: 2 }",
    ),
    ("jb", Some(WireType::B(11)), "JoinB { x: 17, y: 1 }"),
    ("jy", Some(WireType::Y(10)), "JoinY { x: 18, y: 2 }"),
    ("ay", Some(WireType::Y(64)), "A2Y { x: 10 }"),
    ("ab", Some(WireType::B(64)), "A2B { x: 10 }"),
    ("by", Some(WireType::Y(11)), "B2Y { x: 19 }"),
    ("yb", Some(WireType::B(10)), "Y2B { x: 20 }"),
    ("ba", Some(WireType::A), "B2A { x: 19 }"),
    ("ya", Some(WireType::A), "Y2A { x: 20 }"),
    ("", None, "Output { x: 25, to: All }"),
    ("", None, "Output { x: 18, to: One(Party(1)) }"),
];

fn circuit_of(alloc: Global, text: &[u8]) -> Option<Mixed> {
    if text.len() > MAX_FILE_LENGTH {
        return None;
    }
    match read_mixed(alloc, text) {
        Ok(circuit) => Some(circuit),
        Err(_) => None,
    }
}

fn is_form(alloc: Global, form: Form, text: &str) -> bool {
    match format!(in alloc; "{form:?}") {
        Ok(shown) => shown.as_str() == text,
        Err(_) => false,
    }
}

/// Whether a statement has this name, this sharing and this form.
fn is_statement(
    alloc: Global,
    circuit: &Mixed,
    at: usize,
    name: &str,
    wire: Option<WireType>,
    form: &str,
) -> bool {
    if at >= circuit.len() as usize {
        return false;
    }
    let at = at as u32;
    circuit.name(at) == name && circuit.wire(at) == wire && is_form(alloc, circuit.form(at), form)
}

/// The number of the first statement that is another one.
fn wrong_statement(
    alloc: Global,
    circuit: &Mixed,
    rows: &[(&str, Option<WireType>, &str)],
) -> Option<usize> {
    for (at, (name, wire, form)) in rows.iter().enumerate() {
        if !is_statement(alloc, circuit, at, name, *wire, form) {
            return Some(at);
        }
    }
    None
}

/// Whether a circuit of three parties has these statements.
fn has_statements(alloc: Global, circuit: &Mixed, rows: &[(&str, Option<WireType>, &str)]) -> bool {
    circuit.parties() == 3
        && circuit.len() == 29
        && !circuit.is_empty()
        && wrong_statement(alloc, circuit, rows).is_none()
}

#[test]
fn every_form_of_statement_reads(rt: HostRuntime) {
    let is_read = match circuit_of(rt.alloc(), EVERY_FORM) {
        Some(circuit) => has_statements(rt.alloc(), &circuit, &FORMS),
        None => false,
    };
    assert!(rt; is_read);
}

/// The name, the party and the width of each input of the text with every form.
static INPUTS: [(&str, Party, u32); 3] = [
    ("a", Party(2), 64),
    ("u", Party(0), 8),
    ("g", Party(1), 8),
];

/// The name, the receiver and the width of each of its outputs.
static OUTPUTS: [(&str, Receiver, u32); 2] = [
    ("ba", Receiver::All, 64),
    ("ly", Receiver::One(Party(1)), 2),
];

fn is_input(table: &InputTable, at: usize, name: &str, party: Party, width: u32) -> bool {
    if at >= table.len() as usize {
        return false;
    }
    let at = at as u32;
    table.name(at) == name && table.party(at) == party && table.width(at) == width
}

fn are_inputs(table: &InputTable, rows: &[(&str, Party, u32)]) -> bool {
    for (at, (name, party, width)) in rows.iter().enumerate() {
        if !is_input(table, at, name, *party, *width) {
            return false;
        }
    }
    table.len() as usize == rows.len()
}

fn is_output(table: &OutputTable, at: usize, name: &str, to: Receiver, width: u32) -> bool {
    if at >= table.len() as usize {
        return false;
    }
    let at = at as u32;
    table.name(at) == name && table.receiver(at) == to && table.width(at) == width
}

fn are_outputs(table: &OutputTable, rows: &[(&str, Receiver, u32)]) -> bool {
    for (at, (name, to, width)) in rows.iter().enumerate() {
        if !is_output(table, at, name, *to, *width) {
            return false;
        }
    }
    table.len() as usize == rows.len()
}

fn has_tables(alloc: Global, circuit: &Mixed) -> bool {
    match (circuit.inputs(alloc), circuit.outputs(alloc)) {
        (Ok(inputs), Ok(outputs)) => are_inputs(&inputs, &INPUTS)
            && are_outputs(&outputs, &OUTPUTS),
        _ => false,
    }
}

#[test]
fn inputs_and_outputs_stand_in_the_order_of_their_statements(rt: HostRuntime) {
    let are_in_order = match circuit_of(rt.alloc(), EVERY_FORM) {
        Some(circuit) => has_tables(rt.alloc(), &circuit),
        None => false,
    };
    assert!(rt; are_in_order);
}

/// A text of one input and so many outputs.
fn text_of_outputs(alloc: Global, outputs: u32) -> Result<Vec<u8>, AllocError> {
    let mut text = Vec::from_slice(alloc, b"mixed 1\nparties 2\nx = input 0 A\n")?;
    for _ in 0..outputs {
        text.extend_from_slice(b"output x all\n")?;
    }
    Ok(text)
}

/// Whether one more statement behind a text is too much.
fn is_full(alloc: Global, text: &[u8]) -> bool {
    match joined(alloc, text, b"\noutput x all") {
        Ok(more) => is_read(alloc, &more, 1_048_580, Some(CircuitCause::TooMany)),
        Err(_) => false,
    }
}

#[test]
fn a_circuit_has_no_more_than_so_many_statements(rt: HostRuntime) {
    let is_limit = match text_of_outputs(rt.alloc(), MAX_STATEMENTS - 1) {
        Ok(text) => is_read(rt.alloc(), &text, 1_048_576, None) && is_full(rt.alloc(), &text),
        Err(_) => false,
    };
    assert!(rt; is_limit);
}
