//! Words and texts that are refused, each with its line and its status.
use crate::machine::{Machine, Runs, SEED};
use mot_base::{MAX_FILE_LENGTH, MemFiles};
use std::alloc::{AllocError, Global};
use std::thread::Threads;

static FILES: [(&str, &str); 10] = [
    (
        "product",
        "mixed 1\nparties 2\nx = input 0 A\ny = input 1 A\nz = mul x y\noutput z all\n",
    ),
    ("both", "x = 6\ny = 7\n"),
    ("one", "x = 6\n"),
    ("three", "x = 6\ny = 7\nz = 8\n"),
    ("wide", "x = 6\ny = 18446744073709551616\n"),
    ("twice", "x = 6\ny = 7\nx = 6\n"),
    ("empty", ""),
    (
        "keys",
        "mixed 1\nparties 2\nx = input 0 Y 8\noutput x all\n",
    ),
    (
        "converted",
        "mixed 1\nparties 2\nx = input 0 A\nz = a2b x\noutput z all\n",
    ),
    (
        "unknown",
        "mixed 1\nparties 2\nx = input 0 A\n# a comment\nz = mul x y\noutput w all\n",
    ),
];

fn machine() -> Machine<'static> {
    Machine::new(&FILES)
}

/// The number of the first words that are not refused.
fn words_not_refused<R: Threads + Sync>(
    rt: &R,
    alloc: Global,
    machine: &Machine,
    rows: &[&[&str]],
) -> Option<usize> {
    for (at, words) in rows.iter().enumerate() {
        if !machine.prints(rt, alloc, Runs::Program, words, "usage\n", 1) {
            return Some(at);
        }
    }
    None
}

/// Words for names and seeds.
static WORDS: [&[&str]; 19] = [
    &[],
    &["plain"],
    &["plain", "product"],
    &["plain", "product", "both", SEED],
    &["plain", "-product", "both"],
    &["plain", "product", ""],
    &["Plain", "product", "both"],
    &["local"],
    &["local", "product", "both"],
    &["local", "product", "both", SEED, SEED],
    &["product", "both", SEED],
    &["Local", "product", "both", SEED],
    &["", "product", "both", SEED],
    &["local", "", "both", SEED],
    &["local", "product", "--", SEED],
    &["local", "-product", "both", SEED],
    // 63 digits, 65 digits, and a letter that is no digit
    &[
        "local",
        "product",
        "both",
        "000000000000000000000000000000000000000000000000000000000000000",
    ],
    &[
        "local",
        "product",
        "both",
        "00000000000000000000000000000000000000000000000000000000000000000",
    ],
    &[
        "local",
        "product",
        "both",
        "000000000000000000000000000000000000000000000000000000000000000g",
    ],
];

#[test]
fn other_words_are_refused(rt: HostRuntime) {
    let wrong = words_not_refused(&rt, rt.alloc(), &machine(), &WORDS);
    assert!(rt; wrong.is_none(), "words {wrong:?}");
}

/// Words that are not names, and options.
static OPTIONS: [&[&str]; 23] = [
    // help, which there is none of, and a divider in the place of a command
    &["-h"],
    &["--help"],
    &["plain", "--help"],
    &["--"],
    &["--", "plain", "product", "both"],
    // empty words, on both sides of the divider
    &["plain", "", "both"],
    &["plain", "product", "--", ""],
    &["plain", "product", "both", "--", "--"],
    // options that are not run with the command, or with none
    &["plain", "product", "both", "--dealer", "d"],
    &[
        "plain",
        "product",
        "both",
        "--as=B",
        "--as=B",
        "--parties",
        "2",
    ],
    // an option that comes without the other, and values that are none
    &["plain", "product", "both", "--as=B"],
    &["local", "product", "both", SEED, "--as=B"],
    &["needs", "product", "--parties=2"],
    &["needs", "product", "--as=A", "--parties=2"],
    &["needs", "product", "--as=Y", "--parties=9"],
    &["plain", "product", "both", "--par", "2"],
    &["--as=B", "plain", "product", "both", "--parties", "2"],
    &["local", "product", "both", SEED, "--dealer"],
    &["local", "product", "both", SEED, "--dealer", "-d"],
    &["local", "product", "both", SEED, "--dealer="],
    &["plain", "product", "both", "--workers", "2"],
    &["local", "product", "both", SEED, "--workers", "17"],
    // commands that are not run
    &["batch", "product", SEED, "2", "1", "0", "0", "0"],
];

#[test]
fn other_options_are_refused(rt: HostRuntime) {
    let wrong = words_not_refused(&rt, rt.alloc(), &machine(), &OPTIONS);
    assert!(rt; wrong.is_none(), "words {wrong:?}");
}

struct Refusal {
    circuit: &'static str,
    values: &'static str,
    failing_calls: &'static [u64],
    line: &'static str,
    status: u8,
}

// the refusals of each command
static REFUSALS: [Refusal; 17] = [
    // files that are missing
    Refusal {
        circuit: "nothing",
        values: "both",
        failing_calls: &[],
        line: "file nothing: missing\n",
        status: 8,
    },
    Refusal {
        circuit: "product",
        values: "nothing",
        failing_calls: &[],
        line: "file nothing: missing\n",
        status: 8,
    },
    Refusal {
        circuit: "nothing",
        values: "nowhere",
        failing_calls: &[],
        line: "file nothing: missing\n",
        status: 8,
    },
    Refusal {
        circuit: "-",
        values: "both",
        failing_calls: &[],
        line: "file -: missing\n",
        status: 8,
    },
    // loads that fail
    Refusal {
        circuit: "product",
        values: "both",
        failing_calls: &[1],
        line: "file product: fault\n",
        status: 8,
    },
    Refusal {
        circuit: "product",
        values: "both",
        failing_calls: &[2],
        line: "file both: fault\n",
        status: 8,
    },
    // circuits: the line, and the first cause of that line
    Refusal {
        circuit: "empty",
        values: "both",
        failing_calls: &[],
        line: "circuit empty: line 1: Header\n",
        status: 2,
    },
    Refusal {
        circuit: "unknown",
        values: "both",
        failing_calls: &[],
        line: "circuit unknown: line 5: NameUnknown\n",
        status: 2,
    },
    // values
    Refusal {
        circuit: "product",
        values: "one",
        failing_calls: &[],
        line: "values one: line 1: Missing\n",
        status: 3,
    },
    Refusal {
        circuit: "product",
        values: "three",
        failing_calls: &[],
        line: "values three: line 3: NameUnknown\n",
        status: 3,
    },
    Refusal {
        circuit: "product",
        values: "wide",
        failing_calls: &[],
        line: "values wide: line 2: TooWide\n",
        status: 3,
    },
    Refusal {
        circuit: "product",
        values: "twice",
        failing_calls: &[],
        line: "values twice: line 3: Twice\n",
        status: 3,
    },
    // a load of the circuit that fails, before values that are missing
    Refusal {
        circuit: "product",
        values: "nothing",
        failing_calls: &[1],
        line: "file product: fault\n",
        status: 8,
    },
    // a circuit that is missing, before a load of the values that would fail
    Refusal {
        circuit: "nothing",
        values: "both",
        failing_calls: &[2],
        line: "file nothing: missing\n",
        status: 8,
    },
    // a load of the values that fails, or values that are missing, before a fault of the circuit
    Refusal {
        circuit: "empty",
        values: "both",
        failing_calls: &[2],
        line: "file both: fault\n",
        status: 8,
    },
    Refusal {
        circuit: "empty",
        values: "nothing",
        failing_calls: &[],
        line: "file nothing: missing\n",
        status: 8,
    },
    // a fault of the circuit, before a fault of the values
    Refusal {
        circuit: "unknown",
        values: "wide",
        failing_calls: &[],
        line: "circuit unknown: line 5: NameUnknown\n",
        status: 2,
    },
];

// the refusals of `local` alone
static NOT_BUILT: [Refusal; 5] = [
    // circuits with keys, or with a conversion
    Refusal {
        circuit: "keys",
        values: "both",
        failing_calls: &[],
        line: "circuit keys: not built\n",
        status: 2,
    },
    Refusal {
        circuit: "converted",
        values: "one",
        failing_calls: &[],
        line: "circuit converted: not built\n",
        status: 2,
    },
    // values that are missing, before a circuit that is not built
    Refusal {
        circuit: "converted",
        values: "nothing",
        failing_calls: &[],
        line: "file nothing: missing\n",
        status: 8,
    },
    // a circuit that is not built, before a fault of the values
    Refusal {
        circuit: "keys",
        values: "wide",
        failing_calls: &[],
        line: "circuit keys: not built\n",
        status: 2,
    },
    Refusal {
        circuit: "converted",
        values: "empty",
        failing_calls: &[],
        line: "circuit converted: not built\n",
        status: 2,
    },
];

impl Refusal {
    /// Whether a command refuses so.
    fn is_told<R: Threads + Sync>(&self, rt: &R, alloc: Global, words: &[&str]) -> bool {
        let machine = Machine {
            files: machine().files,
            failing_calls: self.failing_calls,
            room: 1000,
            failing_writes: &[],
        };
        machine.prints(rt, alloc, Runs::Program, words, self.line, self.status)
    }

    fn is_told_by_local<R: Threads + Sync>(&self, rt: &R, alloc: Global) -> bool {
        self.is_told(rt, alloc, &["local", self.circuit, self.values, SEED])
    }

    fn is_told_by_both<R: Threads + Sync>(&self, rt: &R, alloc: Global) -> bool {
        self.is_told(rt, alloc, &["plain", self.circuit, self.values])
            && self.is_told_by_local(rt, alloc)
    }
}

#[test]
fn the_command_refuses_its_own_name(rt: HostRuntime) {
    let local = ["local", "product", "both", SEED];
    let plain = ["plain", "product", "both"];
    let is_local_refused = machine().prints(&rt, rt.alloc(), Runs::Local, &local, "usage\n", 1);
    let is_plain_refused = machine().prints(&rt, rt.alloc(), Runs::Plain, &plain, "usage\n", 1);
    assert!(rt; is_local_refused && is_plain_refused);
}

/// The number of the first row of which something else is told.
fn wrong_refusal<R: Threads + Sync>(rt: &R, alloc: Global, rows: &[Refusal]) -> Option<usize> {
    for (at, row) in rows.iter().enumerate() {
        if !row.is_told_by_both(rt, alloc) {
            return Some(at);
        }
    }
    None
}

#[test]
fn the_first_cause_is_told(rt: HostRuntime) {
    let wrong = wrong_refusal(&rt, rt.alloc(), &REFUSALS);
    assert!(rt; wrong.is_none(), "row {wrong:?}");
}

/// The same of `local` alone.
fn wrong_refusal_of_local<R: Threads + Sync>(
    rt: &R,
    alloc: Global,
    rows: &[Refusal],
) -> Option<usize> {
    for (at, row) in rows.iter().enumerate() {
        if !row.is_told_by_local(rt, alloc) {
            return Some(at);
        }
    }
    None
}

#[test]
fn circuits_that_are_not_run_on_shares_are_told(rt: HostRuntime) {
    let wrong = wrong_refusal_of_local(&rt, rt.alloc(), &NOT_BUILT);
    assert!(rt; wrong.is_none(), "row {wrong:?}");
}

/// A file of one byte more than a file may have.
fn too_long(alloc: Global) -> Result<MemFiles, AllocError> {
    let names = vec![in alloc; String::from_str(alloc, "long")?]?;
    let content = vec![in alloc; b' '; MAX_FILE_LENGTH + 1]?;
    let contents = vec![in alloc; content]?;
    Ok(MemFiles::new(names, contents, Vec::new(alloc)))
}

fn is_too_long<R: Threads + Sync>(rt: &R, alloc: Global, files: MemFiles) -> bool {
    match machine().end_over(
        rt,
        alloc,
        Runs::Program,
        &["local", "long", "long", SEED],
        files,
    ) {
        Some(end) => end.is("file long: too long\n", 8),
        None => false,
    }
}

#[test]
fn a_file_that_is_too_long_is_refused(rt: HostRuntime) {
    let is_refused = match too_long(rt.alloc()) {
        Ok(files) => is_too_long(&rt, rt.alloc(), files),
        Err(_) => false,
    };
    assert!(rt; is_refused);
}
