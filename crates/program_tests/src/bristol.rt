//! Circuits in Bristol Fashion, as the commands meet them.
use crate::machine::{Machine, Runs, SEED};
use std::alloc::Global;
use std::thread::Threads;

const AND: &str = "1 3\n2 1 1\n1 1\n\n2 1 0 1 2 AND\n";

/// A constant, a copy, two ANDs in one gate and a sum, with tabs, ends of other lines, and blank lines anywhere.
const KINDS: &str =
    "\n4\t9\r\n\n1 4\n \n1 3\n1 1 1 4 EQ\n\t1 1 0 5 EQW\n\n4 2 2 3 4 5 6 7 MAND \n2 1 6 7 8 XOR\n\n";

/// A circuit whose outputs are its inputs.
const SAME: &str = "0 68\n1 68\n3 1 5 62\n";

/// Circuits, values, and what is printed of their outputs, whichever way wires are shared.
static OUTPUTS: [(&str, &str, &str); 9] = [
    (AND, "in0 = 0\nin1 = 0\n", "out0 = 0x0\n"),
    (AND, "in0 = 0\nin1 = 1\n", "out0 = 0x0\n"),
    (AND, "in0 = 1\nin1 = 0\n", "out0 = 0x0\n"),
    (AND, "in1 = 0x1\nin0 = 1\n", "out0 = 0x1\n"),
    (KINDS, "in0 = 0x9\n", "out0 = 0x6\n"),
    (KINDS, "in0 = 0xd\n", "out0 = 0x3\n"),
    (
        SAME,
        "in0 = 0x0\n",
        "out0 = 0x0\nout1 = 0x00\nout2 = 0x0000000000000000\n",
    ),
    (
        SAME,
        "in0 = 0xabcdef0123456789a\n",
        "out0 = 0x0\nout1 = 0x0d\nout2 = 0x2af37bc048d159e2\n",
    ),
    ("0 1\n1 1\n0\n", "in0 = 1\n", ""),
];

/// Whether a circuit's outputs are printed so, whichever way its wires are shared.
fn is_printed<R: Threads + Sync>(
    rt: &R,
    alloc: Global,
    circuit: &str,
    values: &str,
    printed: &str,
) -> bool {
    let files = [("c", circuit), ("v", values)];
    let machine = Machine::new(&files);
    let by_bits = ["plain", "c", "v", "--as", "B", "--parties", "2"];
    let by_keys = ["--parties=8", "--as=Y", "c", "v"];
    machine.prints(rt, alloc, Runs::Program, &by_bits, printed, 0)
        && machine.prints(rt, alloc, Runs::Plain, &by_keys, printed, 0)
}

/// The number of the first circuit whose outputs are printed otherwise.
fn wrong_outputs<R: Threads + Sync>(
    rt: &R,
    alloc: Global,
    rows: &[(&str, &str, &str)],
) -> Option<usize> {
    for (at, (circuit, values, printed)) in rows.iter().enumerate() {
        if !is_printed(rt, alloc, circuit, values, printed) {
            return Some(at);
        }
    }
    None
}

#[test]
fn the_last_wires_are_printed(rt: HostRuntime) {
    let wrong = wrong_outputs(&rt, rt.alloc(), &OUTPUTS);
    assert!(rt; wrong.is_none(), "circuit {wrong:?}");
}

/// Circuits, how many parties, values, and what `local` prints of all of them.
static SHARED: [(&str, &str, &str, &str); 3] = [
    (
        AND,
        "2",
        "in0 = 0\nin1 = 1\n",
        "\
            party 0\nout0 = 0x0\ndigest 6e7a8ffc26dfa4d7f2f3c4a8bc6459c278fc44394a63d0f0b3a29d4274126629\n\
            party 1\nout0 = 0x0\ndigest 98c961e4d06da3dbb802df0a97379593daded0cdf9aa87c6d25a59c944a92805\n",
    ),
    (
        AND,
        "2",
        "in0 = 1\nin1 = 1\n",
        "\
            party 0\nout0 = 0x1\ndigest 9aa5de1b778aa6aba1515e3fcd7e584397b72e93408d1523bd8065caa91fa795\n\
            party 1\nout0 = 0x1\ndigest 98c961e4d06da3dbb802df0a97379593daded0cdf9aa87c6d25a59c944a92805\n",
    ),
    (
        KINDS,
        "3",
        "in0 = 0x9\n",
        "\
            party 0\nout0 = 0x6\ndigest 639393df235ea807e3c7984eacc8f5198d2c571350a4a1a0a6b130c4fa5c652f\n\
            party 1\nout0 = 0x6\ndigest bb9bb6ee4df29eec8ee5326924c78d881baaf9c41a30e5782fbc8329bd6813a6\n\
            party 2\nout0 = 0x6\ndigest 150c337914a36dd67e89efcb2d63cdec1fa3df6d3f5c660c519a0a6dde3386c9\n",
    ),
];

/// Whether so many parties print this of their shares.
fn is_run_by<R: Threads + Sync>(
    rt: &R,
    alloc: Global,
    machine: &Machine,
    parties: &str,
    printed: &str,
) -> bool {
    let words = ["local", "c", "v", SEED, "--as", "B", "--parties", parties];
    machine.prints(rt, alloc, Runs::Program, &words, printed, 0)
}

fn is_run<R: Threads + Sync>(
    rt: &R,
    alloc: Global,
    circuit: &str,
    parties: &str,
    values: &str,
    printed: &str,
) -> bool {
    let files = [("c", circuit), ("v", values)];
    is_run_by(rt, alloc, &Machine::new(&files), parties, printed)
}

/// The number of the first circuit of which something else is printed.
fn wrong_run<R: Threads + Sync>(
    rt: &R,
    alloc: Global,
    rows: &[(&str, &str, &str, &str)],
) -> Option<usize> {
    for (at, (circuit, parties, values, printed)) in rows.iter().enumerate() {
        if !is_run(rt, alloc, circuit, parties, values, printed) {
            return Some(at);
        }
    }
    None
}

#[test]
fn all_parties_share_the_wires_by_xor(rt: HostRuntime) {
    let wrong = wrong_run(&rt, rt.alloc(), &SHARED);
    assert!(rt; wrong.is_none(), "circuit {wrong:?}");
}

struct Row {
    words: &'static [&'static str],
    circuit: &'static str,
    values: &'static str,
    printed: &'static str,
    status: u8,
}

static ROWS: [Row; 14] = [
    Row {
        words: &["needs", "c", "--as", "B", "--parties", "2"],
        circuit: AND,
        values: "",
        printed: "gates 4\nmult 0\nbit 1\nshared 0\nkey 0\n",
        status: 0,
    },
    Row {
        words: &["needs", "c", "--as", "Y", "--parties", "2"],
        circuit: AND,
        values: "",
        printed: "gates 9\nmult 0\nbit 1\nshared 0\nkey 4\n",
        status: 0,
    },
    Row {
        words: &["local", "c", "v", SEED, "--as", "Y", "--parties", "2"],
        circuit: AND,
        values: "in0 = 1\nin1 = 1\n",
        printed: "circuit c: not built\n",
        status: 2,
    },
    Row {
        words: &["needs", "--as=B", "--", "c"],
        circuit: AND,
        values: "",
        printed: "usage\n",
        status: 1,
    },
    Row {
        words: &["needs", "--as=B", "--parties=3", "c"],
        circuit: KINDS,
        values: "",
        printed: "gates 11\nmult 0\nbit 2\nshared 0\nkey 0\n",
        status: 0,
    },
    // causes, in the order of the files
    Row {
        words: &["plain", "c", "v", "--as", "B", "--parties", "2"],
        circuit: "2 4\n2 1 1\n1 1\n\n2 1 0 3 2 AND\n2 1 0 1 3 XOR\n",
        values: "",
        printed: "circuit c: line 5: UsedBeforeSet\n",
        status: 2,
    },
    Row {
        words: &["needs", "c", "--as", "Y", "--parties", "2"],
        circuit: "1 3\n2 1 1\n1 1\n2 1 0 1 2 NAND\n",
        values: "",
        printed: "circuit c: line 4: GateName\n",
        status: 2,
    },
    Row {
        words: &["plain", "c", "v", "--as", "B", "--parties", "2"],
        circuit: AND,
        values: "in0 = 1\nin1 = 2\n",
        printed: "values v: line 2: TooWide\n",
        status: 3,
    },
    Row {
        words: &["plain", "c", "v", "--as", "B", "--parties", "2"],
        circuit: AND,
        values: "in0 = 1\n",
        printed: "values v: line 1: Missing\n",
        status: 3,
    },
    // the words say which language a circuit is in
    Row {
        words: &["plain", "c", "v"],
        circuit: AND,
        values: "in0 = 1\n",
        printed: "circuit c: line 1: Header\n",
        status: 2,
    },
    Row {
        words: &["plain", "c", "v", "--as", "B", "--parties", "2"],
        circuit: "mixed 1\nparties 2\n",
        values: "",
        printed: "circuit c: line 1: Header\n",
        status: 2,
    },
    Row {
        words: &["local", "c", "v", SEED, "--as=B", "--parties", "2"],
        circuit: "mixed 1\nparties 2\n",
        values: "",
        printed: "circuit c: line 1: Header\n",
        status: 2,
    },
    // two gates for a wire of keys are more than a plan has, and are told before the values
    Row {
        words: &["plain", "c", "v", "--as", "Y", "--parties", "2"],
        circuit: "0 2097153\n1 2097153\n1 1\n",
        values: "",
        printed: "circuit c: gates 4194308\n",
        status: 2,
    },
    Row {
        words: &["needs", "c", "--as", "B", "--parties", "2"],
        circuit: "0 2097153\n1 2097153\n1 1\n",
        values: "",
        printed: "gates 2097154\nmult 0\nbit 0\nshared 0\nkey 0\n",
        status: 0,
    },
];

impl Row {
    fn is_printed<R: Threads + Sync>(&self, rt: &R, alloc: Global) -> bool {
        let files = [("c", self.circuit), ("v", self.values)];
        Machine::new(&files).prints(
            rt,
            alloc,
            Runs::Program,
            self.words,
            self.printed,
            self.status,
        )
    }
}

/// The number of the first row of which something else is printed.
fn wrong_row<R: Threads + Sync>(rt: &R, alloc: Global, rows: &[Row]) -> Option<usize> {
    for (at, row) in rows.iter().enumerate() {
        if !row.is_printed(rt, alloc) {
            return Some(at);
        }
    }
    None
}

#[test]
fn circuits_in_bristol_fashion_are_told_by_the_words(rt: HostRuntime) {
    let wrong = wrong_row(&rt, rt.alloc(), &ROWS);
    assert!(rt; wrong.is_none(), "row {wrong:?}");
}
