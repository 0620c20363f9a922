//! The files of dealer parts, as `deal` stores them and `local` takes them.
use crate::machine::{Machine, Runs, SEED};
use mot_base::MemFiles;
use std::alloc::Global;
use std::thread::Threads;

const PRODUCT: &str =
    "mixed 1\nparties 2\nx = input 0 A\ny = input 1 A\nz = mul x y\noutput z all\n";

const KEYS: &str = "mixed 1\nparties 2\nx = input 0 Y 8\noutput x all\n";

/// Values of the product.
const BOTH: &str = "x = 6\ny = 7\n";

/// What `local` prints of the product with these.
const REPORT: &str = "\
    party 0\nz = 42\ndigest ede9e85c2353da49bd07e838a89e63c5813eac7435feece4b976d5b741518e21\n\
    party 1\nz = 42\ndigest 8aa423722ced7bffdeeed890dd4ab8dde54f3387d8eebb01a5251717f2ab94be\n";

/// A part that is cut behind its party.
const CUT: (&str, &str) = ("d.1", "MOTD\u{1}\u{2}\u{1}");

const LOCAL: &[&str] = &["local", "c", "v", SEED, "--dealer", "d"];

const ONE_TRIPLE: &[&str] = &["deal", "d", SEED, "2", "1", "0", "0", "0"];

const NO_TRIPLE: &[&str] = &["deal", "d", SEED, "2", "0", "0", "0", "0"];

/// The same deal as `ONE_TRIPLE`, under another seed.
const OTHER_TRIPLE: &[&str] = &[
    "deal",
    "d",
    "ffffffffffffffffffffffffffffffffffffffffffffffffffffffffffffffff",
    "2",
    "1",
    "0",
    "0",
    "0",
];

struct Taking {
    files: &'static [(&'static str, &'static str)],
    /// Deals before it, over the same files: each makes a call for each party.
    deals: &'static [&'static [&'static str]],
    failing_calls: &'static [u64],
    words: &'static [&'static str],
    printed: &'static str,
    status: u8,
}

static TAKINGS: [Taking; 9] = [
    // exactly what the circuit needs, of the seed of the run: the report is the same
    Taking {
        files: &[("c", PRODUCT), ("v", BOTH)],
        deals: &[ONE_TRIPLE],
        failing_calls: &[],
        words: &["local", "c", "v", SEED],
        printed: REPORT,
        status: 0,
    },
    Taking {
        files: &[("c", PRODUCT), ("v", BOTH)],
        deals: &[ONE_TRIPLE],
        failing_calls: &[],
        words: LOCAL,
        printed: REPORT,
        status: 0,
    },
    Taking {
        files: &[("c", PRODUCT), ("v", BOTH)],
        deals: &[ONE_TRIPLE],
        failing_calls: &[],
        words: &["local", "--dealer=d", "c", "v", SEED],
        printed: REPORT,
        status: 0,
    },
    Taking {
        files: &[
            ("c", "1 3\n2 1 1\n1 1\n\n2 1 0 1 2 AND\n"),
            ("v", "in0 = 1\nin1 = 1\n"),
        ],
        deals: &[&["deal", "d", SEED, "2", "0", "1", "0", "0"]],
        failing_calls: &[],
        words: &[
            "local",
            "c",
            "v",
            SEED,
            "--as",
            "B",
            "--parties",
            "2",
            "--dealer",
            "d",
        ],
        printed: "\
            party 0\nout0 = 0x1\ndigest 9aa5de1b778aa6aba1515e3fcd7e584397b72e93408d1523bd8065caa91fa795\n\
            party 1\nout0 = 0x1\ndigest 98c961e4d06da3dbb802df0a97379593daded0cdf9aa87c6d25a59c944a92805\n",
        status: 0,
    },
    // too few triples
    Taking {
        files: &[("c", PRODUCT), ("v", BOTH)],
        deals: &[NO_TRIPLE],
        failing_calls: &[],
        words: LOCAL,
        printed: "too few mult: before 0 asked 1 stock 0\n",
        status: 5,
    },
    // a part is of another deal: the second deal stores the part of party 0 alone
    Taking {
        files: &[("c", PRODUCT), ("v", BOTH)],
        deals: &[ONE_TRIPLE, OTHER_TRIPLE],
        failing_calls: &[4],
        words: LOCAL,
        printed: "dealer d.1: id expected 16886067157272144708 found 8839213343975807882\n",
        status: 4,
    },
    // a deal for more parties
    Taking {
        files: &[("c", PRODUCT), ("v", BOTH)],
        deals: &[&["deal", "d", SEED, "3", "1", "0", "0", "0"]],
        failing_calls: &[],
        words: LOCAL,
        printed: "dealer d.0: parties expected 2 found 3\n",
        status: 4,
    },
    // a part that is cut, before too few triples too
    Taking {
        files: &[("c", PRODUCT), ("v", BOTH), CUT],
        deals: &[ONE_TRIPLE],
        failing_calls: &[2],
        words: LOCAL,
        printed: "dealer d.1: Short\n",
        status: 4,
    },
    Taking {
        files: &[("c", PRODUCT), ("v", BOTH), CUT],
        deals: &[NO_TRIPLE],
        failing_calls: &[2],
        words: LOCAL,
        printed: "dealer d.1: Short\n",
        status: 4,
    },
];

/// The same where parts are missing, or are not what stops the run.
static MISSING: [Taking; 9] = [
    // parts that are missing
    Taking {
        files: &[("c", PRODUCT), ("v", BOTH)],
        deals: &[],
        failing_calls: &[],
        words: LOCAL,
        printed: "file d.0: missing\n",
        status: 8,
    },
    Taking {
        files: &[("c", PRODUCT), ("v", BOTH)],
        deals: &[ONE_TRIPLE],
        failing_calls: &[2],
        words: LOCAL,
        printed: "file d.1: missing\n",
        status: 8,
    },
    // loads of parts that fail, behind those of the circuit and the values
    Taking {
        files: &[("c", PRODUCT), ("v", BOTH)],
        deals: &[ONE_TRIPLE],
        failing_calls: &[5],
        words: LOCAL,
        printed: "file d.0: fault\n",
        status: 8,
    },
    Taking {
        files: &[("c", PRODUCT), ("v", BOTH)],
        deals: &[ONE_TRIPLE],
        failing_calls: &[6],
        words: LOCAL,
        printed: "file d.1: fault\n",
        status: 8,
    },
    // a fault of the circuit, before parts that are missing
    Taking {
        files: &[("c", ""), ("v", BOTH)],
        deals: &[],
        failing_calls: &[],
        words: LOCAL,
        printed: "circuit c: line 1: Header\n",
        status: 2,
    },
    // parts that are missing, before a circuit that is not built and before a fault of the values
    Taking {
        files: &[("c", KEYS), ("v", BOTH)],
        deals: &[],
        failing_calls: &[],
        words: LOCAL,
        printed: "file d.0: missing\n",
        status: 8,
    },
    Taking {
        files: &[("c", PRODUCT), ("v", "x = 6\n")],
        deals: &[],
        failing_calls: &[],
        words: LOCAL,
        printed: "file d.0: missing\n",
        status: 8,
    },
    // a circuit that is not built, or a fault of the values, before a part that is cut
    Taking {
        files: &[("c", KEYS), ("v", BOTH), CUT],
        deals: &[ONE_TRIPLE],
        failing_calls: &[2],
        words: LOCAL,
        printed: "circuit c: not built\n",
        status: 2,
    },
    Taking {
        files: &[("c", PRODUCT), ("v", "x = 6\n"), CUT],
        deals: &[ONE_TRIPLE],
        failing_calls: &[2],
        words: LOCAL,
        printed: "values v: line 1: Missing\n",
        status: 3,
    },
];

impl Taking {
    fn machine(&self) -> Machine<'static> {
        Machine {
            files: self.files,
            failing_calls: self.failing_calls,
            room: 1000,
            failing_writes: &[],
        }
    }

    /// The files behind the deals.
    fn dealt<R: Threads + Sync>(
        &self,
        rt: &R,
        alloc: Global,
        machine: &Machine,
    ) -> Option<MemFiles> {
        let Ok(mut files) = machine.files(alloc) else {
            return None;
        };
        for words in self.deals {
            files = machine
                .end_over(rt, alloc, Runs::Program, words, files)?
                .into_files();
        }
        Some(files)
    }

    /// Whether the command ends as it has to over these files.
    fn is_taken_from<R: Threads + Sync>(
        &self,
        rt: &R,
        alloc: Global,
        machine: &Machine,
        files: MemFiles,
    ) -> bool {
        match machine.end_over(rt, alloc, Runs::Program, self.words, files) {
            Some(end) => end.is(self.printed, self.status),
            None => false,
        }
    }

    fn is_taken<R: Threads + Sync>(&self, rt: &R, alloc: Global) -> bool {
        let machine = self.machine();
        match self.dealt(rt, alloc, &machine) {
            Some(files) => self.is_taken_from(rt, alloc, &machine, files),
            None => false,
        }
    }
}

/// The number of the first row that ends otherwise.
fn wrong_taking<R: Threads + Sync>(rt: &R, alloc: Global, rows: &[Taking]) -> Option<usize> {
    for (at, row) in rows.iter().enumerate() {
        if !row.is_taken(rt, alloc) {
            return Some(at);
        }
    }
    None
}

#[test]
fn parts_are_taken_from_files(rt: HostRuntime) {
    let wrong = wrong_taking(&rt, rt.alloc(), &TAKINGS);
    assert!(rt; wrong.is_none(), "row {wrong:?}");
}

#[test]
fn parts_that_are_missing_are_told_in_their_turn(rt: HostRuntime) {
    let wrong = wrong_taking(&rt, rt.alloc(), &MISSING);
    assert!(rt; wrong.is_none(), "row {wrong:?}");
}
