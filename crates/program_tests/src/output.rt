//! An output that takes no more, or fails.
use crate::machine::{Machine, Runs, SEED};
use std::alloc::Global;
use std::thread::Threads;

static FILES: [(&str, &str); 3] = [
    (
        "product",
        "mixed 1\nparties 2\nx = input 0 A\ny = input 1 A\nz = mul x y\noutput z all\n",
    ),
    ("both", "x = 6\ny = 7\n"),
    ("empty", ""),
];

const LOCAL: &[&str] = &["local", "product", "both", SEED];

const REPORT: &str = "\
    party 0\nz = 42\ndigest ede9e85c2353da49bd07e838a89e63c5813eac7435feece4b976d5b741518e21\n\
    party 1\nz = 42\ndigest 8aa423722ced7bffdeeed890dd4ab8dde54f3387d8eebb01a5251717f2ab94be\n";

const PLAIN: &[&str] = &["plain", "product", "both"];

const BAD_CIRCUIT: &[&str] = &["local", "empty", "both", SEED];

struct Writing {
    words: &'static [&'static str],
    room: usize,
    failing_writes: &'static [u64],
    written: &'static str,
    status: u8,
}

static WRITINGS: [Writing; 12] = [
    // a report that is cut is not done
    Writing {
        words: LOCAL,
        room: 174,
        failing_writes: &[],
        written: REPORT,
        status: 0,
    },
    Writing {
        words: LOCAL,
        room: 173,
        failing_writes: &[],
        written: "\
            party 0\nz = 42\ndigest ede9e85c2353da49bd07e838a89e63c5813eac7435feece4b976d5b741518e21\n\
            party 1\nz = 42\ndigest 8aa423722ced7bffdeeed890dd4ab8dde54f3387d8eebb01a5251717f2ab94be",
        status: 9,
    },
    Writing {
        words: LOCAL,
        room: 10,
        failing_writes: &[],
        written: "party 0\nz ",
        status: 9,
    },
    Writing {
        words: LOCAL,
        room: 0,
        failing_writes: &[],
        written: "",
        status: 9,
    },
    Writing {
        words: LOCAL,
        room: 174,
        failing_writes: &[1],
        written: "",
        status: 9,
    },
    Writing {
        words: PLAIN,
        room: 7,
        failing_writes: &[],
        written: "z = 42\n",
        status: 0,
    },
    Writing {
        words: PLAIN,
        room: 6,
        failing_writes: &[],
        written: "z = 42",
        status: 9,
    },
    Writing {
        words: PLAIN,
        room: 7,
        failing_writes: &[1],
        written: "",
        status: 9,
    },
    // a refusal keeps its status
    Writing {
        words: &[],
        room: 3,
        failing_writes: &[],
        written: "usa",
        status: 1,
    },
    Writing {
        words: BAD_CIRCUIT,
        room: 100,
        failing_writes: &[1],
        written: "",
        status: 2,
    },
    Writing {
        words: &["local", "product", "empty", SEED],
        room: 6,
        failing_writes: &[],
        written: "values",
        status: 3,
    },
    Writing {
        words: &["local", "product", "nothing", SEED],
        room: 0,
        failing_writes: &[],
        written: "",
        status: 8,
    },
];

impl Writing {
    fn is_written<R: Threads + Sync>(&self, rt: &R, alloc: Global) -> bool {
        let machine = Machine {
            files: &FILES,
            failing_calls: &[],
            room: self.room,
            failing_writes: self.failing_writes,
        };
        machine.prints(
            rt,
            alloc,
            Runs::Program,
            self.words,
            self.written,
            self.status,
        )
    }
}

/// The number of the first row of which something else is written.
fn wrong_writing<R: Threads + Sync>(rt: &R, alloc: Global, rows: &[Writing]) -> Option<usize> {
    for (at, row) in rows.iter().enumerate() {
        if !row.is_written(rt, alloc) {
            return Some(at);
        }
    }
    None
}

#[test]
fn a_cut_report_ends_with_its_own_status(rt: HostRuntime) {
    let wrong = wrong_writing(&rt, rt.alloc(), &WRITINGS);
    assert!(rt; wrong.is_none(), "row {wrong:?}");
}
