//! What `deal` stores, prints and refuses.
use crate::machine::{End, Machine, Runs, SEED};
use std::alloc::{AllocError, Global};
use std::thread::Threads;

// the files of a deal of one multiplication triple between two parties, under the seed of zeros
const FIRST: &str =
    "4d4f54440102007aab31b445921b8a4001d84b79475c5afe724516bdc123490000000100000000000000000000000099d2379c2e8378051c2add9a53828a361b8763727dc0cd49";

const SECOND: &str =
    "4d4f54440102017aab31b445921b8a2732711a278f257d9eba5eac117b148f000000010000000000000000000000008b80c6bf81f65fb51f2d56ba401f8689376253001c56c67d";

struct Deal {
    /// The words after `deal`.
    words: &'static [&'static str],
    failing_calls: &'static [u64],
    room: usize,
    failing_writes: &'static [u64],
    printed: &'static str,
    status: u8,
    /// Names, and in hexadecimal digits what each holds afterwards.
    held: &'static [(&'static str, Option<&'static str>)],
}

static DEALS: [Deal; 13] = [
    Deal {
        words: &["d", SEED, "2", "1", "0", "0", "0"],
        failing_calls: &[],
        room: 100,
        failing_writes: &[],
        printed: "dealt 2 parts, id 7aab31b445921b8a\n",
        status: 0,
        held: &[("d.0", Some(FIRST)), ("d.1", Some(SECOND)), ("d.2", None)],
    },
    // leading zeros, and a prefix that looks like an option
    Deal {
        words: &["--", "-d", SEED, "02", "001", "0", "00", "0"],
        failing_calls: &[],
        room: 100,
        failing_writes: &[],
        printed: "dealt 2 parts, id 7aab31b445921b8a\n",
        status: 0,
        held: &[("-d.0", Some(FIRST)), ("-d.1", Some(SECOND)), ("d.0", None)],
    },
    // parts stand in the place of what was there
    Deal {
        words: &["old", SEED, "2", "1", "0", "0", "0"],
        failing_calls: &[],
        room: 100,
        failing_writes: &[],
        printed: "dealt 2 parts, id 7aab31b445921b8a\n",
        status: 0,
        held: &[
            ("old.0", Some(FIRST)),
            ("old.1", Some(SECOND)),
            ("old", Some("6f6c64")),
        ],
    },
    // a part that is too long
    Deal {
        words: &["d", SEED, "2", "4294967295", "0", "0", "0"],
        failing_calls: &[1],
        room: 100,
        failing_writes: &[],
        printed: "file d.0: too long\n",
        status: 8,
        held: &[("d.0", None), ("d.1", None)],
    },
    // one byte too many: 47 + 24 * 2,796,200 is 67,108,847, and 18 shared bits or bytes are too many
    Deal {
        words: &["d", SEED, "2", "2796200", "18", "0", "0"],
        failing_calls: &[],
        room: 100,
        failing_writes: &[],
        printed: "file d.0: too long\n",
        status: 8,
        held: &[("d.0", None), ("d.1", None)],
    },
    // the first store fails, or the second, and then the first part stands
    Deal {
        words: &["d", SEED, "2", "1", "0", "0", "0"],
        failing_calls: &[1],
        room: 100,
        failing_writes: &[],
        printed: "file d.0: fault\n",
        status: 8,
        held: &[("d.1", None), ("old", Some("6f6c64"))],
    },
    Deal {
        words: &["d", SEED, "2", "1", "0", "0", "0"],
        failing_calls: &[2],
        room: 100,
        failing_writes: &[],
        printed: "file d.1: fault\n",
        status: 8,
        held: &[("d.0", Some(FIRST)), ("old", Some("6f6c64"))],
    },
    // the output fails once all is stored
    Deal {
        words: &["d", SEED, "2", "1", "0", "0", "0"],
        failing_calls: &[],
        room: 5,
        failing_writes: &[],
        printed: "dealt",
        status: 9,
        held: &[("d.0", Some(FIRST)), ("d.1", Some(SECOND))],
    },
    Deal {
        words: &["d", SEED, "2", "1", "0", "0", "0"],
        failing_calls: &[],
        room: 100,
        failing_writes: &[1],
        printed: "",
        status: 9,
        held: &[("d.0", Some(FIRST)), ("d.1", Some(SECOND))],
    },
    // the line of a refusal is cut
    Deal {
        words: &["d", SEED, "2", "1", "0", "0", "0"],
        failing_calls: &[2],
        room: 8,
        failing_writes: &[],
        printed: "file d.1",
        status: 8,
        held: &[("d.0", Some(FIRST))],
    },
    // words that ask for nothing
    Deal {
        words: &["d", SEED, "2", "1", "0", "0", "4294967296"],
        failing_calls: &[],
        room: 100,
        failing_writes: &[],
        printed: "usage\n",
        status: 1,
        held: &[("d.0", None), ("d.1", None)],
    },
    Deal {
        words: &["d", SEED, "9", "1", "0", "0", "0"],
        failing_calls: &[],
        room: 100,
        failing_writes: &[],
        printed: "usage\n",
        status: 1,
        held: &[("d.0", None)],
    },
    Deal {
        words: &["d", SEED, "2", "1", "0", "0"],
        failing_calls: &[],
        room: 100,
        failing_writes: &[],
        printed: "usage\n",
        status: 1,
        held: &[("d.0", None)],
    },
];

static FILES: [(&str, &str); 2] = [("old", "old"), ("old.0", "part")];

/// The word `deal` and others behind it.
fn behind_deal<'a>(alloc: Global, words: &[&'a str]) -> Result<Vec<&'a str>, AllocError> {
    let mut all = vec![in alloc; "deal"]?;
    all.extend_from_slice(words)?;
    Ok(all)
}

impl Deal {
    /// How the command ends, or the program that is given its name in front of the words.
    fn end<R: Threads + Sync>(
        &self,
        rt: &R,
        alloc: Global,
        runs: Runs,
        words: &[&str],
    ) -> Option<End> {
        let machine = Machine {
            files: &FILES,
            failing_calls: self.failing_calls,
            room: self.room,
            failing_writes: self.failing_writes,
        };
        machine.end(rt, alloc, runs, words)
    }

    /// Whether each name holds what it has to.
    fn are_held(&self, alloc: Global, end: &End) -> bool {
        for (name, content) in self.held {
            if !end.holds(alloc, name, *content) {
                return false;
            }
        }
        true
    }

    /// Whether it ends as it has to.
    fn is_made<R: Threads + Sync>(
        &self,
        rt: &R,
        alloc: Global,
        runs: Runs,
        words: &[&str],
    ) -> bool {
        match self.end(rt, alloc, runs, words) {
            Some(end) => end.is(self.printed, self.status) && self.are_held(alloc, &end),
            None => false,
        }
    }

    fn is_made_by_name<R: Threads + Sync>(&self, rt: &R, alloc: Global) -> bool {
        match behind_deal(alloc, self.words) {
            Ok(words) => self.is_made(rt, alloc, Runs::Program, words.as_slice()),
            Err(_) => false,
        }
    }
}

/// The number of the first deal that ends otherwise.
fn wrong_deal<R: Threads + Sync>(rt: &R, alloc: Global, rows: &[Deal]) -> Option<usize> {
    for (at, deal) in rows.iter().enumerate() {
        if !deal.is_made(rt, alloc, Runs::Deal, deal.words) || !deal.is_made_by_name(rt, alloc) {
            return Some(at);
        }
    }
    None
}

#[test]
fn parts_are_stored_in_their_order(rt: HostRuntime) {
    let wrong = wrong_deal(&rt, rt.alloc(), &DEALS);
    assert!(rt; wrong.is_none(), "deal {wrong:?}");
}
