//! Lines of words and what they ask for.
use cli_words::{
    BristolWords, Command, CommandWords, Offer, OptionName, WordsError, read_behind, read_words,
};
use share_types::Sharing;
use std::alloc::{AllocError, Global};

// every command with every option
static ALL: [Offer; 4] = [
    Offer {
        command: Command::Plain,
        options: &[OptionName::As, OptionName::Parties],
    },
    Offer {
        command: Command::Needs,
        options: &[OptionName::As, OptionName::Parties],
    },
    Offer {
        command: Command::Deal,
        options: &[],
    },
    Offer {
        command: Command::Local,
        options: &[
            OptionName::As,
            OptionName::Parties,
            OptionName::Dealer,
            OptionName::Workers,
        ],
    },
];

// one command with no option
static LOCAL: [Offer; 1] = [Offer {
    command: Command::Local,
    options: &[],
}];

const LOWER: &str = "00112233445566778899aabbccddeeff00112233445566778899aabbccddeeff";

const UPPER: &str = "00112233445566778899AABBCCDDEEFF00112233445566778899aAbBcCdDeEfF";

const SHORT: &str = "00112233445566778899aabbccddeeff00112233445566778899aabbccddeef";

const LONG: &str = "00112233445566778899aabbccddeeff00112233445566778899aabbccddeefff";

const NO_DIGIT: &str = "00112233445566778899aabbccddeeff00112233445566778899aabbccddeefg";

/// The words of a line.
fn words_of(alloc: Global, line: &[&str]) -> Result<Vec<String>, AllocError> {
    let mut words = Vec::new(alloc);
    for word in line {
        words.push(String::from_str(alloc, word)?)?;
    }
    Ok(words)
}

/// The options of a Bristol text, where they are there.
fn bristol(alloc: Global, words: Option<BristolWords>) -> Result<String, AllocError> {
    let Some(words) = words else {
        return String::from_str(alloc, "");
    };
    let sharing = match words.sharing {
        Sharing::A => "A",
        Sharing::B => "B",
        Sharing::Y => "Y",
    };
    format!(in alloc; " {sharing} {}", words.parties)
}

/// More workers than one.
fn workers(alloc: Global, count: u8) -> Result<String, AllocError> {
    match count {
        1 => String::from_str(alloc, ""),
        _ => format!(in alloc; " by {count}"),
    }
}

/// What is asked for, with the byte at place 7 for the seed.
fn shown(alloc: Global, words: &CommandWords) -> Result<String, AllocError> {
    match words {
        CommandWords::Plain(w) => {
            format!(in alloc;
                "plain {} {}{}",
                w.circuit,
                w.values,
                bristol(alloc, w.bristol)?
            )
        }
        CommandWords::Needs(w) => {
            format!(in alloc; "needs {}{}", w.circuit, bristol(alloc, w.bristol)?)
        }
        CommandWords::Deal(w) => {
            format!(in alloc;
                "deal {} {:x} {} {} {} {} {}",
                w.prefix, w.seed.0[7], w.parties, w.mult, w.bit, w.shared, w.key
            )
        }
        CommandWords::Local(w) => {
            let dealer = match &w.dealer {
                Some(dealer) => format!(in alloc; " from {dealer}")?,
                None => String::from_str(alloc, "")?,
            };
            format!(in alloc;
                "local {} {} {:x}{}{dealer}{}",
                w.circuit,
                w.values,
                w.seed.0[7],
                bristol(alloc, w.bristol)?,
                workers(alloc, w.workers)?
            )
        }
    }
}

fn is_shown(alloc: Global, words: &CommandWords, wanted: &str) -> bool {
    match shown(alloc, words) {
        Ok(text) => text.as_str() == wanted,
        Err(_) => false,
    }
}

/// Whether a text tells what is asked for, or is `usage`.
fn is_told(alloc: Global, asked: &Result<CommandWords, WordsError>, wanted: &str) -> bool {
    match asked {
        Ok(words) => is_shown(alloc, words, wanted),
        Err(WordsError::Usage) => wanted == "usage",
        Err(WordsError::NoMemory) => false,
    }
}

/// Whether this is the reading of a line.
fn is_read(alloc: Global, offers: &[Offer], line: &[&str], wanted: &str) -> bool {
    match words_of(alloc, line) {
        Ok(words) => is_told(alloc, &read_words(alloc, offers, words.as_slice()), wanted),
        Err(_) => false,
    }
}

/// The number of the first line with another reading.
fn wrong_line(alloc: Global, offers: &[Offer], rows: &[(&[&str], &str)]) -> Option<usize> {
    for (at, (line, wanted)) in rows.iter().enumerate() {
        if !is_read(alloc, offers, line, wanted) {
            return Some(at);
        }
    }
    None
}

// a line and its reading, where every command is run
static READ: [(&[&str], &str); 26] = [
    (&["plain", "c", "v"], "plain c v"),
    (&["plain", "--", "c", "v"], "plain c v"),
    (&["plain", "c", "--", "v"], "plain c v"),
    (&["plain", "c", "v", "--"], "plain c v"),
    (&["plain", "c", "--", "--"], "plain c --"),
    (&["plain", "--", "-c", "--as=B"], "plain -c --as=B"),
    (&["plain", "-", "-"], "plain - -"),
    (&["plain", "=", "a b"], "plain = a b"),
    (&["plain", "é", "-"], "plain é -"),
    (
        &["plain", "c", "v", "--as", "B", "--parties", "2"],
        "plain c v B 2",
    ),
    (
        &["plain", "--parties=8", "c", "--as=Y", "v"],
        "plain c v Y 8",
    ),
    (
        &["plain", "--as", "B", "c", "v", "--parties=003"],
        "plain c v B 3",
    ),
    (
        &["plain", "--as=B", "--parties", "2", "--", "-c", "-v"],
        "plain -c -v B 2",
    ),
    (&["needs", "c"], "needs c"),
    (&["needs", "--as=Y", "c", "--parties=5"], "needs c Y 5"),
    (&["local", "c", "v", LOWER], "local c v 77"),
    (&["local", "c", "v", UPPER], "local c v 77"),
    (
        &["local", "c", "v", LOWER, "--dealer", "d"],
        "local c v 77 from d",
    ),
    (
        &["local", "c", "--dealer=-d", "v", LOWER],
        "local c v 77 from -d",
    ),
    (
        &["local", "c", "v", LOWER, "--dealer", "-"],
        "local c v 77 from -",
    ),
    (
        &["local", "c", "v", LOWER, "--dealer=--"],
        "local c v 77 from --",
    ),
    (
        &["local", "c", "v", LOWER, "--dealer=a=b"],
        "local c v 77 from a=b",
    ),
    (
        &[
            "local",
            "--dealer",
            "d",
            "--as",
            "B",
            "--parties",
            "4",
            "c",
            "v",
            LOWER,
        ],
        "local c v 77 B 4 from d",
    ),
    (
        &["local", "c", "v", LOWER, "--workers", "1"],
        "local c v 77",
    ),
    (
        &["local", "--workers=016", "c", "v", LOWER],
        "local c v 77 by 16",
    ),
    (
        &["local", "c", "v", LOWER, "--workers=2", "--dealer=d"],
        "local c v 77 from d by 2",
    ),
];

#[test]
fn lines_are_read_by_the_whole_table(rt: HostRuntime) {
    let wrong = wrong_line(rt.alloc(), &ALL, &READ);
    assert!(rt; wrong.is_none(), "line {wrong:?}");
}

// the same of `deal`, and of words that are no seed
static DEALS: [(&[&str], &str); 18] = [
    (
        &["deal", "d", LOWER, "2", "1", "0", "0", "0"],
        "deal d 77 2 1 0 0 0",
    ),
    (
        &["deal", "d", LOWER, "02", "1", "0", "0", "0"],
        "deal d 77 2 1 0 0 0",
    ),
    (
        &["deal", "d", LOWER, "8", "1", "2", "3", "4294967295"],
        "deal d 77 8 1 2 3 4294967295",
    ),
    (
        &[
            "deal",
            "--",
            "-d",
            LOWER,
            "2",
            "00000000000000000000007",
            "0",
            "0",
            "0",
        ],
        "deal -d 77 2 7 0 0 0",
    ),
    (
        &["deal", "d", LOWER, "2", "1", "0", "0", "4294967296"],
        "usage",
    ),
    (
        &[
            "deal",
            "d",
            LOWER,
            "2",
            "18446744073709551617",
            "0",
            "0",
            "0",
        ],
        "usage",
    ),
    (&["deal", "d", LOWER, "1", "1", "0", "0", "0"], "usage"),
    (&["deal", "d", LOWER, "9", "1", "0", "0", "0"], "usage"),
    (&["deal", "d", LOWER, "258", "1", "0", "0", "0"], "usage"),
    (&["deal", "d", LOWER, "+2", "1", "0", "0", "0"], "usage"),
    (&["deal", "d", LOWER, "2", "1", "0", "0", "-1"], "usage"),
    (&["deal", "d", LOWER, "2", "1", "0", "0", "0x1"], "usage"),
    (&["deal", "d", LOWER, "2", "1", "0", "0"], "usage"),
    (&["deal", "d", LOWER, "2", "1", "0", "0", "0", "0"], "usage"),
    (
        &[
            "deal",
            "d",
            LOWER,
            "2",
            "1",
            "0",
            "0",
            "0",
            "--as=B",
            "--parties=2",
        ],
        "usage",
    ),
    (&["local", "c", "v", SHORT], "usage"),
    (&["local", "c", "v", LONG], "usage"),
    (&["local", "c", "v", NO_DIGIT], "usage"),
];

#[test]
fn deals_are_read_by_the_whole_table(rt: HostRuntime) {
    let wrong = wrong_line(rt.alloc(), &ALL, &DEALS);
    assert!(rt; wrong.is_none(), "line {wrong:?}");
}

// a command and the words behind its name, with their reading
static RESTS: [(Command, &[&str], &str); 8] = [
    (
        Command::Plain,
        &["c", "--as=B", "v", "--parties", "2"],
        "plain c v B 2",
    ),
    (Command::Plain, &["plain", "c", "v"], "usage"),
    (Command::Needs, &["--", "-c"], "needs -c"),
    (Command::Needs, &[], "usage"),
    (
        Command::Deal,
        &["d", LOWER, "3", "1", "2", "3", "4"],
        "deal d 77 3 1 2 3 4",
    ),
    (Command::Deal, &["d", LOWER, "3", "1", "2", "3"], "usage"),
    (
        Command::Local,
        &["--dealer", "d", "c", "v", UPPER],
        "local c v 77 from d",
    ),
    (Command::Local, &["c", "v"], "usage"),
];

fn is_rest_read(alloc: Global, command: Command, rest: &[&str], wanted: &str) -> bool {
    match words_of(alloc, rest) {
        Ok(words) => {
            let asked = read_behind(alloc, &ALL, command, words.as_slice());
            is_told(alloc, &asked, wanted)
        }
        Err(_) => false,
    }
}

/// The number of the first row with another reading.
fn wrong_rest(alloc: Global, rows: &[(Command, &[&str], &str)]) -> Option<usize> {
    for (at, (command, rest, wanted)) in rows.iter().enumerate() {
        if !is_rest_read(alloc, *command, rest, wanted) {
            return Some(at);
        }
    }
    None
}

#[test]
fn each_command_reads_the_words_behind_its_name(rt: HostRuntime) {
    let wrong = wrong_rest(rt.alloc(), &RESTS);
    assert!(rt; wrong.is_none(), "row {wrong:?}");
}

/// The number of the first line that is in the grammar.
fn line_in_grammar(alloc: Global, lines: &[&[&str]]) -> Option<usize> {
    for (at, line) in lines.iter().enumerate() {
        if !is_read(alloc, &ALL, line, "usage") {
            return Some(at);
        }
    }
    None
}

// lines that are in the grammar of no command
static REFUSED: [&[&str]; 20] = [
    &[],
    &[""],
    &["-h"],
    &["--help"],
    &["--"],
    &["--", "plain", "c", "v"],
    &["Plain", "c", "v"],
    &["plai", "c", "v"],
    &["batch", "l", LOWER, "2", "1", "0", "0", "0"],
    &["plain"],
    &["plain", "c"],
    &["plain", "c", "v", "w"],
    &["plain", "", "v"],
    &["plain", "c", "--", ""],
    &["plain", "c", "v", "--", "--"],
    &["plain", "--help"],
    &["plain", "c", "v", "-h"],
    &["plain", "-c", "v"],
    &["plain", "c", "v", "---"],
    &["plain", "c", "v", "--=B"],
];

#[test]
fn lines_out_of_the_grammar_are_usage(rt: HostRuntime) {
    let wrong = line_in_grammar(rt.alloc(), &REFUSED);
    assert!(rt; wrong.is_none(), "line {wrong:?}");
}

// the same with options
static REFUSED_OPTIONS: [&[&str]; 28] = [
    &["plain", "c", "v", "--as=B", "--as=B", "--parties", "2"],
    &[
        "plain",
        "c",
        "v",
        "--as",
        "B",
        "--parties",
        "2",
        "--parties=2",
    ],
    &["plain", "c", "v", "--as", "B"],
    &["plain", "c", "v", "--parties", "2"],
    &["plain", "c", "v", "--as", "A", "--parties", "2"],
    &["plain", "c", "v", "--as", "b", "--parties", "2"],
    &["plain", "c", "v", "--as", "BY", "--parties", "2"],
    &["plain", "c", "v", "--parties", "9", "--as", "B"],
    &["plain", "c", "v", "--parties", "1", "--as", "B"],
    &["plain", "c", "v", "--parties=", "--as=B"],
    &["plain", "c", "v", "--as=B", "--parties", ""],
    &["plain", "c", "v", "--as=B", "--parties"],
    &["plain", "c", "v", "--parties", "2", "--as", "--", "B"],
    &["plain", "c", "v", "--as=B", "--par", "2"],
    &["plain", "c", "v", "--as=B", "--par=2"],
    &["plain", "c", "v", "--as=B", "-parties=2"],
    &["plain", "c", "v", "--as=B", "--parties:2"],
    &["plain", "c", "v", "--dealer", "d"],
    &["plain", "c", "v", "--workers", "1"],
    &["--as=B", "plain", "c", "v", "--parties", "2"],
    &["needs", "c", "v"],
    &["local", "c", "v", LOWER, "--dealer", "-d"],
    &["local", "c", "v", LOWER, "--dealer="],
    &["local", "c", "v", LOWER, "--dealer", "--", "d"],
    &["local", "c", "v", LOWER, "--workers", "0"],
    &["local", "c", "v", LOWER, "--workers=17"],
    &["local", "c", "v", LOWER, "--workers=two"],
    &["local", "c", "v", LOWER, "--workers=2", "--workers=2"],
];

#[test]
fn options_out_of_the_grammar_are_usage(rt: HostRuntime) {
    let wrong = line_in_grammar(rt.alloc(), &REFUSED_OPTIONS);
    assert!(rt; wrong.is_none(), "line {wrong:?}");
}

// a line and its reading, where `local` alone is run, with no option
static READ_BY_FEW: [(&[&str], &str); 5] = [
    (&["local", "c", "v", LOWER], "local c v 77"),
    (&["local", "--", "c", "v", UPPER], "local c v 77"),
    (&["local", "c", "v", LOWER, "--dealer", "d"], "usage"),
    (
        &["local", "c", "v", LOWER, "--as", "B", "--parties", "2"],
        "usage",
    ),
    (&["plain", "c", "v"], "usage"),
];

#[test]
fn what_is_not_run_is_out_of_the_grammar(rt: HostRuntime) {
    let wrong = wrong_line(rt.alloc(), &LOCAL, &READ_BY_FEW);
    assert!(rt; wrong.is_none(), "line {wrong:?}");
}
