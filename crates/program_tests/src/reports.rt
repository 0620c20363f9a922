//! Circuits, the values of their inputs, and what is printed.
use crate::machine::{Machine, Runs, SEED};
use std::alloc::Global;
use std::thread::Threads;

struct Report {
    circuit: &'static str,
    values: &'static str,
    printed: &'static str,
}

impl Report {
    fn is_printed<R: Threads + Sync>(
        &self,
        rt: &R,
        alloc: Global,
        runs: Runs,
        words: &[&str],
    ) -> bool {
        let files = [("c", self.circuit), ("v", self.values)];
        Machine::new(&files).prints(rt, alloc, runs, words, self.printed, 0)
    }
}

/// The number of the first report that is printed otherwise.
fn wrong_report<R: Threads + Sync>(
    rt: &R,
    alloc: Global,
    rows: &[Report],
    runs: Runs,
    words: &[&str],
) -> Option<usize> {
    for (at, report) in rows.iter().enumerate() {
        if !report.is_printed(rt, alloc, runs, words) {
            return Some(at);
        }
    }
    None
}

static REPORTS: [Report; 15] = [
    // the product of a number of each party
    Report {
        circuit: "mixed 1\nparties 2\nx = input 0 A\ny = input 1 A\nz = mul x y\noutput z all\n",
        values: "x = 6\ny = 7\n",
        printed: "\
            party 0\nz = 42\ndigest ede9e85c2353da49bd07e838a89e63c5813eac7435feece4b976d5b741518e21\n\
            party 1\nz = 42\ndigest 8aa423722ced7bffdeeed890dd4ab8dde54f3387d8eebb01a5251717f2ab94be\n",
    },
    // a product modulo 2^64, of one value with itself
    Report {
        circuit: "mixed 1\nparties 2\nx = input 0 A\nz = mul x x\noutput z all\n",
        values: "x = 4294967296\n",
        printed: "\
            party 0\nz = 0\ndigest a60cf09073571752edd1f0b1e00783f0c505ec2bfa63915362c0fbdc5ce7d849\n\
            party 1\nz = 0\ndigest a973d162a661ece48a25dcf6a5dad9820cb82be9f6267356e56093a5fea5e585\n",
    },
    // a difference modulo 2^64
    Report {
        circuit: "mixed 1\nparties 2\nx = input 0 A\ny = input 1 A\nz = sub x y\noutput z all\n",
        values: "x = 3\ny = 5\n",
        printed: "\
            party 0\nz = 18446744073709551614\n\
            digest ef65fb185a44c11753af84bff9a4677a69a9dd171a7b66575ac73f3f632a4bdd\n\
            party 1\nz = 18446744073709551614\n\
            digest 2f562f3c813fd5d96e40ff434efdd6209ba4f5568f6471d9802636b14626d567\n",
    },
    // a sum modulo 2^64
    Report {
        circuit: "mixed 1\nparties 2\nx = input 0 A\ny = input 1 A\nz = add x y\noutput z all\n",
        values: "x = 18446744073709551615\ny = 3\n",
        printed: "\
            party 0\nz = 2\ndigest e02a25a6a26b1a65acbc3002bac5fcd406d9dc6b1023a76e6eaa2954288d2a4f\n\
            party 1\nz = 2\ndigest f883959d91fde7671d67115bde5035602933e38e22b64e8d8f6c988983b570eb\n",
    },
    // an input alone
    Report {
        circuit: "mixed 1\nparties 2\nx = input 0 A\noutput x all\n",
        values: "x = 18446744073709551615\n",
        printed: "\
            party 0\nx = 18446744073709551615\n\
            digest 9d5da9372da727c3a54efc83b65a717d8c81538a6d05cfe69dc4f366ea3ee2bd\n\
            party 1\nx = 18446744073709551615\n\
            digest cb37e4405491f9319b56c342127f32f690fa92c4b893028754b00bab285b965e\n",
    },
    // a product of a sum, then of that product
    Report {
        circuit: "mixed 1\nparties 2\nx = input 0 A\ny = input 1 A\ns = add x y\np = mul s x\nq = mul p s\noutput q all\n",
        values: "y = 3\nx = 2\n",
        printed: "\
            party 0\nq = 50\ndigest d6070bd74053f5e9e161f17c4cff629c22bb41b575b8c64b24e9a5c139ff3df1\n\
            party 1\nq = 50\ndigest 6a718997207ff0393230853938b4b73c14bb44e6dbb32ab7569273651c4b7a1f\n",
    },
    // outputs in the order of their statements, one of them twice, and one before the last value
    Report {
        circuit: "mixed 1\nparties 2\nx = input 1 A\ny = input 0 A\noutput y all\nd = sub y x\noutput d all\noutput y all\n",
        values: "x = 4\ny = 9\n",
        printed: "\
            party 0\ny = 9\nd = 5\ny = 9\n\
            digest c8e55adde783a0d2da2a20ef757f2968a630ca4464c6b19ef0646bd04b1e0e5e\n\
            party 1\ny = 9\nd = 5\ny = 9\n\
            digest c451d71c202fb08b445155f48e3165cf1f387b4652fd90e4d983a75c722f4646\n",
    },
    // inputs of party 1 only
    Report {
        circuit: "mixed 1\nparties 2\nx = input 1 A\ny = input 1 A\nz = mul x y\noutput z all\n",
        values: "x = 11\ny = 12\n",
        printed: "\
            party 0\nz = 132\ndigest d7fcc8691a0b8e80db7d6ea6c15357538dd9bbd3593f71bca0e8c98326b30018\n\
            party 1\nz = 132\ndigest 6c7fced306808cd1ef612f55469c941ef8db1ad8186cd6bebefe25536c1163ad\n",
    },
    // no output
    Report {
        circuit: "mixed 1\nparties 2\nx = input 0 A\n",
        values: "x = 6\n",
        printed: "\
            party 0\ndigest 3150da34c8e55b05df4a8651abdbdd73f26499ece6e7132c34be1837eae61c3c\n\
            party 1\ndigest e3b0c44298fc1c149afbf4c8996fb92427ae41e4649b934ca495991b7852b855\n",
    },
    // no statement
    Report {
        circuit: "mixed 1\nparties 2\n",
        values: "",
        printed: "\
            party 0\ndigest e3b0c44298fc1c149afbf4c8996fb92427ae41e4649b934ca495991b7852b855\n\
            party 1\ndigest e3b0c44298fc1c149afbf4c8996fb92427ae41e4649b934ca495991b7852b855\n",
    },
    // a multiple modulo 2^64
    Report {
        circuit: "mixed 1\nparties 2\nx = input 0 A\nz = mul_const x 2\noutput z all\n",
        values: "x = 9223372036854775808\n",
        printed: "\
            party 0\nz = 0\ndigest 14f27e73397dda194d43964831372109434237e35a888a9a04604fc54807b782\n\
            party 1\nz = 0\ndigest ebb06d54b8b0d8c75ea19aa8f3a24932efd5cbda123157c68a64f14e9d25474a\n",
    },
    // three parties, and an output of one of them alone
    Report {
        circuit: "mixed 1\nparties 3\nx = input 2 A\ny = mul_const x 10\noutput y 1\noutput x all\n",
        values: "x = 0x1f\n",
        printed: "\
            party 0\nx = 31\ndigest 36689bee5dc036c663cecea28c3fcc13146f2f83d8f66f9e073445078802a46d\n\
            party 1\ny = 310\nx = 31\n\
            digest f2da481cbb9fa4bf3f8ba92dd8a50bcc36fc40658d37f9e0dcadcd551db34038\n\
            party 2\nx = 31\ndigest aed33e28e7f6a0700d4c07a3fdd741f235522ee4bb20cabb1895a89efd83d729\n",
    },
    // a sum modulo 2^64 of a number of each of eight parties
    Report {
        circuit: "\
            mixed 1\nparties 8\nx0 = input 0 A\nx1 = input 1 A\nx2 = input 2 A\nx3 = input 3 A\n\
            x4 = input 4 A\nx5 = input 5 A\nx6 = input 6 A\nx7 = input 7 A\ns1 = add x0 x1\n\
            s2 = add s1 x2\ns3 = add s2 x3\ns4 = add s3 x4\ns5 = add s4 x5\ns6 = add s5 x6\n\
            s7 = add s6 x7\noutput s7 all\n",
        values: "\
            x0 = 18446744073709551615\nx1 = 18446744073709551615\nx2 = 18446744073709551615\n\
            x3 = 18446744073709551615\nx4 = 18446744073709551615\nx5 = 18446744073709551615\n\
            x6 = 18446744073709551615\nx7 = 18446744073709551615\n",
        printed: "\
            party 0\ns7 = 18446744073709551608\n\
            digest 79a06822db53a6fbf4aa7fb86b3a0c47309ed53e9f09274607f2eaf75a3345b3\n\
            party 1\ns7 = 18446744073709551608\n\
            digest f62b5825ae937c6500cb2566cbc631dc48605875e3fde5346c4ae745d9d2ac3a\n\
            party 2\ns7 = 18446744073709551608\n\
            digest cf6faa2340320eccf125a8e46949c29a8321d4381b3a80c2f2cdf3167fde8f92\n\
            party 3\ns7 = 18446744073709551608\n\
            digest 74942eb43ebc23325cbf031d6a30c4db8fd08767e1565f264f2185d88f411cd3\n\
            party 4\ns7 = 18446744073709551608\n\
            digest 52151c46c5b4dbf20d63699fc8581099981ed7a851106ca3c48ac4f35351a0ed\n\
            party 5\ns7 = 18446744073709551608\n\
            digest 87c587a2fbe11794b6a7b01d9bb14030497c61a207f0b88f88b3d3d0e7aa764e\n\
            party 6\ns7 = 18446744073709551608\n\
            digest 1fc606e20466d79946a6a36b43744903ac327c060506776cae34981b1570690f\n\
            party 7\ns7 = 18446744073709551608\n\
            digest 96453c2a9c5f8fe62e018c0b6c089a81f713fa868cf5e06c3607acc4c6faf17c\n",
    },
    // a conjunction of vectors
    Report {
        circuit: "mixed 1\nparties 2\nx = input 0 B 4\ny = input 1 B 4\nz = and x y\noutput z all\n",
        values: "x = 12\ny = 10\n",
        printed: "\
            party 0\nz = 8\ndigest 46078aa4c4b98b72f5e97a617b09e78133a7e9b871287d19d30604863f1ea197\n\
            party 1\nz = 8\ndigest bb62b849b0a66770e9edbaa84207db3078b3e043d41ee13520a4454a4f281032\n",
    },
    // vectors of three parties: each kind of statement, and an output of one of them alone
    Report {
        circuit: "\
            mixed 1\nparties 3\nx = input 0 B 4\ny = input 2 B 4\nk = const B 4 6\na = and x y\n\
            b = xor a k\nc = not b\nh = slice c 1 2\nj = join h x\noutput c all\noutput j 1\n",
        values: "x = 13\ny = 7\n",
        printed: "\
            party 0\nc = 12\ndigest 91f9fa9d82759afdc1a99c359924998fdd59b799d66bfd6611d4891d8710709f\n\
            party 1\nc = 12\nj = 54\n\
            digest 26efe765ee7aff65a3af4abe56ac9db9df0298e32d901eb0ef79cd2b3de87734\n\
            party 2\nc = 12\ndigest 7992d0e3c7252e113e8b1205bf814c4d9fce12dd9fcf6284a4b2cb3c2fc1bb5c\n",
    },
];

fn reports() -> &'static [Report] {
    &REPORTS
}

#[test]
fn each_party_is_told_its_outputs_and_its_digest(rt: HostRuntime) {
    let words = ["local", "c", "v", SEED];
    let wrong = wrong_report(&rt, rt.alloc(), reports(), Runs::Program, &words);
    assert!(rt; wrong.is_none(), "report {wrong:?}");
}

#[test]
fn the_command_is_called_without_its_name(rt: HostRuntime) {
    let wrong = wrong_report(&rt, rt.alloc(), reports(), Runs::Local, &["c", "v", SEED]);
    assert!(rt; wrong.is_none(), "report {wrong:?}");
}

/// The first number of workers with which a report is another.
fn wrong_workers<R: Threads + Sync>(rt: &R, alloc: Global, numbers: &[&str]) -> Option<usize> {
    for (at, workers) in numbers.iter().enumerate() {
        let words = ["local", "c", "v", SEED, "--workers", workers];
        if wrong_report(rt, alloc, reports(), Runs::Program, &words).is_some() {
            return Some(at);
        }
    }
    None
}

#[test]
fn workers_change_no_byte(rt: HostRuntime) {
    let wrong = wrong_workers(&rt, rt.alloc(), &["1", "2", "7", "16"]);
    assert!(rt; wrong.is_none(), "number {wrong:?}");
}

// seeds of digits of both cases, and what is printed of the product
static SEEDS: [(&str, &str); 2] = [
    (
        "ffffffffffffffffffffffffffffffffffffffffffffffffffffffffffffffff",
        "\
            party 0\nz = 42\ndigest 60e807f19da0e8d54b91003bb013172cb4990ed692ebf990812300278e0ffd60\n\
            party 1\nz = 42\ndigest 754566d0e387d0a7d2024b8dc6cb1568542c67cc3a2ffb1579676682ae6b5550\n",
    ),
    (
        "0123456789abcdefABCDEF9876543210000000000000000000000000deadBEEF",
        "\
            party 0\nz = 42\ndigest 369d5b74ef3f4b877dfdc04457cb43bd0376cdec4aec81f311410d0ff8f45c52\n\
            party 1\nz = 42\ndigest 24f579ad96c3be826dc4815926cfbe08b3234498cc50e5412fd36e955c94a0e0\n",
    ),
];

/// The number of the first seed under which something else is printed.
fn wrong_seed<R: Threads + Sync>(
    rt: &R,
    alloc: Global,
    machine: &Machine,
    rows: &[(&str, &str)],
) -> Option<usize> {
    for (at, (seed, printed)) in rows.iter().enumerate() {
        if !machine.prints(
            rt,
            alloc,
            Runs::Program,
            &["local", "c", "v", seed],
            printed,
            0,
        ) {
            return Some(at);
        }
    }
    None
}

#[test]
fn the_digests_follow_the_seed(rt: HostRuntime) {
    let files = [("c", PRODUCT), ("v", "x = 6\ny = 7\n")];
    let wrong = wrong_seed(&rt, rt.alloc(), &Machine::new(&files), &SEEDS);
    assert!(rt; wrong.is_none(), "seed {wrong:?}");
}

// what the plain evaluation of circuits prints
static EVALUATIONS: [Report; 5] = [
    Report {
        circuit: "mixed 1\nparties 2\nx = input 0 A\ny = input 1 A\nz = mul x y\noutput z all\n",
        values: "x = 6\ny = 7\n",
        printed: "z = 42\n",
    },
    // three parties, and an output of one of them: each output is printed once
    Report {
        circuit: "mixed 1\nparties 3\nx = input 2 A\ny = mul_const x 10\noutput y 1\noutput x all\n",
        values: "x = 0x1F\n",
        printed: "y = 310\nx = 31\n",
    },
    // Boolean vectors
    Report {
        circuit: "mixed 1\nparties 2\nx = input 0 B 4\ny = input 1 B 4\nz = and x y\noutput z all\n",
        values: "x = 12\ny = 10\n",
        printed: "z = 8\n",
    },
    // no output
    Report {
        circuit: "mixed 1\nparties 2\nx = input 0 A\n",
        values: "x = 6\n",
        printed: "",
    },
    // no statement
    Report {
        circuit: "mixed 1\nparties 8\n",
        values: "",
        printed: "",
    },
];

fn evaluations() -> &'static [Report] {
    &EVALUATIONS
}

#[test]
fn the_plain_evaluation_is_printed(rt: HostRuntime) {
    let wrong = wrong_report(
        &rt,
        rt.alloc(),
        evaluations(),
        Runs::Program,
        &["plain", "c", "v"],
    );
    let wrong_command = wrong_report(&rt, rt.alloc(), evaluations(), Runs::Plain, &["c", "v"]);
    assert!(rt;
        wrong.is_none() && wrong_command.is_none(),
        "{wrong:?} {wrong_command:?}"
    );
}

const PRODUCT: &str =
    "mixed 1\nparties 2\nx = input 0 A\ny = input 1 A\nz = mul x y\noutput z all\n";

// files whose names look like options
static DASHED: [(&str, &str); 6] = [
    ("c", PRODUCT),
    ("v", "x = 6\ny = 7\n"),
    ("-", PRODUCT),
    ("-c", PRODUCT),
    ("--", PRODUCT),
    ("--as=B", "x = 2\ny = 3\n"),
];

// words, and what is printed
static LINES: [(&[&str], &str); 9] = [
    (&["plain", "c", "v"], "z = 42\n"),
    // the first divider is dropped, and all words behind it are names
    (&["plain", "--", "c", "v"], "z = 42\n"),
    (&["plain", "c", "--", "v"], "z = 42\n"),
    (&["plain", "c", "v", "--"], "z = 42\n"),
    (&["plain", "--", "-c", "--as=B"], "z = 6\n"),
    (&["plain", "--", "--", "v"], "z = 42\n"),
    // one character is no option
    (&["plain", "-", "v"], "z = 42\n"),
    (
        &["local", "-", "v", SEED],
        "\
            party 0\nz = 42\ndigest ede9e85c2353da49bd07e838a89e63c5813eac7435feece4b976d5b741518e21\n\
            party 1\nz = 42\ndigest 8aa423722ced7bffdeeed890dd4ab8dde54f3387d8eebb01a5251717f2ab94be\n",
    ),
    (
        &["local", "--", "c", "--as=B", SEED],
        "\
            party 0\nz = 6\ndigest 2ef1382f8ea28ab284b1110cb57eed23d0eee1ccd3ba3150ce8c41567112b74f\n\
            party 1\nz = 6\ndigest 70fc13737cba17749b19ec2d8ca259b0d13bea6e2ed6a8c4cc95f3189f14a37e\n",
    ),
];

/// The number of the first words by which something else is printed.
fn wrong_line<R: Threads + Sync>(
    rt: &R,
    alloc: Global,
    machine: &Machine,
    rows: &[(&[&str], &str)],
) -> Option<usize> {
    for (at, (words, printed)) in rows.iter().enumerate() {
        if !machine.prints(rt, alloc, Runs::Program, words, printed, 0) {
            return Some(at);
        }
    }
    None
}

#[test]
fn names_are_told_from_options(rt: HostRuntime) {
    let wrong = wrong_line(&rt, rt.alloc(), &Machine::new(&DASHED), &LINES);
    assert!(rt; wrong.is_none(), "line {wrong:?}");
}
