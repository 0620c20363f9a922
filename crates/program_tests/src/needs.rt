//! What circuits need, and circuits with too many gates.
use crate::machine::{Machine, Runs, SEED};
use std::alloc::{AllocError, Global};
use std::thread::Threads;

/// Circuits, what `needs` prints of each, and its status.
static NEEDS: [(&str, &str, u8); 7] = [
    (
        "mixed 1\nparties 2\nx = input 0 A\ny = input 1 A\nz = mul x y\noutput z all\n",
        "gates 4\nmult 1\nbit 0\nshared 0\nkey 0\n",
        0,
    ),
    (
        "mixed 1\nparties 2\nx = input 0 A\noutput x all\n",
        "gates 2\nmult 0\nbit 0\nshared 0\nkey 0\n",
        0,
    ),
    (
        "mixed 1\nparties 5\nx = input 4 B 12\ny = and x x\nz = not y\nw = and z y\noutput w 3\n",
        "gates 5\nmult 0\nbit 24\nshared 0\nkey 0\n",
        0,
    ),
    (
        "mixed 1\nparties 2\n",
        "gates 0\nmult 0\nbit 0\nshared 0\nkey 0\n",
        0,
    ),
    (
        "mixed 1\nparties 2\nx = input 0 Y 1\nn = not x\noutput n all\n",
        "gates 5\nmult 0\nbit 0\nshared 0\nkey 1\n",
        0,
    ),
    (
        "mixed 1\nparties 2\nx = input 0 B 8\ny = b2a x\n",
        "gates 2\nmult 0\nbit 0\nshared 8\nkey 0\n",
        0,
    ),
    (
        "mixed 1\nparties 2\nx = mul x x\n",
        "circuit c: line 3: NameUnknown\n",
        2,
    ),
];

fn is_printed<R: Threads + Sync>(
    rt: &R,
    alloc: Global,
    circuit: &str,
    printed: &str,
    status: u8,
) -> bool {
    let files = [("c", circuit)];
    Machine::new(&files).prints(rt, alloc, Runs::Program, &["needs", "c"], printed, status)
}

/// The number of the first circuit of which something else is printed.
fn wrong_needs<R: Threads + Sync>(
    rt: &R,
    alloc: Global,
    rows: &[(&str, &str, u8)],
) -> Option<usize> {
    for (at, (circuit, printed, status)) in rows.iter().enumerate() {
        if !is_printed(rt, alloc, circuit, printed, *status) {
            return Some(at);
        }
    }
    None
}

#[test]
fn what_circuits_need_is_printed(rt: HostRuntime) {
    let wrong = wrong_needs(&rt, rt.alloc(), &NEEDS);
    assert!(rt; wrong.is_none(), "circuit {wrong:?}");
}

const PRODUCT: &str =
    "mixed 1\nparties 2\nx = input 0 A\ny = input 1 A\nz = mul x y\noutput z all\n";

#[test]
fn the_command_needs_is_called_without_its_name(rt: HostRuntime) {
    let files = [("c", PRODUCT)];
    let machine = Machine::new(&files);
    let printed = "gates 4\nmult 1\nbit 0\nshared 0\nkey 0\n";
    let is_printed = machine.prints(&rt, rt.alloc(), Runs::Needs, &["c"], printed, 0);
    let is_refused = machine.prints(&rt, rt.alloc(), Runs::Needs, &["needs", "c"], "usage\n", 1);
    let line = "file d: missing\n";
    let is_missing = machine.prints(&rt, rt.alloc(), Runs::Needs, &["d"], line, 8);
    assert!(rt; is_printed && is_refused && is_missing);
}

fn push_conversion(alloc: Global, text: &mut String, number: u32) -> Result<(), AllocError> {
    let line = format!(in alloc; "y{number} = a2y x\n")?;
    text.push_str(line.as_str())
}

/// A circuit of eight parties with so many conversions of one input to keys.
fn with_conversions(alloc: Global, count: u32) -> Result<String, AllocError> {
    let mut text = String::from_str(alloc, "mixed 1\nparties 8\nx = input 0 A\n")?;
    for number in 0..count {
        push_conversion(alloc, &mut text, number)?;
    }
    Ok(text)
}

/// A circuit of almost as many gates as a plan has at most is evaluated, and its needs are told.
fn are_few<R: Threads + Sync>(rt: &R, alloc: Global, circuit: &str) -> bool {
    let files = [("c", circuit), ("v", "x = 1\n")];
    let machine = Machine::new(&files);
    machine.prints(rt, alloc, Runs::Program, &["plain", "c", "v"], "", 0)
        && machine.prints(
            rt,
            alloc,
            Runs::Program,
            &["needs", "c"],
            "gates 4192540\nmult 0\nbit 245637\nshared 0\nkey 776458\n",
            0,
        )
}

fn are_many<R: Threads + Sync>(rt: &R, alloc: Global, circuit: &str) -> bool {
    let files = [("c", circuit), ("v", "")];
    let machine = Machine::new(&files);
    let local = ["local", "c", "v", SEED];
    let line = "circuit c: gates 4200067\n";
    machine.prints(rt, alloc, Runs::Program, &["plain", "c", "v"], line, 2)
        && machine.prints(rt, alloc, Runs::Program, &["needs", "c"], line, 2)
        && machine.prints(rt, alloc, Runs::Program, &local, line, 2)
}

#[test]
fn too_many_gates_are_told_before_the_values(rt: HostRuntime) {
    let are_few = match with_conversions(rt.alloc(), 557) {
        Ok(circuit) => are_few(&rt, rt.alloc(), circuit.as_str()),
        Err(_) => false,
    };
    let are_many = match with_conversions(rt.alloc(), 558) {
        Ok(circuit) => are_many(&rt, rt.alloc(), circuit.as_str()),
        Err(_) => false,
    };
    assert!(rt; are_few && are_many);
}
