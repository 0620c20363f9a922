//! A run of eight parties, each with a task for each gate, whose payloads are handed over one by one.

ghost use Rattle.local_run.specs.Job.{IsJob};

use crate::jobs::{ALONE, Circuit, Parts, ready};
use crate::seat::Seat;
use dealer_files::DealerPart;
use gate_tasks::{GateTask, Outs, Value};
use local_engine::LocalJob;
use mot_base::Party;
use std::alloc::{AllocError, Global};
use std::process::Abort;
use std::test::Fail;

/// A circuit with each kind of gate over words and vectors.
static CIRCUIT: Circuit = Circuit::Mixed(
    b"mixed 1
parties 8
a = input 0 A
b = input 5 A
v = input 3 B 8
w = input 7 B 8
k = const A 1000
c = const B 12 0xf0f
s = add a b
d = sub a b
e = add_const s 17
f = mul_const d 3
p = mul e f
q = mul p k
x = xor v w
y = and v w
n = not x
l = slice y 2 4
j = join l n
m = and j c
output p all
output q 4
output d 0
output x 7
output m 6
output j all
",
);

static VALUES: &[u8] = b"a = 100\nb = 0xffffffffffffff85\nv = 0xb6\nw = 0x5c\n";

/// What the gates give, by their numbers: the words and the numbers of the vectors.
static GIVEN: [u64; 18] = [
    100,
    18446744073709551493,
    182,
    92,
    1000,
    3855,
    18446744073709551593,
    223,
    18446744073709551610,
    669,
    18446744073709547602,
    18446744073705537616,
    234,
    20,
    21,
    5,
    341,
    261,
];

/// What the output gates behind them tell: to whom alone, if not to all, and which number.
static TOLD: [(Option<u8>, u64); 6] = [
    (None, 18446744073709547602),
    (Some(4), 18446744073705537616),
    (Some(0), 223),
    (Some(7), 234),
    (Some(6), 261),
    (None, 341),
];

/// A party, and its tasks, one for each gate.
#[derive(Drop)]
struct Player<'r> {
    seat: Seat<'r>,
    tasks: Vec<GateTask>,
}

impl<'r> Player<'r> {
    /// Polls the task of a gate that is not done, and answers what it sends.
    fn poll(&mut self, rt: &impl Abort, alloc: Global, at: usize) -> Result<Outs, Fail> {
        assert!(rt; at < self.tasks.len());
        let task = &mut self.tasks[at];
        if self.seat.value(task.gate()).is_some() {
            return Ok(Outs::new(Vec::new(alloc)));
        }
        self.seat.poll(rt, alloc, task)
    }
}

/// All parties of a run before it begins.
fn players<'r>(
    alloc: Global,
    job: &'r LocalJob,
    parts: &'r [DealerPart],
) -> Result<Vec<Player<'r>>, Fail>
    requires { IsJob job.now.plan job.now.owns.items parts.now }
{
    let mut players = Vec::new(alloc);
    for at in 0..parts.len() {
        let seat = Seat::new(alloc, &job.plan, &job.owns[at], &parts[at])?;
        let tasks = tasks(alloc, job.plan.gates())?;
        players.push(Player { seat, tasks })?;
    }
    Ok(players)
}

/// The tasks of so many gates.
fn tasks(alloc: Global, gates: u32) -> Result<Vec<GateTask>, AllocError> {
    let mut tasks = Vec::new(alloc);
    for gate in 0..gates {
        tasks.push(GateTask::new(gate))?;
    }
    Ok(tasks)
}

/// Hands over what a party sends.
fn hand_over(
    rt: &impl Abort,
    alloc: Global,
    players: &mut [Player],
    from: Party,
    outs: &Outs,
) -> Result<(), Fail> {
    for out in outs.as_slice() {
        let to = usize::from(out.to.0);
        assert!(rt; to < players.len());
        players[to].seat.deliver(rt, alloc, from, out)?;
    }
    Ok(())
}

/// Polls the task of a gate at all parties, one after another.
fn poll_gate(
    rt: &impl Abort,
    alloc: Global,
    players: &mut [Player],
    gate: usize,
) -> Result<(), Fail> {
    for at in 0..players.len() {
        let from = players[at].seat.party();
        let outs = players[at].poll(rt, alloc, gate)?;
        hand_over(rt, alloc, players, from, &outs)?;
    }
    Ok(())
}

/// Polls all tasks of all parties, gate by gate.
fn poll_all(rt: &impl Abort, alloc: Global, players: &mut [Player]) -> Result<(), Fail> {
    for gate in 0..24 {
        poll_gate(rt, alloc, players, gate)?;
    }
    Ok(())
}

/// Polls all tasks of all parties often enough: the messages of an input, of both products and of an output are
/// waited for in turn.
fn run(rt: &impl Abort, alloc: Global, players: &mut [Player]) -> Result<(), Fail> {
    for _time in 0..5 {
        poll_all(rt, alloc, players)?;
    }
    Ok(())
}

/// What the parties' shares of a gate recombine to, and none where one has no share.
fn recombined(players: &[Player], gate: u32) -> Option<u64> {
    let mut number: u64 = 0;
    for player in players {
        number = match player.seat.value(gate)? {
            Value::A(word) => number.wrapping_add(*word),
            Value::B(vector) => number ^ vector.word,
            Value::Told(_) => return None,
        };
    }
    Some(number)
}

/// Whether a party is told that by a gate, and is told nothing else.
fn is_told(player: &Player, gate: u32, told: Option<u64>) -> bool {
    match player.seat.value(gate) {
        Some(Value::Told(Some(bits))) => told == Some(bits.word),
        Some(Value::Told(None)) => told.is_none(),
        _ => false,
    }
}

/// Runs all parties, and gives the first gate whose value is another one.
fn wrong_gate(
    rt: &impl Abort,
    alloc: Global,
    job: &LocalJob,
    parts: &[DealerPart],
) -> Result<Option<u32>, Fail>
    requires { IsJob job.now.plan job.now.owns.items parts.now }
{
    let mut players = players(alloc, job, parts)?;
    run(rt, alloc, &mut players)?;
    Ok(gate_not_given(&players).or(gate_not_told(&players)))
}

/// The first gate whose shares do not recombine to what it gives.
fn gate_not_given(players: &[Player]) -> Option<u32> {
    for (at, number) in GIVEN.iter().enumerate() {
        let gate = at as u32;
        if recombined(players, gate) != Some(*number) {
            return Some(gate);
        }
    }
    None
}

/// The first output gate, behind those, of which a party is told something else.
fn gate_not_told(players: &[Player]) -> Option<u32> {
    for (at, (to, number)) in TOLD.iter().enumerate() {
        let gate = (18 + at) as u32;
        if !tells(players, gate, *to, *number) {
            return Some(gate);
        }
    }
    None
}

/// Whether an output gate tells all parties, or one alone.
fn tells(players: &[Player], gate: u32, to: Option<u8>, number: u64) -> bool {
    for (party, player) in players.iter().enumerate() {
        let is_meant = match to {
            Some(one) => usize::from(one) == party,
            None => true,
        };
        let told = if is_meant { Some(number) } else { None };
        if !is_told(player, gate, told) {
            return false;
        }
    }
    true
}

#[test]
fn payloads_that_are_handed_over_give_what_the_circuit_computes(
    rt: HostRuntime,
) -> Result<(), Fail> {
    let Some((job, parts)) = ready(rt.alloc(), &CIRCUIT, VALUES, &Parts::Drawn(2, 20), ALONE) else {
        panic!(rt; "no run");
    };
    let wrong = wrong_gate(&rt, rt.alloc(), &job, &parts)?;
    assert!(rt; wrong.is_none(), "gate {wrong:?}");
    Ok(())
}
