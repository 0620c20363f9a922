//! The tasks of a product and of an AND: what they lack, what they send, and what they give.

ghost use Rattle.std.specs.Prelude.{◌≡◌, ◌<◌, ℕ, IfSome};
ghost use Rattle.gate_tasks.specs.Task.{ExpectsAll};

use circuit_values::{InputTable, read_values};
use dealer_files::{DealerPart, read_dealer};
use gate_plan::{Plan, lower_mixed};
use gate_tasks::{Env, GateTask, Need, Own, StageEnv, Step, Value, Wires};
use message_demux::{Inbox, Slot};
use mixed_circuit::read_mixed;
use mot_base::{MAX_FILE_LENGTH, Party, Payload, Seed};
use share_types::{Bits, Needs};
use std::alloc::Global;

static PRODUCT: &[u8] =
    b"mixed 1\nparties 2\nx = input 0 A\ny = input 1 A\nz = mul x y\noutput z all\n";

static AND: &[u8] =
    b"mixed 1\nparties 2\nx = input 0 B 4\ny = input 1 B 4\nz = and x y\noutput z all\n";

/// A gate at one of two parties: the party and its part of a deal, the width and the shares of both operands,
/// what the party sends, what it is sent, and the share that it is given.
struct Row {
    part: &'static str,
    me: u8,
    width: u8,
    x: u64,
    y: u64,
    sent: &'static str,
    heard: &'static str,
    share: u64,
}

static ROWS: [Row; 6] = [
    // 6 times 7, with the words of the tapes and of the deal of the seed of zeros
    Row {
        part: "4d4f54440102007aab31b445921b8a4001d84b79475c5afe724516bdc123490000000100000000000000000000000099d2379c2e8378051c2add9a53828a361b8763727dc0cd49",
        me: 0,
        width: 64,
        x: 6894426624449210578,
        y: 5521126094161830068,
        sent: "c5dbb4e069c6f0cd30741d53df25567e",
        heard: "14d14cc3e5bf377f9433ae578d3898ca",
        share: 2689075508748745497,
    },
    Row {
        part: "4d4f54440102017aab31b445921b8a2732711a278f257d9eba5eac117b148f000000010000000000000000000000008b80c6bf81f65fb51f2d56ba401f8689376253001c56c67d",
        me: 1,
        width: 64,
        x: 11552317449260341044,
        y: 12925617979547721555,
        sent: "14d14cc3e5bf377f9433ae578d3898ca",
        heard: "c5dbb4e069c6f0cd30741d53df25567e",
        share: 15757668564960806161,
    },
    // by hand: the shares of 6 are 10 and -4, of 7 are 5 and 2; the triples are (1, 2, 5) and (2, 2, 7)
    Row {
        part: "4d4f544401020000000000000000070000000000000000000000000000000100000001000000000000000000000000000000000000000100000000000000020000000000000005",
        me: 0,
        width: 64,
        x: 10,
        y: 5,
        sent: "00000000000000090000000000000003",
        heard: "fffffffffffffffa0000000000000000",
        share: 23,
    },
    Row {
        part: "4d4f544401020100000000000000070000000000000000000000000000000100000001000000000000000000000000000000000000000200000000000000020000000000000007",
        me: 1,
        width: 64,
        x: 18446744073709551612,
        y: 2,
        sent: "fffffffffffffffa0000000000000000",
        heard: "00000000000000090000000000000003",
        share: 19,
    },
    // by hand: the shares of 1100 are 1010 and 0110, of 1010 are 0001 and 1011
    Row {
        part: "4d4f54440102000000000000000007000000000000000000000000000000010000000000000004000000000000000007050404",
        me: 0,
        width: 4,
        x: 10,
        y: 1,
        sent: "0900",
        heard: "0309",
        share: 6,
    },
    Row {
        part: "4d4f54440102010000000000000007000000000000000000000000000000010000000000000004000000000000000005020504",
        me: 1,
        width: 4,
        x: 6,
        y: 11,
        sent: "0309",
        heard: "0900",
        share: 14,
    },
];

/// The circuit whose operands have a width.
fn text_of(width: u8) -> &'static [u8] {
    if width == 64 { PRODUCT } else { AND }
}

/// A share of a word or of a vector of a width.
fn share_of(width: u8, share: u64) -> Option<Value> {
    if width == 64 {
        return Some(Value::A(share));
    }
    match Bits::new(share, width) {
        Some(vector) => Some(Value::B(vector)),
        None => None,
    }
}

/// The plan of a circuit.
fn plan_of(alloc: Global, text: &[u8]) -> Option<Plan> {
    if text.len() > MAX_FILE_LENGTH {
        return None;
    }
    match read_mixed(alloc, text) {
        Ok(circuit) => lower_mixed(alloc, &circuit).ok(),
        Err(_) => None,
    }
}

/// A part of a deal, from its file in hexadecimal digits.
fn part_of(alloc: Global, text: &str) -> Option<DealerPart> {
    match hex::decode(alloc, text) {
        Ok(bytes) => read_dealer(alloc, bytes.as_slice()).ok(),
        Err(_) => None,
    }
}

/// What a party has, which gives no input.
fn own_of(alloc: Global, me: u8) -> Option<Own>
    ensures { IfSome result (λ own. own.me.0 ≡ me) }
{
    match read_values(alloc, b"", &InputTable::new(alloc), None) {
        Ok(inputs) => Some(Own {
            me: Party(me),
            seed: Seed([0; 32]),
            inputs,
            session: 0,
            bases: Needs {
                mult: 0,
                bit: 0,
                shared: 0,
                key: 0,
            },
        }),
        Err(_) => None,
    }
}

/// An inbox for all messages to a party.
fn empty_inbox(alloc: Global, plan: &Plan, me: Party) -> Option<Inbox>
    ensures { IfSome result (λ inbox. (g : ℕ) → ExpectsAll plan.now me.0 g inbox) }
{
    match plan.slots_to(alloc, me) {
        Ok(slots) => Inbox::new(alloc, slots).ok(),
        Err(_) => None,
    }
}

/// The same, with the payload of gate 2 from another party.
fn full_inbox(alloc: Global, plan: &Plan, me: Party, from: Party, payload: Payload) -> Option<Inbox>
    ensures { IfSome result (λ inbox. (g : ℕ) → ExpectsAll plan.now me.0 g inbox) }
{
    match empty_inbox(alloc, plan, me) {
        Some(mut inbox) => match inbox.deliver(alloc, from, 2, 0, payload) {
            Ok(_) => Some(inbox),
            Err(_) => None,
        },
        None => None,
    }
}

/// How a task answers whose conditions hold.
fn polled(alloc: Global, task: &mut GateTask, env: &Env) -> Option<Step>
    requires { (g : ℕ) → ExpectsAll env.now.plan.now env.now.own.now.me.0 g env.now.inbox.now }
{
    let place = StageEnv {
        plan: env.plan,
        own: env.own,
        part: env.part,
        gate: task.gate(),
    };
    if !place.serves()
        || !env.holds_types(task.gate())
        || task.stage() >= env.plan.stages(env.own.me, task.gate())
    {
        return None;
    }
    task.poll(alloc, env).ok()
}

/// The bytes of a text in hexadecimal digits, as a payload.
fn payload(alloc: Global, text: &str) -> Option<Payload> {
    match hex::decode(alloc, text) {
        Ok(bytes) => Some(Payload::new(bytes)),
        Err(_) => None,
    }
}

/// The shares of the first operands, of which there are so many.
fn wires_of(alloc: Global, row: &Row, count: u32) -> Option<Wires<Value>> {
    let (Some(x), Some(y)) = (share_of(row.width, row.x), share_of(row.width, row.y)) else {
        return None;
    };
    let Ok(mut wires) = Wires::new(alloc, 4) else {
        return None;
    };
    if count >= 1 {
        wires.set(0, x);
    }
    if count >= 2 {
        wires.set(1, y);
    }
    Some(wires)
}

/// What a party has to run gates.
fn env_of<'a>(
    plan: &'a Plan,
    own: &'a Own,
    part: &'a DealerPart,
    wires: &'a Wires<Value>,
    inbox: &'a Inbox,
) -> Env<'a>
    ensures { result ≡ record { plan = plan.entry; own = own.entry; part = part.entry; wires = wires.entry; inbox = inbox.entry } }
{
    Env {
        plan,
        own,
        part,
        wires,
        inbox,
    }
}

/// Whether a task told that it lacks this.
fn lacks(step: &Step, need: Need) -> bool {
    match step {
        Step::NotYet(told) => *told == need,
        _ => false,
    }
}

/// Whether a task sent one message: these bytes of gate 2 to a party in round 0.
fn sends(step: &Step, to: Party, bytes: &[u8]) -> bool {
    let Step::Sent(outs) = step else {
        return false;
    };
    match outs.as_slice() {
        [out] => { out.to == to && out.gate == 2 && out.round == 0 && out.payload.bytes() == bytes }
        _ => false,
    }
}

/// Whether a task ended with that share and sent nothing more.
fn gives(step: &Step, share: u64) -> bool {
    match step {
        Step::Done(Value::A(word), outs) => *word == share && outs.as_slice().is_empty(),
        Step::Done(Value::B(vector), outs) => vector.word == share && outs.as_slice().is_empty(),
        _ => false,
    }
}

/// Whether a task answers that it lacks this.
fn is_lacking(alloc: Global, task: &mut GateTask, env: &Env, need: Need) -> bool
    requires { (g : ℕ) → ExpectsAll env.now.plan.now env.now.own.now.me.0 g env.now.inbox.now }
{
    match polled(alloc, task, env) {
        Some(step) => lacks(&step, need),
        None => false,
    }
}

/// Whether a task answers with this message.
fn is_sending(alloc: Global, task: &mut GateTask, env: &Env, to: Party, payload: &Payload) -> bool
    requires { (g : ℕ) → ExpectsAll env.now.plan.now env.now.own.now.me.0 g env.now.inbox.now }
{
    match polled(alloc, task, env) {
        Some(step) => sends(&step, to, payload.bytes()),
        None => false,
    }
}

/// Whether a task answers with this share.
fn is_giving(alloc: Global, task: &mut GateTask, env: &Env, share: u64) -> bool
    requires { (g : ℕ) → ExpectsAll env.now.plan.now env.now.own.now.me.0 g env.now.inbox.now }
{
    match polled(alloc, task, env) {
        Some(step) => gives(&step, share),
        None => false,
    }
}

/// Whether a task lacks the operand behind those that are there.
fn lacks_operand(
    alloc: Global,
    row: &Row,
    task: &mut GateTask,
    plan: &Plan,
    own: &Own,
    part: &DealerPart,
    inbox: &Inbox,
    count: u32,
) -> bool
    requires { (g : ℕ) → ExpectsAll plan.now own.now.me.0 g inbox.now }
{
    match wires_of(alloc, row, count) {
        Some(wires) => is_lacking(
            alloc,
            task,
            &env_of(plan, own, part, &wires, inbox),
            Need::Wire(count),
        ),
        None => false,
    }
}

/// Whether a task sends what it has to and then waits for the other party, where both operands are there.
fn sends_and_waits(alloc: Global, task: &mut GateTask, env: &Env, other: Party, sent: &str) -> bool
    requires { (g : ℕ) → ExpectsAll env.now.plan.now env.now.own.now.me.0 g env.now.inbox.now }
{
    let slot = Slot {
        from: other,
        gate: 2,
        round: 0,
    };
    match payload(alloc, sent) {
        Some(sent) => {
            is_sending(alloc, task, env, other, &sent)
                && is_lacking(alloc, task, env, Need::Slot(slot))
        }
        None => false,
    }
}

/// Whether a task goes on as a row says once both operands are there.
fn goes_on(
    alloc: Global,
    row: &Row,
    task: &mut GateTask,
    plan: &Plan,
    own: &Own,
    part: &DealerPart,
    empty: &Inbox,
    full: &Inbox,
) -> bool
    requires me { own.now.me.0 < 2 }
    requires empty { (g : ℕ) → ExpectsAll plan.now own.now.me.0 g empty.now }
    requires full { (g : ℕ) → ExpectsAll plan.now own.now.me.0 g full.now }
{
    let Some(wires) = wires_of(alloc, row, 2) else {
        return false;
    };
    let other = Party(1 - own.me.0);
    let before = env_of(plan, own, part, &wires, empty);
    let after = env_of(plan, own, part, &wires, full);
    sends_and_waits(alloc, task, &before, other, row.sent)
        && is_giving(alloc, task, &after, row.share)
}

/// Whether the task of gate 2 answers as a row says, with an inbox that keeps nothing and then one that keeps
/// what the task waits for.
fn is_run(
    alloc: Global,
    row: &Row,
    plan: &Plan,
    own: &Own,
    part: &DealerPart,
    empty: &Inbox,
    full: &Inbox,
) -> bool
    requires me { own.now.me.0 < 2 }
    requires empty { (g : ℕ) → ExpectsAll plan.now own.now.me.0 g empty.now }
    requires full { (g : ℕ) → ExpectsAll plan.now own.now.me.0 g full.now }
{
    let mut task = GateTask::new(2);
    lacks_operand(alloc, row, &mut task, plan, own, part, empty, 0)
        && lacks_operand(alloc, row, &mut task, plan, own, part, empty, 1)
        && goes_on(alloc, row, &mut task, plan, own, part, empty, full)
}

/// The same with the inboxes of a party.
fn is_run_by(alloc: Global, row: &Row, plan: &Plan, own: &Own, part: &DealerPart) -> bool
    requires { own.now.me.0 < 2 }
{
    let Some(heard) = payload(alloc, row.heard) else {
        return false;
    };
    let other = Party(1 - own.me.0);
    let empty = empty_inbox(alloc, plan, own.me);
    let full = full_inbox(alloc, plan, own.me, other, heard);
    match (empty, full) {
        (Some(empty), Some(full)) => is_run(alloc, row, plan, own, part, &empty, &full),
        _ => false,
    }
}

/// The same under a plan.
fn is_run_under(alloc: Global, row: &Row, plan: &Plan) -> bool {
    if plan.gates() != 4 || row.me >= 2 {
        return false;
    }
    match (own_of(alloc, row.me), part_of(alloc, row.part)) {
        (Some(own), Some(part)) => is_run_by(alloc, row, plan, &own, &part),
        _ => false,
    }
}

fn is_row(alloc: Global, row: &Row) -> bool {
    match plan_of(alloc, text_of(row.width)) {
        Some(plan) => is_run_under(alloc, row, &plan),
        None => false,
    }
}

/// The number of the first row whose task answers otherwise.
fn wrong_row(alloc: Global, rows: &[Row]) -> Option<usize> {
    for (at, row) in rows.iter().enumerate() {
        if !is_row(alloc, row) {
            return Some(at);
        }
    }
    None
}

#[test]
fn a_product_and_an_and_run_in_their_stages(rt: HostRuntime) {
    let wrong = wrong_row(rt.alloc(), &ROWS);
    assert!(rt; wrong.is_none(), "row {wrong:?}");
}
