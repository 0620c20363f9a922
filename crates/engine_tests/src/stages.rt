//! What inputs and outputs of the product of two words send, stage by stage.

ghost use Rattle.local_run.specs.Job.{IsJob};

use crate::jobs::{ALONE, Circuit, Parts, ready};
use crate::seat::Seat;
use dealer_files::DealerPart;
use gate_tasks::{GateTask, Out, Value};
use local_engine::LocalJob;
use mot_base::Party;
use std::alloc::Global;
use std::process::Abort;
use std::test::Fail;

/// The product of 6 and 7.
static PRODUCT: Circuit = Circuit::Mixed(
    b"mixed 1\nparties 2\nx = input 0 A\ny = input 1 A\nz = mul x y\noutput z all\n",
);

static VALUES: &[u8] = b"x = 6\ny = 7\n";

/// The first stage of a gate at a party: the share of the operand, if there is one, what is sent to the other
/// party, and the value, if the stage gives one.
struct Row {
    party: u8,
    gate: u32,
    operand: Option<u64>,
    sent: &'static str,
    value: Option<u64>,
}

static ROWS: [Row; 4] = [
    Row {
        party: 0,
        gate: 0,
        operand: None,
        sent: "a052138367b59734",
        value: Some(6894426624449210578),
    },
    Row {
        party: 1,
        gate: 1,
        operand: None,
        sent: "4c9efaee32a7e0b4",
        value: Some(12925617979547721555),
    },
    Row {
        party: 0,
        gate: 3,
        operand: Some(2689075508748745497),
        sent: "255183ed892bfb19",
        value: None,
    },
    Row {
        party: 1,
        gate: 3,
        operand: Some(15757668564960806161),
        sent: "daae7c1276d40511",
        value: None,
    },
];

fn is_hex(alloc: Global, bytes: &[u8], text: &str) -> bool {
    match hex::encode(alloc, bytes) {
        Ok(seen) => seen.as_str() == text,
        Err(_) => false,
    }
}

/// Whether one message is sent, that of a row.
fn is_sent(alloc: Global, row: &Row, outs: &[Out]) -> bool {
    match outs {
        [out] => {
            out.to != Party(row.party)
                && out.to.0 < 2
                && out.gate == row.gate
                && out.round == 0
                && is_hex(alloc, out.payload.bytes(), row.sent)
        }
        _ => false,
    }
}

/// Whether a value is that share of a word, or there is none and none is wanted.
fn is_value(value: Option<&Value>, wanted: Option<u64>) -> bool {
    match value {
        Some(Value::A(share)) => wanted == Some(*share),
        Some(_) => false,
        None => wanted.is_none(),
    }
}

/// Whether the first stage of a row's gate sends and gives what the row says, where the party has the operand.
fn is_run(rt: &impl Abort, alloc: Global, seat: &mut Seat, row: &Row) -> Result<bool, Fail> {
    if let Some(share) = row.operand {
        seat.keep(rt, 2, Value::A(share));
    }
    let mut task = GateTask::new(row.gate);
    let outs = seat.poll(rt, alloc, &mut task)?;
    Ok(is_sent(alloc, row, outs.as_slice()) && is_value(seat.value(row.gate), row.value))
}

fn is_row(
    rt: &impl Abort,
    alloc: Global,
    job: &LocalJob,
    parts: &[DealerPart],
    row: &Row,
) -> Result<bool, Fail>
    requires { IsJob job.now.plan job.now.owns.items parts.now }
{
    if row.party >= job.plan.parties() {
        return Ok(false);
    }
    let at = usize::from(row.party);
    let mut seat = Seat::new(alloc, &job.plan, &job.owns[at], &parts[at])?;
    is_run(rt, alloc, &mut seat, row)
}

/// The number of the first row whose stage goes another way.
fn wrong_row(
    rt: &impl Abort,
    alloc: Global,
    job: &LocalJob,
    parts: &[DealerPart],
    rows: &[Row],
) -> Result<Option<usize>, Fail>
    requires { IsJob job.now.plan job.now.owns.items parts.now }
{
    for (at, row) in rows.iter().enumerate() {
        if !is_row(rt, alloc, job, parts, row)? {
            return Ok(Some(at));
        }
    }
    Ok(None)
}

#[test]
fn inputs_and_outputs_send_their_shares(rt: HostRuntime) -> Result<(), Fail> {
    let Some((job, parts)) = ready(rt.alloc(), &PRODUCT, VALUES, &Parts::Drawn(1, 0), ALONE) else {
        panic!(rt; "no run");
    };
    let wrong = wrong_row(&rt, rt.alloc(), &job, &parts, &ROWS)?;
    assert!(rt; wrong.is_none(), "row {wrong:?}");
    Ok(())
}
