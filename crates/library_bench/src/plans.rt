//! Circuits that are read and lowered.
ghost use Rattle.std.specs.Prelude.{◌≤◌, length};
ghost use Rattle.mot_base.specs.Limits.{most_file_bytes};

use anyhow::{Error, anyhow};
use gate_plan::{Plan, lower_mixed};
use mixed_circuit::{Mixed, read_mixed};
use mot_base::{MAX_FILE_LENGTH, Party};
use std::alloc::Global;
use std::fmt::Write;

/// Reads a circuit of so many statements behind its four inputs, and gives the number of its statements.
pub fn read(alloc: Global, size: u32) -> Result<u64, Error> {
    Ok(u64::from(circuit_of(alloc, size)?.len()))
}

/// The same, and lowers the circuit. Gives a number of all messages to party 0 and of the needs of all gates.
pub fn lower(alloc: Global, size: u32) -> Result<u64, Error> {
    let circuit = circuit_of(alloc, size)?;
    let plan = lower_mixed(alloc, &circuit)?;
    let slots = plan.slots_to(alloc, Party(0))?;
    Ok(needed(&plan).wrapping_add(slots.len() as u64))
}

/// The sum of the offsets of all gates, modulo 2^64.
fn needed(plan: &Plan) -> u64 {
    let mut sum: u64 = 0;
    for gate in 0..plan.gates() {
        let offset = plan.offset(gate);
        sum = sum
            .wrapping_add(u64::from(offset.mult))
            .wrapping_add(u64::from(offset.bit));
    }
    sum
}

/// A circuit of three parties with so many statements behind its inputs, products, sums, ANDs and XORs by turns.
fn circuit_of(alloc: Global, size: u32) -> Result<Mixed, Error> {
    let text = text_of(alloc, size)?;
    if text.len() > MAX_FILE_LENGTH {
        return Err(anyhow!("the circuit is too long"));
    }
    Ok(read_mixed(alloc, text.as_bytes())?)
}

fn text_of(alloc: Global, size: u32) -> Result<String, Error> {
    let mut text = String::from_str(
        alloc,
        "mixed 1\nparties 3\nx = input 0 A\ny = input 1 A\nu = input 2 B 32\nv = input 0 B 32\n",
    )?;
    for number in 0..size {
        let words = match number % 4 {
            0 => "mul x y",
            1 => "and u v",
            2 => "add x y",
            _ => "xor u v",
        };
        write!(text, "g{number} = {words}\n")?;
    }
    Ok(text)
}
