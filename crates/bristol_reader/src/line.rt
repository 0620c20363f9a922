ghost use Rattle.std.specs.Prelude.{◌≡◌, ◌≤◌, ◌^◌, ◌<◌, map, option_map, true, nat_lt, length};
ghost use Rattle.std.specs.List.{list_all};
ghost use Rattle.bristol_reader.specs.Circuit.{is_set};
ghost use Rattle.bristol_reader.specs.Line.{gate_stated, is_in_range, are_ins_set, gate_used, adds_numbers, adds};
ghost use Rattle.bristol_reader.specs.Stored.{stated_gate, adds_kept, adds_words};
ghost use Rattle.text_lines.specs.Gives.{Gives};

use crate::builder::Builder;
use crate::cause::BristolCause;
use crate::kind::{BristolKind, kind_of};
use crate::number::numbers;
use std::alloc::Global;
use text_lines::{LineError, check};

/// The gate that a line states.
#[derive(Clone, Copy)]
pub struct Stated<'a> {
    pub kind: BristolKind,
    pub ins: &'a [u64],
    pub outs: &'a [u64],
}

/// The circuit with the gate that the words of a line say.
pub fn with_line(
    alloc: Global,
    builder: Builder,
    words: &[&[u8]],
) -> Result<Builder, LineError<BristolCause>>
    requires { length builder.circuit.gates < builder.stated }
    ensures { Gives (λ b. b) result (adds builder (map (λ word. word.now) words.now)) }
{
    let _wires = builder.wires();
    with_line_kept(alloc, builder, words)
}

/// The same, where each number is kept in 64 bits.
#[tactic(auto, unfolding(crate::specs::Stored::adds_kept))]
fn with_line_kept(
    alloc: Global,
    builder: Builder,
    words: &[&[u8]],
) -> Result<Builder, LineError<BristolCause>>
    requires { length builder.circuit.gates < builder.stated }
    ensures { Gives (λ b. b) result (adds_kept builder (map (λ word. word.now) words.now)) }
{
    let [front @ .., name] = words else {
        return Err(LineError::Shows(BristolCause::GateName));
    };
    let kind = kind_of(name).ok_or(BristolCause::GateName)?;
    with_words(alloc, builder, kind, front)
}

/// The circuit with the gate of a kind whose numbers words spell.
#[tactic(auto, unfolding(crate::specs::Stored::adds_words))]
fn with_words(
    alloc: Global,
    builder: Builder,
    kind: BristolKind,
    words: &[&[u8]],
) -> Result<Builder, LineError<BristolCause>>
    requires { length builder.circuit.gates < builder.stated }
    ensures { Gives (λ b. b) result (adds_words builder kind (map (λ word. word.now) words.now)) }
{
    let numbers = numbers(alloc, words)?.ok_or(BristolCause::Arity)?;
    with_numbers(builder, kind, &numbers)
}

/// The circuit with the gate of a kind that numbers state.
#[tactic(auto, unfolding(crate::specs::Line::adds_numbers))]
fn with_numbers(
    builder: Builder,
    kind: BristolKind,
    numbers: &[u64],
) -> Result<Builder, LineError<BristolCause>>
    requires { length builder.circuit.gates < builder.stated }
    ensures { Gives (λ b. b) result (adds_numbers builder kind numbers.now) }
{
    let gate = gate_used(&builder, kind, numbers)?;
    let next = builder.with_gate(&gate)?;
    Ok(next)
}

/// The gate of a kind that numbers state behind the gates of a circuit.
#[tactic(auto, unfolding(crate::specs::Line::gate_used))]
fn gate_used<'a>(
    builder: &Builder,
    kind: BristolKind,
    numbers: &'a [u64],
) -> Result<Stated<'a>, LineError<BristolCause>>
    ensures { Gives stated_gate result (gate_used builder.now.circuit kind numbers.entry.now) }
{
    let gate = gate_stated(kind, numbers).ok_or(BristolCause::Arity)?;
    if !is_in_range(builder.wires(), &gate) {
        return Err(LineError::Shows(BristolCause::WireRange));
    }
    check(are_ins_set(builder, &gate), BristolCause::UsedBeforeSet)?;
    Ok(gate)
}

/// The gate of a kind that numbers state.
fn gate_stated(kind: BristolKind, numbers: &[u64]) -> Option<Stated>
    ensures { option_map stated_gate result ≡ gate_stated kind numbers.entry.now }
{
    match numbers {
        [ins, outs, wires @ ..] => {
            let count = wires.len() as u64;
            if *ins <= count && *outs == count - *ins && kind.has(*ins, *outs) {
                Some(Stated {
                    kind,
                    ins: &wires[..*ins as usize],
                    outs: &wires[*ins as usize..],
                })
            } else {
                None
            }
        }
        _ => None,
    }
}

/// Whether each wire of a gate is one of so many, and a constant is 0 or 1.
fn is_in_range(wires: u32, gate: &Stated) -> bool
    ensures { result ≡ is_in_range wires (stated_gate gate.now) }
{
    let bound = if gate.kind.is_constant() { 2 } else { wires };
    are_below(gate.ins, bound) && are_below(gate.outs, wires)
}

fn are_below(numbers: &[u64], bound: u32) -> bool
    ensures { result ≡ list_all (λ n. nat_lt n bound) numbers.now }
{
    numbers.iter().all(|n| *n < u64::from(bound))
}

/// Whether each input wire of a gate is an input of the circuit or set.
fn are_ins_set(builder: &Builder, gate: &Stated) -> bool
    requires { is_in_range builder.now.circuit.wires (stated_gate gate.now) ≡ true }
    ensures { result ≡ are_ins_set builder.now.circuit (stated_gate gate.now) }
{
    gate.kind.is_constant() || are_all_set(builder, gate.ins)
}

fn are_all_set(builder: &Builder, wires: &[u64]) -> bool
    requires { list_all (λ w. nat_lt w builder.now.circuit.wires) wires.now ≡ true }
    ensures { result ≡ list_all (is_set builder.now.circuit) wires.now }
{
    for wire in wires {
        if !builder.is_set(*wire) {
            return false;
        }
    }
    true
}
