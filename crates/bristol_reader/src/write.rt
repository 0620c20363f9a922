ghost use Rattle.std.specs.Prelude.{◌≡◌, ◌<◌, ◌++◌, length, slice_get, OnOk, IfOk, IfSome};
ghost use Rattle.std.specs.Fmt.{decimal};
ghost use Rattle.bristol_reader.specs.Grammar.{Reads};
ghost use Rattle.bristol_reader.specs.Stored.{a_gate};
ghost use Rattle.bristol_reader.specs.Written.{line_of, sizes_words, widths_words, gate_words, spaced, canonical};

use crate::circuit::Bristol;
use crate::kind::BristolKind;
use crate::widths::Widths;
use mot_base::NoMemory;
use std::alloc::Global;
use text_lines::{push_number, push_text};

/// The canonical text of a circuit: single spaces, decimal numbers, no blank line, and a line end behind every line. It
/// reads as that circuit again. It may be longer than the text that `read_bristol` takes.
pub fn write_bristol(alloc: Global, circuit: &Bristol) -> Result<Vec<u8>, NoMemory>
    ensures written { IfOk result (λ text. text.items ≡ canonical circuit.now) }
    ensures reads_back { IfOk result (λ text. Reads text.items circuit.now) }
{
    let mut out = Vec::new(alloc);
    push_sizes(alloc, &mut out, circuit)?;
    push_widths(alloc, &mut out, circuit.input_widths())?;
    push_widths(alloc, &mut out, circuit.output_widths())?;
    for at in 0..circuit.len() {
        push_gate(alloc, &mut out, circuit, at)?;
    }
    Ok(out)
}

/// Adds the first header line at the end.
fn push_sizes(alloc: Global, out: &mut Vec<u8>, circuit: &Bristol) -> Result<(), NoMemory>
    ensures { OnOk result (out.new.items ≡ out.old.items ++ line_of (sizes_words circuit.now)) }
{
    push_number(alloc, out, u64::from(circuit.len()))?;
    push_text(out, b" ")?;
    push_number(alloc, out, u64::from(circuit.wires()))?;
    push_text(out, b"\n")
}

/// Adds another header line at the end.
fn push_widths(alloc: Global, out: &mut Vec<u8>, widths: &Widths) -> Result<(), NoMemory>
    ensures { OnOk result (out.new.items ≡ out.old.items ++ line_of (widths_words widths.now)) }
{
    push_number(alloc, out, u64::from(widths.len()))?;
    push_spaced(alloc, out, widths.as_slice())?;
    push_text(out, b"\n")
}

/// Adds the line of a gate at the end.
fn push_gate(alloc: Global, out: &mut Vec<u8>, circuit: &Bristol, at: u32) -> Result<(), NoMemory>
    requires { at < length circuit.now.gates }
    ensures { OnOk result (IfSome (slice_get circuit.now.gates at) (λ g.
        out.new.items ≡ out.old.items ++ line_of (gate_words g))) }
{
    push_line(
        alloc,
        out,
        circuit.kind(at),
        circuit.ins(at),
        circuit.outs(at),
    )
}

/// Adds the line of a gate of these parts at the end.
fn push_line(
    alloc: Global,
    out: &mut Vec<u8>,
    kind: BristolKind,
    ins: &[u32],
    outs: &[u32],
) -> Result<(), NoMemory>
    ensures { OnOk result (out.new.items ≡ out.old.items ++ line_of (gate_words (a_gate kind ins.now outs.now))) }
{
    push_number(alloc, out, ins.len() as u64)?;
    push_text(out, b" ")?;
    push_number(alloc, out, outs.len() as u64)?;
    push_spaced(alloc, out, ins)?;
    push_spaced(alloc, out, outs)?;
    push_text(out, b" ")?;
    push_text(out, kind.name())?;
    push_text(out, b"\n")
}

/// Adds numbers in decimal at the end, each with a space before it.
fn push_spaced(alloc: Global, out: &mut Vec<u8>, numbers: &[u32]) -> Result<(), NoMemory>
    ensures { OnOk result (out.new.items ≡ out.old.items ++ spaced numbers.now) }
{
    for number in numbers {
        push_text(out, b" ")?;
        push_number(alloc, out, u64::from(*number))?;
    }
    Ok(())
}
