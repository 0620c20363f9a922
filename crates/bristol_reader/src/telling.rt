ghost use Rattle.std.specs.Prelude.{◌≡◌, ◌-◌, length, drop, sum, IfOk};
ghost use Rattle.circuit_tables.specs.Table.{AreCut};
ghost use Rattle.bristol_reader.specs.Table.{HaveInputWidths, outputs_of};
ghost use Rattle.bristol_reader.specs.Eval.{output_bits, IsPlain};
ghost use Rattle.bristol_reader.specs.Cut.{cut_from};

use crate::circuit::Bristol;
use crate::evaluate::wire_bits;
use circuit_tables::{Outputs, Receiver, Values};
use mot_base::NoMemory;
use std::alloc::Global;

/// The plain evaluation of a circuit on the bits of all its input values. Output value `i` is named `out` and `i`, and
/// goes to all.
pub fn plain_bristol(alloc: Global, circuit: &Bristol, values: &Values) -> Result<Outputs, NoMemory>
    requires { HaveInputWidths circuit.now values.now }
    ensures { IfOk result (λ outputs. IsPlain circuit.now values.now outputs) }
{
    let bits = wire_bits(alloc, circuit, values)?;
    told(alloc, circuit, &bits)
}

/// The output values, from the bits of all wires.
fn told(alloc: Global, circuit: &Bristol, bits: &[bool]) -> Result<Outputs, NoMemory>
    requires { length bits.now ≡ circuit.now.wires }
    ensures { IfOk result (λ outputs. AreCut (outputs_of circuit.now) (output_bits circuit.now bits.now) outputs) }
{
    let widths = circuit.output_widths();
    let mut outputs = Outputs::new(alloc);
    let mut from = (circuit.wires() - widths.total()) as usize;
    for at in 0..widths.len() {
        let name = format!(in alloc; "out{at}")?;
        let to = from + widths.width(at) as usize;
        outputs.push_bits(name.as_str(), Receiver::All, &bits[from..to])?;
        from = to;
    }
    Ok(outputs)
}
