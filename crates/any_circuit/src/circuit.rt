//! Circuits of both languages, as the commands meet them.

ghost use Rattle.std.specs.Prelude.{◌≡◌, ◌<◌, ◌≤◌, ◌↔◌, ℕ, length, true, false, None, All, option_map, IfOk, IfErr, IsErrOf};
ghost use Rattle.mot_base.specs.Limits.{most_file_bytes, most_gates, most_width};
ghost use Rattle.cli_words.specs.Request.{bristol_of};
ghost use Rattle.circuit_tables.specs.Table.{AreNamedApart};
ghost use Rattle.circuit_tables.specs.Values.{HaveWidths};
ghost use Rattle.mixed_language.specs.Table as mixed_table;
ghost use Rattle.any_circuit.specs.Circuits.{InBristol, circuit_of, Reads, FirstFault, IsFirstFault, inputs_of, outputs_of, parties_of, IsWhole, gates_of, plan_of, Keeps, IsPlain, notation_of};
ghost use Rattle.gate_plan.specs.Keeps.{KeepsEvaluation};
ghost use Rattle.gate_plan.specs.Lowering.{all_gates, lowered};
ghost use Rattle.local_run.specs.Inputs.{TakesInputs};
ghost use Rattle.any_circuit.specs.Notation.{AreShort, AreNarrow};

use crate::notation::Notation;
use bristol_reader::{Bristol, BristolError, plain_bristol, read_bristol};
use circuit_values::{InputTable, OutputTable, Outputs, Values};
use cli_words::BristolWords;
use command_ends::CircuitFault;
use gate_plan::{
    Plan, PlanError, lower_bristol, lower_mixed, lowered_bristol_gates, lowered_gates,
};
use mixed_circuit::{CircuitError, Mixed, plain, read_mixed};
use mot_base::NoMemory;
use std::alloc::Global;

/// A circuit that a command reads.
#[derive(Debug, Drop)]
pub enum Circuit {
    /// A mixed circuit.
    Mixed(Mixed),
    /// A circuit in Bristol Fashion, and how its wires are shared among how many parties.
    Bristol(Bristol, BristolWords),
}

/// Why a text was not read as a circuit.
#[derive(Clone, Copy, Debug, PartialEq, Eq)]
pub enum ReadError {
    /// The first line that shows a cause, and the first cause of that line.
    At { line: u32, cause: CircuitFault },
    /// Memory ran out.
    NoMemory,
}

/// Reads a text as a circuit, in Bristol Fashion where the words say so, and as a mixed one else.
pub fn read_circuit(
    alloc: Global,
    bristol: Option<BristolWords>,
    text: &[u8],
) -> Result<Circuit, ReadError>
    requires { length text.now ≤ most_file_bytes }
    ensures ok { IfOk result (λ circuit.
        Reads (option_map bristol_of bristol) text.now (circuit_of circuit)) }
    ensures at { IfErr result (λ error. IsFirstFault (option_map bristol_of bristol) text.now error) }
{
    match bristol {
        None => read_as_mixed(alloc, text),
        Some(words) => read_as_bristol(alloc, words, text),
    }
}

fn read_as_mixed(alloc: Global, text: &[u8]) -> Result<Circuit, ReadError>
    requires { length text.now ≤ most_file_bytes }
    ensures ok { IfOk result (λ circuit. Reads None text.now (circuit_of circuit)) }
    ensures at { IfErr result (λ error. IsFirstFault None text.now error) }
{
    match read_mixed(alloc, text) {
        Ok(circuit) => Ok(Circuit::Mixed(circuit)),
        Err(CircuitError::At { line, cause }) => Err(ReadError::At {
            line,
            cause: CircuitFault::Mixed(cause),
        }),
        Err(CircuitError::NoMemory) => Err(ReadError::NoMemory),
    }
}

fn read_as_bristol(alloc: Global, words: BristolWords, text: &[u8]) -> Result<Circuit, ReadError>
    requires { length text.now ≤ most_file_bytes }
    ensures ok { IfOk result (λ circuit. Reads (Some (bristol_of words)) text.now (circuit_of circuit)) }
    ensures at { IfErr result (λ error. IsFirstFault (Some (bristol_of words)) text.now error) }
{
    match read_bristol(alloc, text) {
        Ok(circuit) => Ok(Circuit::Bristol(circuit, words)),
        Err(BristolError::At { line, cause }) => Err(ReadError::At {
            line,
            cause: CircuitFault::Bristol(cause),
        }),
        Err(BristolError::NoMemory) => Err(ReadError::NoMemory),
    }
}

impl Circuit {
    /// The input values, with the party of each.
    pub fn inputs(&self, alloc: Global) -> Result<InputTable, NoMemory>
        ensures value { IfOk result (λ table. table ≡ inputs_of (circuit_of self.now)) }
        ensures apart { IfOk result (λ table. AreNamedApart table) }
    {
        match self {
            Circuit::Mixed(circuit) => circuit.inputs(alloc),
            Circuit::Bristol(circuit, words) => circuit.inputs(alloc, words.parties),
        }
    }

    /// The outputs, with who is told each.
    pub fn outputs(&self, alloc: Global) -> Result<OutputTable, NoMemory>
        ensures value { IfOk result (λ table. table ≡ outputs_of (circuit_of self.now)) }
        ensures narrow { IfOk result (λ table. AreNarrow (notation_of (circuit_of self.now)) table) }
    {
        match self {
            Circuit::Mixed(circuit) => mixed_outputs(alloc, circuit),
            Circuit::Bristol(circuit, _) => circuit.outputs(alloc),
        }
    }

    /// How many parties the circuit has.
    pub fn parties(&self) -> u8
        ensures value { result ≡ parties_of (circuit_of self.now) }
        ensures whole { IsWhole (circuit_of self.now) }
    {
        match self {
            Circuit::Mixed(circuit) => circuit.parties(),
            Circuit::Bristol(circuit, words) => parties_of(circuit, *words),
        }
    }

    /// How many gates the circuit has, be they too many or not.
    pub fn gates(&self) -> u64
        ensures { result ≡ gates_of (circuit_of self.now) }
    {
        match self {
            Circuit::Mixed(circuit) => lowered_gates(circuit),
            Circuit::Bristol(circuit, words) => { lowered_bristol_gates(circuit, words.sharing) }
        }
    }

    /// The plan of the circuit. `TooManyGates` comes exactly where it has too many.
    pub fn plan(&self, alloc: Global) -> Result<Plan, PlanError>
        ensures plan { IfOk result (λ plan. plan ≡ plan_of (circuit_of self.now)) }
        ensures keeps { IfOk result (λ plan. Keeps (circuit_of self.now) plan) }
        ensures takes { IfOk result (λ plan. TakesInputs (inputs_of (circuit_of self.now)) plan) }
        ensures too_many { (gates : ℕ) → IsErrOf result (PlanError.TooManyGates gates) ↔
            ((most_gates < gates_of (circuit_of self.now)) × (gates ≡ gates_of (circuit_of self.now))) }
    {
        match self {
            Circuit::Mixed(circuit) => mixed_plan(alloc, circuit),
            Circuit::Bristol(circuit, words) => {
                lower_bristol(alloc, circuit, words.parties, words.sharing)
            }
        }
    }

    /// The outputs of the plain evaluation on the values of all inputs.
    pub fn evaluate(&self, alloc: Global, values: &Values) -> Result<Outputs, NoMemory>
        requires { HaveWidths None (inputs_of (circuit_of self.now)) values.now }
        ensures plain { IfOk result (λ outputs. IsPlain (circuit_of self.now) values.now outputs) }
        ensures short { IfOk result (λ outputs. AreShort (notation_of (circuit_of self.now)) outputs) }
    {
        match self {
            Circuit::Mixed(circuit) => plain(alloc, circuit, values),
            Circuit::Bristol(circuit, _) => plain_bristol(alloc, circuit, values),
        }
    }

    /// How the values of the outputs are written.
    pub fn notation(&self) -> Notation
        ensures { result ≡ notation_of (circuit_of self.now) }
    {
        match self {
            Circuit::Mixed(_) => Notation::Decimal,
            Circuit::Bristol(..) => Notation::Hexadecimal,
        }
    }
}

/// How many parties the words of a circuit in Bristol Fashion say.
fn parties_of(circuit: &Bristol, words: BristolWords) -> u8
    ensures value { result ≡ words.parties }
    ensures whole { IsWhole (InBristol (bristol_of words) circuit.now) }
{
    let _wires = circuit.wires();
    words.parties
}

/// The plan of a mixed circuit.
fn mixed_plan(alloc: Global, circuit: &Mixed) -> Result<Plan, PlanError>
    ensures plan { IfOk result (λ plan. plan ≡ lowered circuit.now) }
    ensures keeps { IfOk result (λ plan. KeepsEvaluation circuit.now plan) }
    ensures takes { IfOk result (λ plan. TakesInputs (mixed_table.inputs_of circuit.now.statements) plan) }
    ensures too_many { (gates : ℕ) → IsErrOf result (PlanError.TooManyGates gates) ↔
        ((most_gates < all_gates circuit.now) × (gates ≡ all_gates circuit.now)) }
{
    let _statements = circuit.len();
    lower_mixed(alloc, circuit)
}

/// The outputs of a mixed circuit, each of at most 64 bits.
fn mixed_outputs(alloc: Global, circuit: &Mixed) -> Result<OutputTable, NoMemory>
    ensures value { IfOk result (λ table. table ≡ mixed_table.outputs_of circuit.now) }
    ensures narrow { IfOk result (λ table. All (λ o. o.width ≤ most_width) table) }
{
    let _statements = circuit.len();
    circuit.outputs(alloc)
}
