use text_lines::{LineError, TextError};
use thiserror::Error;

/// What is wrong with a line of a text in Bristol Fashion. Within one line the causes are looked for in this order:
/// `NotText`, `Header`, `TooMany`, `Counts`, `Leftover`, `GateName`, `Arity`, `WireRange`, `UsedBeforeSet`, `SetTwice`,
/// `OutputUnset`. Those that stand at the last line take part in the order of that line.
#[derive(Clone, Copy, Debug, PartialEq, Eq, Error)]
pub enum BristolCause {
    /// A byte that is not allowed.
    #[error("a byte that is not allowed")]
    NotText = 1,
    /// A header line has to stand here and is not numbers of the stated count, or has a width 0; or, at the last line,
    /// the text ends before the third header line.
    #[error("not the header line that has to stand here")]
    Header = 2,
    /// The wires of the inputs, or of the outputs, are more than all wires; or, at the last line, there are fewer gate
    /// lines than stated.
    #[error("the header lines state other counts")]
    Counts = 3,
    /// The last word is no name of a gate.
    #[error("the last word is no name of a gate")]
    GateName = 4,
    /// The counts are not those of the gate, the number of words does not agree with them, or one of the words is no
    /// number.
    #[error("not the numbers that a gate of this name has")]
    Arity = 5,
    /// A wire that the circuit does not have, or a constant other than 0 and 1.
    #[error("the circuit does not have this wire")]
    WireRange = 6,
    /// An input wire that is neither an input of the circuit nor set by an earlier line.
    #[error("an input wire is not set by an earlier line")]
    UsedBeforeSet = 7,
    /// An output wire that is an input of the circuit, was set by an earlier line, or stands twice in the line.
    #[error("an output wire is set already")]
    SetTwice = 8,
    /// At the last line: an output wire of the circuit is neither an input nor set.
    #[error("an output wire of the circuit is not set")]
    OutputUnset = 9,
    /// A line behind the last gate.
    #[error("a line behind the last gate")]
    Leftover = 10,
    /// More gates, or more wires, than a circuit may have.
    #[error("more gates or wires than a circuit may have")]
    TooMany = 11,
}

/// Why a text was not read as a circuit: the first fault, or want of memory.
pub type BristolError = TextError<BristolCause>;

impl From<BristolCause> for LineError<BristolCause> {
    ghost use Rattle.std.specs.Prelude.{◌≡◌};
    ghost use Rattle.text_lines.specs.declared.cause.LineError.TheVariants.{Shows};

    ghost from_gives = { λ cause e. e ≡ Shows cause };

    fn from(cause: BristolCause) -> LineError<BristolCause> {
        LineError::Shows(cause)
    }
}
