use text_lines::{LineError, TextError};
use thiserror::Error;

/// What is wrong with a line of a circuit's text. Within one line the causes are looked for in this order:
/// `NotText`, `Header`, `Word`, `BadNumber`, `BadParty`, `NameTwice`, `NameUnknown`, `WrongSharing`,
/// `WrongWidth`, `TooMany`.
#[derive(Clone, Copy, Debug, PartialEq, Eq, Error)]
pub enum CircuitCause {
    /// A byte that is not allowed.
    #[error("a byte that is not allowed")]
    NotText = 1,
    /// A header line has to stand here, and this is not that line; or the text ends before both header lines.
    #[error("not the header line that has to stand here")]
    Header = 2,
    /// No statement has this form.
    #[error("no statement has this form")]
    Word = 3,
    /// An earlier statement gave this name.
    #[error("an earlier statement gave this name")]
    NameTwice = 4,
    /// No earlier statement gave the name of an operand.
    #[error("no earlier statement gave the name of an operand")]
    NameUnknown = 5,
    /// An operand is shared in another way than the operation takes, or two operands are shared in two ways.
    #[error("an operand is shared in another way than the operation takes")]
    WrongSharing = 6,
    /// The widths of the operands do not fit.
    #[error("the widths of the operands do not fit")]
    WrongWidth = 7,
    /// A word in the place of a number is none, or one outside its range.
    #[error("a word is no number, or one outside its range")]
    BadNumber = 8,
    /// A party that the circuit does not have.
    #[error("the circuit does not have this party")]
    BadParty = 9,
    /// One statement more than a circuit may have.
    #[error("one statement more than a circuit may have")]
    TooMany = 10,
}

/// Why a text was not read as a circuit: the first fault, or want of memory.
pub type CircuitError = TextError<CircuitCause>;

impl From<CircuitCause> for LineError<CircuitCause> {
    ghost use Rattle.std.specs.Prelude.{◌≡◌};
    ghost use Rattle.text_lines.specs.declared.cause.LineError.TheVariants.{Shows};

    ghost from_gives = { λ cause e. e ≡ Shows cause };

    fn from(cause: CircuitCause) -> LineError<CircuitCause> {
        LineError::Shows(cause)
    }
}
