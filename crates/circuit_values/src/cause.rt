use text_lines::{LineError, TextError};
use thiserror::Error;

/// What is wrong with a line of a values text. Within one line the causes are looked for in this order:
/// `Word`, `NameUnknown`, `Twice`, `TooWide`; and `Missing` behind all lines.
#[derive(Clone, Copy, Debug, PartialEq, Eq, Error)]
pub enum ValuesCause {
    /// No input that is asked for has this name.
    #[error("no input that is asked for has this name")]
    NameUnknown = 1,
    /// An input that is asked for has no line. It stands at the last line.
    #[error("an input that is asked for has no value")]
    Missing = 2,
    /// An earlier line gave this input its value.
    #[error("an earlier line gave this input its value")]
    Twice = 3,
    /// A decimal literal from 2^64 on, or a one bit at or above the input's width.
    #[error("the value is wider than the input")]
    TooWide = 4,
    /// Not a name, `=` and a literal, or a byte that is not allowed.
    #[error("the line is not a name, `=` and a literal")]
    Word = 5,
}

/// Why a text was not read as values: the first fault, or want of memory.
pub type ValuesError = TextError<ValuesCause>;

impl From<ValuesCause> for LineError<ValuesCause> {
    ghost use Rattle.std.specs.Prelude.{◌≡◌};
    ghost use Rattle.text_lines.specs.declared.cause.LineError.TheVariants.{Shows};

    ghost from_gives = { λ cause e. e ≡ Shows cause };

    fn from(cause: ValuesCause) -> LineError<ValuesCause> {
        LineError::Shows(cause)
    }
}
