ghost use Rattle.std.specs.Prelude.{◌≡◌};
ghost use Rattle.text_lines.specs.Chain.{unless};
ghost use Rattle.text_lines.specs.Gives.{error_at};

use std::alloc::{AllocError, AllocFailed};
use std::fmt::Display;
use thiserror::Error;

/// Why a text was not read.
#[derive(Clone, Copy, Debug, PartialEq, Eq, Error)]
#[error_bound(C: Display)]
pub enum TextError<C> {
    /// The first line that shows a cause, by its number from 1 on, and the first cause of that line.
    #[error("line {line}: {cause}")]
    At { line: u32, cause: C },
    /// Memory ran out.
    #[error("there is not enough memory to read the text")]
    NoMemory,
}

impl<C: Drop> From<AllocError> for TextError<C> {
    ghost use Rattle.std.specs.Prelude.{◌≡◌};
    ghost use Rattle.text_lines.specs.declared.cause.TextError.TheVariants.{NoMemory};

    ghost from_gives = { λ _ e. e ≡ NoMemory };

    fn from(_error: AllocError) -> TextError<C> {
        TextError::NoMemory
    }
}

impl<C: Drop, T: Drop> From<AllocFailed<T>> for TextError<C> {
    ghost use Rattle.std.specs.Prelude.{◌≡◌};
    ghost use Rattle.text_lines.specs.declared.cause.TextError.TheVariants.{NoMemory};

    ghost from_gives = { λ _ e. e ≡ NoMemory };

    fn from(_error: AllocFailed<T>) -> TextError<C> {
        TextError::NoMemory
    }
}

/// Why a line was not read.
#[derive(Clone, Copy)]
pub enum LineError<C> {
    /// The first cause that the line shows.
    Shows(C),
    NoMemory,
}

impl<C: Drop> LineError<C> {
    /// The error of the text in which this is the error of a line, whose number is given.
    pub fn at(self, line: u32) -> TextError<C>
        ensures { result ≡ error_at line self }
    {
        match self {
            LineError::Shows(cause) => TextError::At { line, cause },
            LineError::NoMemory => TextError::NoMemory,
        }
    }
}

impl<C: Drop> From<AllocError> for LineError<C> {
    ghost use Rattle.std.specs.Prelude.{◌≡◌};
    ghost use Rattle.text_lines.specs.declared.cause.LineError.TheVariants.{NoMemory};

    ghost from_gives = { λ _ e. e ≡ NoMemory };

    fn from(_error: AllocError) -> LineError<C> {
        LineError::NoMemory
    }
}

impl<C: Drop, T: Drop> From<AllocFailed<T>> for LineError<C> {
    ghost use Rattle.std.specs.Prelude.{◌≡◌};
    ghost use Rattle.text_lines.specs.declared.cause.LineError.TheVariants.{NoMemory};

    ghost from_gives = { λ _ e. e ≡ NoMemory };

    fn from(_error: AllocFailed<T>) -> LineError<C> {
        LineError::NoMemory
    }
}

/// A cause, unless a test passes.
pub fn check<C: Drop>(passes: bool, cause: C) -> Result<(), C>
    ensures { result ≡ unless cause passes }
{
    if passes { Ok(()) } else { Err(cause) }
}
