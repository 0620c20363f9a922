use std::alloc::{AllocError, AllocFailed};
use thiserror::Error;

/// Why bytes are read as no dealer file: the first check that fails. The checks are, in this order, `Magic`,
/// `Version`, `Party`, `OffsetEven`, `Counts`, `Short`, `Long` and `RecordBits`; a file that ends inside a field
/// is `Short` at the place of that field's check.
#[derive(Clone, Copy, Debug, PartialEq, Eq, Error)]
pub enum DealerError {
    /// The file does not begin with the letters MOTD.
    #[error("the file does not begin with MOTD")]
    Magic,
    /// The version is not 1.
    #[error("the version of the file is not 1")]
    Version,
    /// There are not 2 to 8 parties, or the party is not below them.
    #[error("there are not 2 to 8 parties, or the party is none of them")]
    Party,
    /// The offset's least bit is 0.
    #[error("the offset is even")]
    OffsetEven,
    /// The counts make a file of more than `MAX_FILE_LENGTH` bytes.
    #[error("the counts make a file of more than 67108864 bytes")]
    Counts,
    /// The byte at that place of the file, from 0, is a bit record above 7 or a flag above 1.
    #[error("the byte at place {place} is no record of bits")]
    RecordBits { place: u64 },
    /// The file ends too early.
    #[error("the file ends too early")]
    Short,
    /// Bytes stand behind the last record.
    #[error("bytes stand behind the last record")]
    Long,
    /// Memory ran out.
    #[error("memory ran out")]
    NoMemory,
}

impl From<AllocError> for DealerError {
    ghost use Rattle.std.specs.Prelude.{◌≡◌};
    ghost use Rattle.dealer_files.specs.declared.fault.DealerError.TheVariants.{NoMemory};

    ghost from_gives = { λ _ error. error ≡ NoMemory };

    fn from(_error: AllocError) -> DealerError {
        DealerError::NoMemory
    }
}

impl<T: Drop> From<AllocFailed<T>> for DealerError {
    ghost use Rattle.std.specs.Prelude.{◌≡◌};
    ghost use Rattle.dealer_files.specs.declared.fault.DealerError.TheVariants.{NoMemory};

    ghost from_gives = { λ _ error. error ≡ NoMemory };

    fn from(_error: AllocFailed<T>) -> DealerError {
        DealerError::NoMemory
    }
}

impl From<mot_base::NoMemory> for DealerError {
    ghost use Rattle.std.specs.Prelude.{◌≡◌};
    ghost use Rattle.dealer_files.specs.declared.fault.DealerError.TheVariants.{NoMemory};

    ghost from_gives = { λ _ error. error ≡ NoMemory };

    fn from(_error: mot_base::NoMemory) -> DealerError {
        DealerError::NoMemory
    }
}
