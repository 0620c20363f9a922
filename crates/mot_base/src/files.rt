ghost use Rattle.std.specs.Prelude.{◌≡◌, ℕ, ◌<◌, ◌≤◌, ◌↔◌, ◌∷◌, ◌++◌, [], List, Option, length, IfOk, OnOk, IfSome, IsErrOf, vec_len};
ghost use Rattle.mot_base.specs.Calls.{FileCall, has_failed, load_call, store_call};
ghost use Rattle.mot_base.specs.Faults.{Rose};
ghost use Rattle.mot_base.specs.Files.{Holding, IsAnswerFor, HoldsUnder, OthersStay};
ghost use Rattle.mot_base.specs.Limits.{most_file_bytes};

use std::alloc::{AllocError, Global};
use thiserror::Error;

/// Why a call on a file gave nothing.
#[derive(Clone, Copy, Debug, PartialEq, Eq, Error)]
pub enum FileError {
    /// The system failed.
    #[error("the file could not be read or written")]
    Failed,
    /// There is no file of that name.
    #[error("there is no such file")]
    Missing,
    /// There are more than `MAX_FILE_LENGTH` bytes.
    #[error("the file has more than 67108864 bytes")]
    TooLong,
    /// Memory ran out.
    #[error("memory ran out")]
    NoMemory,
}

/// What files are asked to do.
#[derive(Clone, Copy, Debug, PartialEq, Eq)]
pub enum FileAction {
    /// To give what a name holds.
    Load,
    /// To put bytes under a name.
    Store,
}

impl From<AllocError> for FileError {
    ghost use Rattle.std.specs.Prelude.{◌≡◌};
    ghost use Rattle.mot_base.specs.declared.files.FileError.TheVariants.{NoMemory};

    ghost from_gives = { λ _ error. error ≡ NoMemory };

    fn from(_error: AllocError) -> FileError {
        FileError::NoMemory
    }
}

impl From<crate::NoMemory> for FileError {
    ghost use Rattle.std.specs.Prelude.{◌≡◌};
    ghost use Rattle.mot_base.specs.declared.files.FileError.TheVariants.{NoMemory};

    ghost from_gives = { λ _ error. error ≡ NoMemory };

    fn from(_error: crate::NoMemory) -> FileError {
        FileError::NoMemory
    }
}

/// Whether a call failed.
pub(crate) fn has_failed<T>(answer: &Result<T, FileError>) -> bool
    ensures { result ≡ has_failed answer.now }
{
    matches!(answer, Err(FileError::Failed))
}

/// Named files.
///
/// An implementation may tell what each name holds. It keeps a count of its faults, from 0, and
/// tells every call that it was asked for, in order.
pub trait Files {
    ghost holds: { Self → Option Holding };

    ghost faults: { Self → ℕ };

    ghost asked: { Self → List FileCall };

    /// What a name holds.
    fn load(&mut self, alloc: Global, name: &str) -> Result<Vec<u8>, FileError>
        ensures content { IfSome (holds self.old) (λ held. IsAnswerFor (held name.now) result) }
        ensures length { IfOk result (λ bytes. vec_len bytes ≤ most_file_bytes) }
        ensures same { holds self.new ≡ holds self.old }
        ensures cause { IsErrOf result FileError.Failed → Rose (faults self.old) (faults self.new) }
        ensures missing { IsErrOf result FileError.Missing → faults self.new ≡ faults self.old }
        ensures too_long { IsErrOf result FileError.TooLong → faults self.new ≡ faults self.old }
        ensures never_falls { faults self.old ≤ faults self.new }
        ensures asked { asked self.new ≡ asked self.old ++ load_call name.now result ∷ [] };

    /// Puts the bytes under the name, in place of what it held. After a refusal nothing is known of
    /// what the name holds. No refusal is `Missing`.
    fn store(&mut self, alloc: Global, name: &str, bytes: &[u8]) -> Result<(), FileError>
        ensures stored { OnOk result (HoldsUnder (holds self.new) name.now bytes.now) }
        ensures others { OthersStay (holds self.old) (holds self.new) name.now }
        ensures length { IsErrOf result FileError.TooLong ↔ most_file_bytes < length bytes.now }
        ensures cause { IsErrOf result FileError.Failed → Rose (faults self.old) (faults self.new) }
        ensures never_missing { ¬ IsErrOf result FileError.Missing }
        ensures too_long { IsErrOf result FileError.TooLong → faults self.new ≡ faults self.old }
        ensures never_falls { faults self.old ≤ faults self.new }
        ensures asked { asked self.new ≡ asked self.old ++ store_call name.now result ∷ [] };
}
