ghost use Rattle.std.specs.Prelude.{◌≡◌, ℕ, ◌<◌, ◌≤◌, Option, List, [], length, take, IfOk, IfErr, IsOk, OnOk, OnErr};
ghost use Rattle.mot_base.specs.Faults.{Rose};
ghost use Rattle.mot_base.specs.Sink.{with_more};

use crate::Failed;
use thiserror::Error;

/// What bytes are written to.
///
/// An implementation may tell what was appended so far. It keeps a count of its faults, from 0.
pub trait Sink {
    ghost appended: { Self → Option (List ℕ) };

    ghost faults: { Self → ℕ };

    /// Appends some first bytes of a piece, and gives how many.
    fn write(&mut self, from: &[u8]) -> Result<usize, Failed>
        ensures content { IfOk result (λ n. appended self.new ≡ with_more (appended self.old) (take n from.now)) }
        ensures within { IfOk result (λ n. n ≤ length from.now) }
        ensures some { IfOk result (λ n. 0 < length from.now → 0 < n) }
        ensures nothing { OnErr result (appended self.new ≡ appended self.old) }
        ensures cause { OnErr result (Rose (faults self.old) (faults self.new)) }
        ensures never_falls { faults self.old ≤ faults self.new };
}

/// Not all bytes were appended: the first `written` of them were.
#[derive(Clone, Copy, Debug, PartialEq, Eq, Error)]
#[error("the output failed after {written} bytes")]
pub struct WriteFailed {
    pub written: usize,
}

/// Appends all bytes. A list of no bytes is appended without a call of `write`.
pub fn write_all<S: Sink>(out: &mut S, bytes: &[u8]) -> Result<(), WriteFailed>
    ensures all { OnOk result (S.appended out.new ≡ with_more (S.appended out.old) bytes.now) }
    ensures part { IfErr result (λ e. S.appended out.new ≡ with_more (S.appended out.old) (take e.written bytes.now)) }
    ensures fewer { IfErr result (λ e. e.written < length bytes.now) }
    ensures cause { OnErr result (Rose (S.faults out.old) (S.faults out.new)) }
    ensures empty { bytes.now ≡ [] → IsOk result × (out.new ≡ out.old) }
    ensures never_falls { S.faults out.old ≤ S.faults out.new }
{
    let mut written = 0;
    while written < bytes.len() {
        match out.write(&bytes[written..]) {
            Ok(more) => written += more,
            Err(Failed) => return Err(WriteFailed { written }),
        }
    }
    Ok(())
}
