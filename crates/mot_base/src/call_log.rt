//! The calls that files were asked for, as a history that only proofs read. It takes no memory, and
//! its methods do nothing when the program runs.
ghost use Rattle.std.specs.Prelude.{◌≡◌, List, [], ◌∷◌, ◌++◌};
ghost use base.Fml.{ftrue};
ghost use Rattle.mot_base.specs.Calls.{FileCall};

use crate::files::FileAction;
use std::marker::Model;

/// The calls so far. A clause reads them as `calls`.
#[derive(Drop)]
pub(crate) struct CallLog {
    ghost calls: { List FileCall },
}

impl Model for CallLog {
    ghost also_owns = { λ _. ftrue };
}

/// A call that was made: what it asked for, of which name, and whether it failed.
#[derive(Clone, Copy, Drop)]
pub(crate) struct CallMade<'a> {
    pub action: FileAction,
    pub name: &'a str,
    pub failed: bool,
}

impl CallLog {
    ghost use Rattle.mot_base.specs.CallLog.{call_of};

    /// No calls.
    pub(crate) fn new() -> CallLog
        ensures { result.calls ≡ [] }
    {
        CallLog {}
    }

    /// The calls so far, and one more.
    pub(crate) fn and(&self, _call: &CallMade<'_>) -> CallLog
        ensures { result.calls ≡ self.now.calls ++ call_of _call.now ∷ [] }
    {
        CallLog {}
    }
}
