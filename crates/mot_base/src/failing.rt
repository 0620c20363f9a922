//! The calls of a memory implementation that are to fail.
ghost use Rattle.std.specs.Prelude.{◌≡◌};
ghost use Rattle.mot_base.specs.Memory.{is_listed};

/// Whether the call after so many calls is listed as one that fails.
pub(crate) fn is_listed(fails: &[u64], calls: u64) -> bool
    ensures { result ≡ is_listed fails.now calls }
{
    fails.contains(&calls.saturating_add(1))
}
