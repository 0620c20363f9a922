ghost use Rattle.std.specs.Prelude.{◌≡◌, ◌≤◌, ◌++◌, OnOk};
ghost use Rattle.mot_base.specs.Limits.{most_width};
ghost use Rattle.share_types.specs.Bits as vector;

use std::alloc::AllocError;

/// Adds the lowest bits of a number at the end of some bits, the least first.
pub fn push_bits(out: &mut Vec<bool>, word: u64, width: u8) -> Result<(), AllocError>
    requires { width ≤ most_width }
    ensures { OnOk result (out.new.items ≡ out.old.items ++ vector.bits width word) }
{
    for i in 0..width {
        out.push((word >> i) % 2 == 1)?;
    }
    Ok(())
}
