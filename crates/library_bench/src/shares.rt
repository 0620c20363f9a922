ghost use Rattle.std.specs.Prelude.{◌≤◌};
ghost use Rattle.mot_base.specs.Limits.{most_parties};

use arithmetic_gmw::share_out;
use mot_base::{MAX_GATES, NoMemory, Party, Seed};
use std::alloc::Global;

/// Shares a value among parties at that many gates, and gives the sum of party 0's shares modulo 2^64.
pub(crate) fn share_among(alloc: Global, count: u32, parties: u8) -> Result<u64, NoMemory>
    requires some { 1 ≤ parties }
    requires most { parties ≤ most_parties }
{
    let mut sum = 0u64;
    for gate in 0..count {
        let shares = share_out(
            alloc,
            42,
            &Seed([0; 32]),
            0,
            gate % MAX_GATES,
            Party(0),
            parties,
        )?;
        sum = sum.wrapping_add(shares.first().copied().unwrap_or(0));
    }
    Ok(sum)
}
