ghost use Rattle.std.specs.Prelude.{◌≤◌};
ghost use Rattle.correlation_claims.specs.Seats.{IsSeatOf};

use correlation_claims::{ClaimSeat, Claims};
use mot_base::NoMemory;
use share_types::{Kind, Needs};
use std::alloc::Global;
use std::thread;
use std::thread::Threads;

/// Claims that many correlations in all, one after another, by so many threads, and gives how many were granted.
pub(crate) fn claim<R: Threads + Sync>(
    rt: &R,
    alloc: Global,
    asks: u32,
    threads: u8,
) -> Result<u64, NoMemory>
    requires some { 1 ≤ threads }
    requires most { threads ≤ 16 }
{
    let stock = Needs {
        mult: u32::MAX,
        bit: 0,
        shared: 0,
        key: 0,
    };
    let (claims, seats) = Claims::over(alloc, stock, threads)?;
    let each = asks / u32::from(threads);
    let granted = thread::map_vec(
        rt,
        seats,
        &|seat: ClaimSeat| -> u64
            requires { IsSeatOf claims seat }
        { claim_each(&claims, seat, each) },
    )?;
    Ok(granted.iter().fold(0, |sum, more| sum.wrapping_add(*more)))
}

/// Claims that many correlations, and gives how many were granted.
fn claim_each(claims: &Claims, mut seat: ClaimSeat, asks: u32) -> u64
    requires { IsSeatOf claims.now seat }
{
    for job in 0..asks {
        if claims.claim(&mut seat, job, Kind::Mult, 1).is_err() {
            break;
        }
    }
    u64::from(seat.grants(Kind::Mult))
}
