//! One seat, and a stock of five.
ghost use Rattle.std.specs.Prelude.{◌≡◌, ◌≤◌, All, length};
ghost use Rattle.correlation_claims.specs.Seats.{IsSeatOf};

use correlation_claims::{ClaimSeat, Claims, Range};
use mot_base::NoMemory;
use share_types::{Kind, Needs, TooFew};
use std::alloc::Global;

static STOCK: Needs = Needs {
    mult: 5,
    bit: 0,
    shared: 0,
    key: 0,
};

static REFUSAL: TooFew = TooFew {
    kind: Kind::Mult,
    before: 3,
    asked: 3,
    stock: 5,
};

// whether the asks 3, 0, 3, 1 and 0 are answered as they must be
fn is_answered(claims: &Claims, seat: &mut ClaimSeat) -> bool
    requires { IsSeatOf claims.now seat.old }
    ensures { IsSeatOf claims.now seat.new }
{
    let first = claims.claim(seat, 0, Kind::Mult, 3);
    let none = claims.claim(seat, 1, Kind::Mult, 0);
    let second = claims.claim(seat, 2, Kind::Mult, 3);
    let third = claims.claim(seat, 3, Kind::Mult, 1);
    let none_again = claims.claim(seat, 4, Kind::Mult, 0);
    first == Ok(Range { first: 0, count: 3 })
        && none == Ok(Range { first: 0, count: 0 })
        && second == Err(REFUSAL)
        && third == Err(REFUSAL)
        && none_again == Ok(Range { first: 0, count: 0 })
}

// whether the seat kept one grant
fn is_kept(seat: &ClaimSeat) -> bool {
    seat.grants(Kind::Mult) == 1
        && seat.last(Kind::Mult) == Range { first: 0, count: 3 }
        && seat.grants(Kind::Bit) == 0
}

// whether all is as it must be to the end
fn is_served(alloc: Global) -> Result<bool, NoMemory> {
    let (claims, mut seats) = Claims::over(alloc, STOCK, 1)?;
    let is_right = is_first_served(&claims, &mut seats);
    Ok(claims.close(seats) == STOCK && is_right)
}

// the same of the first seat of a row
fn is_first_served(claims: &Claims, seats: &mut Vec<ClaimSeat>) -> bool
    requires some { 1 ≤ length seats.old.items }
    requires seats { All (IsSeatOf claims.now) seats.old.items }
    ensures seats { All (IsSeatOf claims.now) seats.new.items }
    ensures count { length seats.new.items ≡ length seats.old.items }
{
    let is_right = is_answered(claims, &mut seats[0]);
    is_right && is_kept(&seats[0])
}

#[test]
fn a_seat_repeats_its_refusal(rt: HostRuntime) {
    let is_right = is_served(rt.alloc()) == Ok(true);
    assert!(rt; is_right);
}
