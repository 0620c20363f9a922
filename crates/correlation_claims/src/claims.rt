//! The counters of the four kinds, and the seats at them.
ghost use Rattle.std.specs.Prelude.{◌≡◌, ◌≤◌, IfOk};
ghost use Rattle.correlation_claims.specs.Places.{IsOpened};

use crate::asks::Range;
use crate::counter::{Chair, Counter};
use crate::place::Place;
use mot_base::NoMemory;
use share_types::{Kind, Needs, TooFew};
use std::alloc::Global;

/// Hands out the correlations of a stock, over all threads and each at most once. A stock has as many
/// of each kind as its `Needs` say, numbered from 0.
#[derive(Drop)]
pub struct Claims {
    mult: Counter,
    bit: Counter,
    shared: Counter,
    key: Counter,
    ghost some_seat: { 1 ≤ mult.table.shared.key.seats },
    ghost bit_seats: { bit.table.shared.key.seats ≡ mult.table.shared.key.seats },
    ghost shared_seats: { shared.table.shared.key.seats ≡ mult.table.shared.key.seats },
    ghost key_seats: { key.table.shared.key.seats ≡ mult.table.shared.key.seats },
}

/// A seat at the claims, for one thread. Of the grants of each kind it keeps their number and the last
/// range.
#[derive(Drop)]
pub struct ClaimSeat {
    mult: Place,
    bit: Place,
    shared: Place,
    key: Place,
}

/// The counters' seats that have what was not given to a `ClaimSeat` yet, or what came back.
#[derive(Drop)]
pub struct Bench {
    mult: Chair,
    bit: Chair,
    shared: Chair,
    key: Chair,
}

/// Two counters with their seats.
type Pair = ((Counter, Chair), (Counter, Chair));

impl Claims {
    ghost use Rattle.std.specs.Prelude.{◌≡◌, ℕ, ◌+◌, ◌-◌, ◌<◌, ◌≤◌, ◌++◌, [], List, length, min, None, Some, Ok, Err, All, IfOk, OnOk, MatchResult};
    ghost use Rattle.share_types.specs.Needs.{count_of};
    ghost use Rattle.share_types.specs.declared.needs.Kind.{Kind};
    ghost use Rattle.share_types.specs.declared.needs.TooFew.{TooFew};
    ghost use Rattle.correlation_claims.specs.Asks.{range, count_all};
    ghost use Rattle.correlation_claims.specs.Answers.{Grants, Refuses};
    ghost use Rattle.correlation_claims.specs.Lawful.{AreLawful};
    ghost use Rattle.correlation_claims.specs.Seats.{EachKind, stock_of, seats_of, asks_of, refusal_of, all_asks, ChangesOnly, IsSeatOf, IsNew, IsBenchOf, parts_of, bench_asks};

    /// The claims on a stock, with their seats.
    pub fn over(
        alloc: Global,
        stock: Needs,
        seats: u8,
    ) -> Result<(Claims, Vec<ClaimSeat>), NoMemory>
        requires some { 1 ≤ seats }
        requires few { seats ≤ 16 }
        ensures stock { IfOk result (λ r. stock_of r.0 ≡ stock) }
        ensures count { IfOk result (λ r. (seats_of r.0 ≡ seats) × (length r.1.items ≡ seats)) }
        ensures seats { IfOk result (λ r. All (IsSeatOf r.0) r.1.items) }
        ensures new { IfOk result (λ r. All IsNew r.1.items) }
    {
        let (claims, bench) = Claims::open(alloc, stock, seats)?;
        let list = claims.seat_all(alloc, bench, seats)?;
        Ok((claims, list))
    }

    /// The counters, and their seats with all parts.
    fn open(alloc: Global, stock: Needs, seats: u8) -> Result<(Claims, Bench), NoMemory>
        requires some { 1 ≤ seats }
        requires few { seats ≤ 16 }
        ensures stock { IfOk result (λ r. stock_of r.0 ≡ stock) }
        ensures seats { IfOk result (λ r. seats_of r.0 ≡ seats) }
        ensures bench { IfOk result (λ r. IsBenchOf r.0 seats (λ _. []) r.1) }
    {
        let ((mult, mult_chair), (bit, bit_chair)) = open_two(alloc, stock.mult, stock.bit, seats)?;
        let ((shared, shared_chair), (key, key_chair)) = open_two(
            alloc,
            stock.shared,
            stock.key,
            seats,
        )?;
        let bench = Bench {
            mult: mult_chair,
            bit: bit_chair,
            shared: shared_chair,
            key: key_chair,
        };
        Ok((
            Claims {
                mult,
                bit,
                shared,
                key,
            },
            bench,
        ))
    }

    /// A seat for each part of the bench.
    fn seat_all(
        &self,
        alloc: Global,
        mut bench: Bench,
        seats: u8,
    ) -> Result<Vec<ClaimSeat>, NoMemory>
        requires some { 1 ≤ seats }
        requires bench { IsBenchOf self.now seats (λ _. []) bench }
        ensures count { IfOk result (λ list. length list.items ≡ seats) }
        ensures seats { IfOk result (λ list. All (IsSeatOf self.now) list.items) }
        ensures new { IfOk result (λ list. All IsNew list.items) }
    {
        let mut list = Vec::new(alloc);
        self.seat_most(&mut list, &mut bench, seats)?;
        list.push(bench.into_seat())?;
        Ok(list)
    }

    /// A seat for each part of the bench but one.
    fn seat_most(
        &self,
        list: &mut Vec<ClaimSeat>,
        bench: &mut Bench,
        seats: u8,
    ) -> Result<(), NoMemory>
        requires some { 1 ≤ seats }
        requires empty { list.old.items ≡ [] }
        requires bench { IsBenchOf self.now seats (λ _. []) bench.old }
        ensures bench { OnOk result (IsBenchOf self.now 1 (λ _. []) bench.new) }
        ensures count { OnOk result (length list.new.items + 1 ≡ seats) }
        ensures seats { OnOk result (All (IsSeatOf self.now) list.new.items) }
        ensures new { OnOk result (All IsNew list.new.items) }
    {
        for place in 1..seats {
            let seat = self.part(bench);
            list.push(seat)?;
        }
        Ok(())
    }

    /// One part of the bench as a seat.
    fn part(&self, bench: &mut Bench) -> ClaimSeat
        requires bench { IsBenchOf self.now (parts_of bench.old) (λ _. []) bench.old }
        requires parts { 1 < parts_of bench.old }
        ensures bench { IsBenchOf self.now (parts_of bench.old - 1) (λ _. []) bench.new }
        ensures seat { IsSeatOf self.now result }
        ensures new { IsNew result }
    {
        ClaimSeat {
            mult: Place::new(self.mult.part(&mut bench.mult)),
            bit: Place::new(self.bit.part(&mut bench.bit)),
            shared: Place::new(self.shared.part(&mut bench.shared)),
            key: Place::new(self.key.part(&mut bench.key)),
        }
    }

    /// An ask of a job for `n` correlations of a kind. It is granted exactly where they fit behind all
    /// that was asked for before, by any seat, and an ask that is refused counts among these too. A
    /// seat that was refused a kind answers the same again for that kind, and an ask for none changes
    /// nothing. It takes no memory and waits for nobody.
    pub fn claim(&self, seat: &mut ClaimSeat, job: u32, kind: Kind, n: u32) -> Result<Range, TooFew>
        requires { IsSeatOf self.now seat.old }
        ensures seat { IsSeatOf self.now seat.new }
        ensures others { ChangesOnly kind seat.old seat.new }
        ensures zero { n ≡ 0 → (result ≡ Ok (range 0 0)) × (seat.new ≡ seat.old) }
        ensures again { (few : TooFew) → 1 ≤ n → refusal_of seat.old kind ≡ Some few
            → (result ≡ Err few) × (seat.new ≡ seat.old) }
        ensures one { 1 ≤ n → refusal_of seat.old kind ≡ None → MatchResult result
            (Grants (count_of (stock_of self.now) kind) job n (asks_of seat.old kind)
            (asks_of seat.new kind) (refusal_of seat.new kind))
            (Refuses (count_of (stock_of self.now) kind) job kind n (asks_of seat.old kind)
            (asks_of seat.new kind) (refusal_of seat.new kind)) }
    {
        match kind {
            Kind::Mult => seat.mult.ask(&self.mult, job, kind, n),
            Kind::Bit => seat.bit.ask(&self.bit, job, kind, n),
            Kind::Shared => seat.shared.ask(&self.shared, job, kind, n),
            Kind::Key => seat.key.ask(&self.key, job, kind, n),
        }
    }

    /// Of each kind the least of the stock and all that was asked for. The seats are all of these
    /// claims.
    pub fn close(self, seats: Vec<ClaimSeat>) -> Needs
        requires seats { All (IsSeatOf self) seats.items }
        requires all { length seats.items ≡ seats_of self }
        ensures lawful { EachKind (λ kind. AreLawful (all_asks kind seats.items)) }
        ensures counts { EachKind (λ kind. count_of result kind
            ≡ min (count_of (stock_of self) kind) (count_all (all_asks kind seats.items))) }
    {
        let bench = self.gather(seats);
        let Claims {
            mult,
            bit,
            shared,
            key,
        } = self;
        Needs {
            mult: mult.close(bench.mult),
            bit: bit.close(bench.bit),
            shared: shared.close(bench.shared),
            key: key.close(bench.key),
        }
    }

    /// All seats as one bench.
    fn gather(&self, mut seats: Vec<ClaimSeat>) -> Bench
        requires some { 1 ≤ length seats.items }
        requires seats { All (IsSeatOf self.now) seats.items }
        ensures { IsBenchOf self.now (length seats.items)
            (λ kind. all_asks kind seats.items) result }
    {
        let Some(last) = seats.pop() else {
            unreachable!()
        };
        let mut bench = last.into_bench();
        while let Some(seat) = seats.pop() {
            self.take_in(&mut bench, seat);
        }
        bench
    }

    /// The bench takes in a seat.
    fn take_in(&self, bench: &mut Bench, seat: ClaimSeat)
        requires bench { IsBenchOf self.now (parts_of bench.old) (bench_asks bench.old) bench.old }
        requires parts { 0 < parts_of bench.old }
        requires seat { IsSeatOf self.now seat }
        ensures { IsBenchOf self.now (parts_of bench.old + 1)
            (λ kind. asks_of seat kind ++ bench_asks bench.old kind) bench.new }
    {
        let ClaimSeat {
            mult,
            bit,
            shared,
            key,
        } = seat;
        self.mult.take_in(&mut bench.mult, mult.into_chair());
        self.bit.take_in(&mut bench.bit, bit.into_chair());
        self.shared.take_in(&mut bench.shared, shared.into_chair());
        self.key.take_in(&mut bench.key, key.into_chair());
    }
}

/// The counters of two kinds, with their seats.
fn open_two(alloc: Global, one: u32, other: u32, seats: u8) -> Result<Pair, NoMemory>
    requires some { 1 ≤ seats }
    requires few { seats ≤ 16 }
    ensures first { IfOk result (λ r. IsOpened one seats r.0) }
    ensures second { IfOk result (λ r. IsOpened other seats r.1) }
{
    let first = Counter::over(alloc, one, seats)?;
    let second = Counter::over(alloc, other, seats)?;
    Ok((first, second))
}

impl Bench {
    ghost use Rattle.std.specs.Prelude.{◌≡◌, [], None};
    ghost use Rattle.share_types.specs.declared.needs.Kind.{Kind};
    ghost use Rattle.correlation_claims.specs.Seats.{EachKind, chair_at, place_at};

    /// The bench as a seat, where one part is left.
    fn into_seat(self) -> ClaimSeat
        requires { EachKind (λ kind. ((chair_at self kind).me.0.parts ≡ 1)
            × ((chair_at self kind).me.0.asks ≡ []) × ((chair_at self kind).me.1 ≡ [])) }
        ensures { EachKind (λ kind. ((place_at result kind).seat ≡ chair_at self kind)
            × ((place_at result kind).refused ≡ None)) }
    {
        ClaimSeat {
            mult: Place::new(self.mult),
            bit: Place::new(self.bit),
            shared: Place::new(self.shared),
            key: Place::new(self.key),
        }
    }
}

impl ClaimSeat {
    ghost use Rattle.std.specs.Prelude.{◌≡◌};
    ghost use Rattle.correlation_claims.specs.Asks.{grants_in, last_grant};
    ghost use Rattle.correlation_claims.specs.Seats.{EachKind, asks_of, stock_at, place_at, chair_at};
    ghost use Rattle.share_types.specs.declared.needs.Kind.{Kind};

    /// How many asks for a kind were granted.
    pub fn grants(&self, kind: Kind) -> u32
        ensures { result ≡ grants_in (stock_at self.now kind) (asks_of self.now kind) }
    {
        match kind {
            Kind::Mult => self.mult.grants,
            Kind::Bit => self.bit.grants,
            Kind::Shared => self.shared.grants,
            Kind::Key => self.key.grants,
        }
    }

    /// The range of the last ask for a kind that was granted, or an empty one at 0.
    pub fn last(&self, kind: Kind) -> Range
        ensures { result ≡ last_grant (stock_at self.now kind) (asks_of self.now kind) }
    {
        match kind {
            Kind::Mult => self.mult.last,
            Kind::Bit => self.bit.last,
            Kind::Shared => self.shared.last,
            Kind::Key => self.key.last,
        }
    }

    /// The seats at the counters alone.
    fn into_bench(self) -> Bench
        ensures { EachKind (λ kind. chair_at result kind ≡ (place_at self kind).seat) }
    {
        let ClaimSeat {
            mult,
            bit,
            shared,
            key,
        } = self;
        Bench {
            mult: mult.into_chair(),
            bit: bit.into_chair(),
            shared: shared.into_chair(),
            key: key.into_chair(),
        }
    }
}
