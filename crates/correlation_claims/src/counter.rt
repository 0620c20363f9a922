//! One kind of correlation: a word that counts what was asked for, whether it was granted or not.
ghost use Rattle.std.specs.Prelude.{◌≡◌, ℕ, ◌-◌, []};
ghost use Rattle.correlation_claims.specs.Steps.{Lawful, claimed, hand, together};

use crate::asks::Ask;
use atomic_table::{Join, Play, Seat, Split, Table, TableRule};
use mot_base::NoMemory;
use std::alloc::Global;
use std::collections::LinkedList;
use std::marker::{Brand, PhantomData};

/// What a seat at one kind knows: the stock of the kind, its parts of the right to know all asks, and
/// its own asks. No value of it is made.
pub struct Hand {
    pub stock: u32,
    pub parts: u64,
    pub asks: LinkedList<Ask>,
}

/// What a counter is told once: the stock of its kind, and for how many seats it is.
#[derive(Clone, Copy)]
pub struct Stock {
    pub stock: u32,
    pub seats: u8,
}

/// The rule of a counter.
pub struct Counted;

impl TableRule<(), Hand, Stock> for Counted {
    ghost holds = { Lawful };

    ghost first = { λ key. hand key.stock key.seats [] };
}

/// The job that asks. No value is made: the proof of the call picks it.
pub trait Asking {
    ghost job: { ℕ };
}

impl Asking for Brand {
    ghost job = { 0 };
}

/// The step of an ask.
pub struct Claimed<J> {
    job: PhantomData<J>,
}

impl<J: Asking> Play<(), Hand> for Claimed<J> {
    ghost then = { claimed J.job };
}

/// How a part goes to a new seat, and how one seat takes in what another knows.
pub struct Parting;

impl Split<Hand> for Parting {
    ghost left = { λ v. hand v.stock (v.parts - 1) v.asks };

    ghost right = { λ v. hand v.stock 1 [] };
}

impl Join<Hand> for Parting {
    ghost both = { together };

    ghost spent = { hand 0 0 [] };
}

pub type Chair = Seat<(), Hand>;

/// The counter of one kind.
#[derive(Drop)]
pub struct Counter {
    pub table: Table<(), Hand, Stock, Counted, Global>,
    pub stock: u32,
    ghost one_word: { table.shared.table_id.words ≡ 1 },
    ghost no_slot: { table.shared.table_id.slots ≡ 0 },
    ghost keyed: { table.shared.key.stock ≡ stock },
}

impl Counter {
    ghost use Rattle.std.specs.Prelude.{◌≡◌, ◌+◌, ◌-◌, ◌<◌, ◌≤◌, ◌^◌, ◌++◌, [], length, min, IfOk};
    ghost use Rattle.correlation_claims.specs.Asks.{count_all, refusals_in};
    ghost use Rattle.correlation_claims.specs.Lawful.{AreLawful};
    ghost use Rattle.correlation_claims.specs.Places.{IsOpened, IsChairOf};
    ghost use Rattle.correlation_claims.specs.Steps.{more};

    /// A counter at 0, and a seat that has all parts.
    pub fn over(alloc: Global, stock: u32, seats: u8) -> Result<(Counter, Chair), NoMemory>
        requires some { 1 ≤ seats }
        requires few { seats ≤ 16 }
        ensures { IfOk result (IsOpened stock seats) }
    {
        let (table, seat) = Table::of_words(alloc, &[0], &Stock { stock, seats })?;
        Ok((Counter { table, stock }, seat))
    }

    /// A new seat with one part of the seat's.
    pub fn part(&self, seat: &mut Chair) -> Chair
        requires chair { IsChairOf self.now seat.old.me.0.parts [] seat.old }
        requires parts { 1 < seat.old.me.0.parts }
        ensures left { IsChairOf self.now (seat.old.me.0.parts - 1) [] seat.new }
        ensures right { IsChairOf self.now 1 [] result }
    {
        self.table.shared.split_seat::<Parting>(seat)
    }

    /// The seat takes in all that the other knows.
    pub fn take_in(&self, seat: &mut Chair, other: Chair)
        requires chair { IsChairOf self.now seat.old.me.0.parts seat.old.me.0.asks seat.old }
        requires parts { 0 < seat.old.me.0.parts }
        requires other { IsChairOf self.now 1 other.me.0.asks other }
        ensures { IsChairOf self.now (seat.old.me.0.parts + 1)
            (other.me.0.asks ++ seat.old.me.0.asks) seat.new }
    {
        self.table.shared.join_seat::<Parting>(seat, other);
    }

    /// Raises the counter, and tells what it was before.
    pub fn add<J: Asking>(&self, seat: &mut Chair, n: u32) -> u64
        requires table { seat.old.table_id ≡ self.now.table.shared.table_id }
        requires parts { 0 < seat.old.me.0.parts }
        requires stock { seat.old.me.0.stock ≡ self.now.stock }
        requires open { refusals_in seat.old.me.0.stock seat.old.me.0.asks ≡ 0 }
        requires some { 1 ≤ n }
        ensures table { seat.new.table_id ≡ seat.old.table_id }
        ensures me { seat.new.me ≡ (more seat.old.me.0 J.job result n, seat.old.me.1) }
        ensures small { result + n < 2 ^ 64 }
        ensures behind { length seat.old.me.0.asks ≤ result }
    {
        self.table
            .shared
            .fetch_add::<Claimed<J>>(seat, 0, u64::from(n))
    }

    /// The least of the stock and the counter, which the seat with all parts has seen whole.
    pub fn close(self, seat: Chair) -> u32
        requires { IsChairOf self self.table.shared.key.seats seat.me.0.asks seat }
        ensures lawful { AreLawful seat.me.0.asks }
        ensures count { result ≡ min self.stock (count_all seat.me.0.asks) }
    {
        let Counter { table, stock } = self;
        let closed = table.close_with(seat);
        let word = closed.word(0);
        closed.free();
        if word < u64::from(stock) {
            word as u32
        } else {
            stock
        }
    }
}
