ghost use Rattle.std.specs.Prelude.{◌≡◌, ℕ, ◌<◌, IfSome, ⊤};
ghost use Rattle.crossbeam_deque.specs.Handles.{worker_flavor};

use crate::hints::Hints;
use crossbeam_deque::protocol::{Outcome, Protocol};
use crossbeam_deque::{Steal, Stealer, Worker};
use std::alloc::Global;
use std::marker::{Brand, Model, PhantomData};

/// A bound of numbers. No value is made: the caller's proof picks it.
pub(crate) trait Limit {
    ghost limit: { ℕ };
}

impl Limit for Brand {
    ghost limit = { 0 };
}

/// The rule of a deque: each number is below the bound.
pub(crate) struct Listed<L> {
    of: PhantomData<L>,
}

impl<L: Limit> Protocol<u32, ()> for Listed<L> {
    ghost use Rattle.pool_workers.specs.Shifts.{AreItems};

    ghost holds = { λ items views. AreItems L.limit items };

    ghost first = { tt };

    ghost guest = { tt };
}

/// What a push, a pop and a steal tell: the numbers are below the bound.
pub(crate) struct Handed<L> {
    of: PhantomData<L>,
}

impl<L: Limit> Outcome<u32, ()> for Handed<L> {
    ghost use Rattle.pool_workers.specs.Shifts.{AreItems};

    ghost then = { λ v xs w. AreItems L.limit xs };
}

/// A worker's own deque, and what others take from it by.
pub(crate) type Own<L> = Worker<u32, Global, (), Listed<L>>;

pub(crate) type Thief<L> = Stealer<u32, Global, (), Listed<L>>;

/// Takes a number from another worker's deque.
fn steal<L: Limit>(thief: &Thief<L>) -> Option<u32>
    ensures { IfSome result (λ item. item < L.limit) }
{
    let mut pass = thief.pass();
    for _turn in 0..u64::MAX {
        match thief.steal_as::<Handed<L>>(&mut pass) {
            Steal::Success(item) => return Some(item),
            Steal::Empty => return None,
            Steal::Retry => {}
        }
    }
    None
}

/// Takes a number from the first of other workers' deques that has one, from those behind its own on.
fn steal_round<L: Limit>(thieves: &[Thief<L>], me: usize) -> Option<u32>
    ensures { IfSome result (λ item. item < L.limit) }
{
    for (place, thief) in thieves.iter().enumerate() {
        if place <= me {
            continue;
        }
        if let Some(item) = steal(thief) {
            return Some(item);
        }
    }
    for (place, thief) in thieves.iter().enumerate() {
        if place >= me {
            break;
        }
        if let Some(item) = steal(thief) {
            return Some(item);
        }
    }
    None
}

/// One worker's own deque, the others' to take from, and a number that its deque had no room for.
#[derive(Drop)]
pub(crate) struct Bench<'q, L: Limit> {
    own: Own<L>,
    thieves: &'q [Thief<L>],
    me: usize,
    held: Option<u32>,
}

impl<'q, L: Limit> Model for Bench<'q, L> {
    ghost use Rattle.std.specs.Prelude.{◌≡◌, ◌<◌, IfSome, ⊤};
    ghost use Rattle.crossbeam_deque.specs.Handles.{worker_flavor};

    ghost Value = { ⊤ };

    ghost view = { λ s. tt };

    ghost invariant = { λ s. (worker_flavor s.own ≡ 0) × IfSome s.held (λ item. item < L.limit) };
}

impl<'q, L: Limit> Bench<'q, L> {
    pub(crate) fn new(own: Own<L>, thieves: &'q [Thief<L>], me: usize) -> Bench<'q, L>
        requires { worker_flavor own ≡ 0 }
    {
        Bench {
            own,
            thieves,
            me,
            held: None,
        }
    }
}

impl<'q, L: Limit> Hints for Bench<'q, L> {
    ghost bound = { λ s. L.limit };

    fn put(&mut self, item: u32) {
        let Err(back) = self.own.push_as::<Handed<L>>(item) else {
            return;
        };
        if self.held.is_none() {
            self.held = Some(back);
        }
    }

    fn next(&mut self) -> Option<u32> {
        if let Some(item) = self.held.take() {
            return Some(item);
        }
        if let Some(item) = self.own.pop_as::<Handed<L>>() {
            return Some(item);
        }
        steal_round(self.thieves, self.me)
    }
}
