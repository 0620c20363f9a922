ghost use Rattle.std.specs.Prelude.{◌<◌};
ghost use Rattle.std.specs.List.{All};

use crate::deque::Limit;
use crate::hints::Hints;
use mot_base::NoMemory;
use std::alloc::Global;
use std::marker::{Model, PhantomData};

/// One worker's items of a wave, and those that it made ready, which are for the next one.
#[derive(Drop)]
pub(crate) struct Hand<L: Limit> {
    dealt: Vec<u32>,
    made: Vec<u32>,
    of: PhantomData<L>,
}

impl<L: Limit> Model for Hand<L> {
    ghost use Rattle.std.specs.Prelude.{◌<◌, ⊤};
    ghost use Rattle.std.specs.List.{All};

    ghost Value = { ⊤ };

    ghost view = { λ s. tt };

    ghost invariant = { λ s.
        All (λ item. item < L.limit) s.dealt.items × All (λ item. item < L.limit) s.made.items };
}

impl<L: Limit> Hand<L> {
    /// No item is dealt, and none was made ready.
    pub(crate) fn new(alloc: Global) -> Hand<L> {
        Hand {
            dealt: Vec::new(alloc),
            made: Vec::new(alloc),
            of: PhantomData,
        }
    }

    /// Takes every item of the worker's turn, and forgets those that it made ready.
    pub(crate) fn deal(&mut self, items: &[u32], workers: usize, me: usize) -> Result<(), NoMemory>
        requires turn { me < workers }
        requires below { All (λ item. item < L.limit) items.now }
    {
        self.made.clear();
        deal_turn::<L>(&mut self.dealt, items, workers, me)
    }

    /// The items that it made ready.
    pub(crate) fn made(&self) -> &[u32]
        ensures { All (λ item. item < L.limit) result.now }
    {
        self.made.as_slice()
    }
}

/// Adds every item of a worker's turn to those that it was dealt.
fn deal_turn<L: Limit>(
    dealt: &mut Vec<u32>,
    items: &[u32],
    workers: usize,
    me: usize,
) -> Result<(), NoMemory>
    requires turn { me < workers }
    requires below { All (λ item. item < L.limit) items.now }
    requires dealt { All (λ item. item < L.limit) dealt.old.items }
    ensures { All (λ item. item < L.limit) dealt.new.items }
{
    for at in (me..items.len()).step_by(workers) {
        dealt.push(items[at])?;
    }
    Ok(())
}

impl<L: Limit> Hints for Hand<L> {
    ghost bound = { λ s. L.limit };

    fn put(&mut self, item: u32) {
        if self.made.push(item).is_err() {
            return;
        }
    }

    fn next(&mut self) -> Option<u32> {
        self.dealt.pop()
    }
}
