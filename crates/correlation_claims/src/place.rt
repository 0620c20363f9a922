//! A seat at the counter of one kind.
ghost use Rattle.std.specs.Prelude.{◌≡◌, [], None};
ghost use Rattle.correlation_claims.specs.Asks.{refusals_in, grants_in, last_grant};

use crate::asks::Range;
use crate::counter::{Asking, Chair, Counter};
use share_types::{Kind, TooFew};
use std::marker::Brand;

/// A seat at one counter, with its refusal, and of its grants their number and the last.
#[derive(Drop)]
pub struct Place {
    pub seat: Chair,
    pub refused: Option<TooFew>,
    pub grants: u32,
    pub last: Range,
    ghost one_part: { seat.me.0.parts ≡ 1 },
    ghost no_slot: { seat.me.1 ≡ [] },
    ghost open: { refused ≡ None → refusals_in seat.me.0.stock seat.me.0.asks ≡ 0 },
    ghost counted: { grants ≡ grants_in seat.me.0.stock seat.me.0.asks },
    ghost latest: { last ≡ last_grant seat.me.0.stock seat.me.0.asks },
}

impl Place {
    ghost use Rattle.std.specs.Prelude.{◌≡◌, ◌≤◌, [], None, Some, Ok, Err, MatchResult};
    ghost use Rattle.share_types.specs.declared.needs.TooFew.{TooFew};
    ghost use Rattle.correlation_claims.specs.Asks.{range};
    ghost use Rattle.correlation_claims.specs.Answers.{Grants, Refuses};
    ghost use Rattle.correlation_claims.specs.Places.{IsPlaceOf};

    /// A seat that has asked for nothing.
    pub fn new(seat: Chair) -> Place
        requires part { seat.me.0.parts ≡ 1 }
        requires no_slot { seat.me.1 ≡ [] }
        requires new { seat.me.0.asks ≡ [] }
        ensures seat { result.seat ≡ seat }
        ensures refused { result.refused ≡ None }
    {
        Place {
            seat,
            refused: None,
            grants: 0,
            last: Range { first: 0, count: 0 },
        }
    }

    /// The seat alone.
    pub fn into_chair(self) -> Chair
        ensures { result ≡ self.seat }
    {
        let Place {
            seat,
            refused: _,
            grants: _,
            last: _,
        } = self;
        seat
    }

    /// One ask of a job.
    pub fn ask(&mut self, counter: &Counter, job: u32, kind: Kind, n: u32) -> Result<Range, TooFew>
        requires place { IsPlaceOf counter.now self.old }
        ensures place { IsPlaceOf counter.now self.new }
        ensures zero { n ≡ 0 → (result ≡ Ok (range 0 0)) × (self.new ≡ self.old) }
        ensures again { (few : TooFew) → 1 ≤ n → self.old.refused ≡ Some few
            → (result ≡ Err few) × (self.new ≡ self.old) }
        ensures one { 1 ≤ n → self.old.refused ≡ None → MatchResult result
            (Grants counter.now.stock job n self.old.seat.me.0.asks
            self.new.seat.me.0.asks self.new.refused)
            (Refuses counter.now.stock job kind n self.old.seat.me.0.asks
            self.new.seat.me.0.asks self.new.refused) }
    {
        if n == 0 {
            return Ok(Range { first: 0, count: 0 });
        }
        if let Some(few) = self.refused {
            return Err(few);
        }
        self.ask_more::<Brand>(counter, job, kind, n)
    }

    /// One ask of a seat that was not refused. Whose ask it is stands in clauses alone.
    fn ask_more<J: Asking>(
        &mut self,
        counter: &Counter,
        _job: u32,
        kind: Kind,
        n: u32,
    ) -> Result<Range, TooFew>
        requires place { IsPlaceOf counter.now self.old }
        requires job { J.job ≡ _job }
        requires open { self.old.refused ≡ None }
        requires some { 1 ≤ n }
        ensures place { IsPlaceOf counter.now self.new }
        ensures one { MatchResult result
            (Grants counter.now.stock _job n self.old.seat.me.0.asks
            self.new.seat.me.0.asks self.new.refused)
            (Refuses counter.now.stock _job kind n self.old.seat.me.0.asks
            self.new.seat.me.0.asks self.new.refused) }
    {
        let stock = counter.stock;
        let before = counter.add::<J>(&mut self.seat, n);
        if before + u64::from(n) > u64::from(stock) {
            let few = TooFew {
                kind,
                before,
                asked: n,
                stock,
            };
            self.refused = Some(few);
            return Err(few);
        }
        let range = Range {
            first: before as u32,
            count: n,
        };
        self.grants += 1;
        self.last = range;
        Ok(range)
    }
}
