//! What a party brings to a run.

use dealer_files::DealerPart;
use joint_run::Own;
use plan_gates::Plan;
use std::marker::Model;

/// What a party brings to a run: the plan, its own data and its part of a deal.
#[derive(Drop)]
pub struct Brought<'a> {
    pub plan: &'a Plan,
    pub own: &'a Own,
    pub part: &'a DealerPart,
}

impl<'a> Model for Brought<'a> {
    ghost use Rattle.party_stages.specs.Following.{Side};

    ghost Value = { Side };

    ghost view = { λ b. record { plan = b.plan.now; own = b.own.now; part = b.part.now } };
}
