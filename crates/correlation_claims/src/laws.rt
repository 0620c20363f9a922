//! What the words for asks have to do with one another. A law is the contract of a function that does
//! nothing.
ghost use Rattle.correlation_claims.specs.Laws.{RuleIsLawful, ViewsDoNotMeet, AsksDoNotMeet, SeatsDoNotMeet};

/// At every moment the asks of each kind that all seats know are lawful, and those of two seats do not
/// meet.
pub fn asks_are_lawful_at_every_moment()
    ensures lawful { RuleIsLawful }
    ensures apart { ViewsDoNotMeet }
{}

/// Lawful asks do not meet, whether they were granted or not: so no correlation is granted twice,
/// neither to one seat nor to two.
pub fn lawful_asks_do_not_meet()
    ensures asks { AsksDoNotMeet }
    ensures seats { SeatsDoNotMeet }
{}
