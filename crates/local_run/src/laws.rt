ghost use Rattle.local_run.specs.OneSeed.{HonestPartsServe, JobsOfSeedAreHonest, JobsOfSeedServe};
ghost use Rattle.local_run.specs.Told.{ToldBitsAreThoseOfOutputs};
ghost use Rattle.local_run.specs.Turns.{APartyHasFewItems, ItemsAreThoseOfParties, TurnsAreFew, TurnsAreWithinLimits, EdgesAreFew};

/// The bits that the gates of a plan tell a party are those that its output gates tell that party, joined in order.
pub fn told_bits_are_those_of_outputs()
    ensures { ToldBitsAreThoseOfOutputs }
{}

/// Where a plan without gates of keys takes its inputs, a run from one seed is a job with parts that serve all parties, and honest where
/// the parts are. Honest parts with records enough serve all.
pub fn jobs_of_seed_serve()
    ensures serve { JobsOfSeedServe }
    ensures honest { JobsOfSeedAreHonest }
    ensures parts { HonestPartsServe }
{}

/// A run of all parties has the items of its parties, of which each has at most as many as there are gates and payloads that
/// are sent to it.
pub fn turns_are_few()
    ensures party { APartyHasFewItems }
    ensures all { ItemsAreThoseOfParties }
    ensures few { TurnsAreFew }
    ensures limits { TurnsAreWithinLimits }
{}

/// The edges of a run are fewer than a graph can have, so that no limit of a graph stops a run.
pub fn edges_are_few()
    ensures { EdgesAreFew }
{}
