ghost use Rattle.std.specs.Prelude.{◌≡◌, ◌+◌, ◌^◌};
ghost use Rattle.turn_core.specs.Core.{NothingIsLeft};
ghost use Rattle.turn_core.specs.Runs.{RunsKeepOrder};
ghost use Rattle.turn_core.specs.Listings.{EdgesAreListed};
ghost use Rattle.turn_core.specs.declared.edge.TheConstants.{OUTSIDE, TERMINAL};

/// The edges of an item, as `Dag::outgoing` and `Dag::incoming` give them: exactly those that start or end
/// there, in rising order.
pub fn edges_are_listed()
    ensures { EdgesAreListed }
{}

/// Whatever the order in which events come: an item is handed out at most once, and only after all the
/// edges that end at it were marked and the items from which they come were handed out, which have lower
/// numbers.
pub fn runs_keep_order()
    ensures { RunsKeepOrder }
{}

/// Where each edge from outside and each edge of a handed-out item is marked, and no item may be handed out, every
/// item was. So who runs what is ready until nothing is has run all.
pub fn nothing_is_left()
    ensures { NothingIsLeft }
{}

/// `OUTSIDE` and `TERMINAL` are the greatest number of 32 bits, which is the number of no item.
pub fn ends_are_no_items()
    ensures outside { OUTSIDE + 1 ≡ 2 ^ 32 }
    ensures terminal { TERMINAL + 1 ≡ 2 ^ 32 }
{}
